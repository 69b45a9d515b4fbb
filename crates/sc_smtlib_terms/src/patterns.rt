//! Patterns as regular languages.
ghost use Rattle.std.specs.Prelude.{◌≡◌, ◌++◌, ◌∷◌, ◌<◌, [], IfOk, OnOk, flat_map};
ghost use Rattle.sc_smtlib_forms.specs.Characters.{text_character};
ghost use Rattle.sc_smtlib_terms.specs.Patterns as patterns;

use sc_lists::Seq;
use sc_pattern::{Part, Pattern};
use sc_smtlib_forms::{Form, plain, put_bytes, put_text_character, with_one};
use std::alloc::{AllocError, Global};

/// Just these characters one after the other.
fn run_text(alloc: Global, run: &[u32]) -> Result<Vec<u8>, AllocError>
    ensures { IfOk result (λ v. v.items ≡ patterns.run_text run.now) }
{
    let mut text = Vec::new(alloc);
    put_run(&mut text, alloc, run)?;
    with_one(alloc, Form::Characters, text.as_slice())
}

fn put_run(out: &mut Vec<u8>, alloc: Global, run: &[u32]) -> Result<(), AllocError>
    ensures { OnOk result (out.new.items ≡ out.old.items ++ flat_map text_character run.now) }
{
    for c in run {
        put_text_character(out, alloc, *c)?;
    }
    Ok(())
}

/// Puts a run behind the pieces, where it has characters.
fn put_ended(alloc: Global, pieces: &mut Seq<Seq<u8>>, run: &[u32]) -> Result<(), AllocError>
    ensures { OnOk result (pieces.new ≡ pieces.old ++ patterns.ended run.now) }
{
    match run.split_first() {
        None => Ok(()),
        Some(_) => {
            let text = run_text(alloc, run)?;
            pieces.push(Seq::from_vec(text))
        }
    }
}

fn put_star(alloc: Global, pieces: &mut Seq<Seq<u8>>, run: &[u32]) -> Result<(), AllocError>
    ensures { OnOk result (pieces.new ≡ pieces.old ++ patterns.with_star run.now) }
{
    put_ended(alloc, pieces, run)?;
    let star = plain(alloc, Form::AnyText)?;
    pieces.push(Seq::from_vec(star))
}

fn more(mut run: Vec<u32>, c: u32) -> Result<Vec<u32>, AllocError>
    ensures { IfOk result (λ v. v.items ≡ run.items ++ c ∷ []) }
{
    run.push(c)?;
    Ok(run)
}

/// The pieces of a pattern: each star is one, and each run of characters.
fn pieces(alloc: Global, parts: &[Part]) -> Result<Seq<Seq<u8>>, AllocError>
    ensures { IfOk result (λ ps. ps ≡ patterns.pieces [] parts.now) }
{
    let mut out = Seq::new(alloc);
    let mut run = Vec::new(alloc);
    let mut rest = parts;
    while let Some((part, later)) = rest.split_first() {
        match part {
            Part::Star => {
                put_star(alloc, &mut out, run.as_slice())?;
                run = Vec::new(alloc);
            }
            Part::Char(c) => run = more(run, *c as u32)?,
        }
        rest = later;
    }
    put_ended(alloc, &mut out, run.as_slice())?;
    Ok(out)
}

/// Puts texts at the end, a space before each.
pub(crate) fn put_spaced(out: &mut Vec<u8>, texts: &[Seq<u8>]) -> Result<(), AllocError>
    ensures { OnOk result (out.new.items ≡ out.old.items ++ patterns.spaced texts.now) }
{
    for text in texts {
        put_bytes(out, b" ")?;
        put_bytes(out, text.as_slice())?;
    }
    Ok(())
}

/// Languages one after the other.
fn sequence(alloc: Global, pieces: &[Seq<u8>]) -> Result<Vec<u8>, AllocError>
    ensures { IfOk result (λ v. v.items ≡ patterns.sequence pieces.now) }
{
    let Some((first, others)) = pieces.split_first() else {
        return run_text(alloc, &[]);
    };
    let mut out = Vec::new(alloc);
    if others.is_empty() {
        put_bytes(&mut out, first.as_slice())?;
        return Ok(out);
    }
    put_spaced(&mut out, pieces)?;
    with_one(alloc, Form::Sequence, out.as_slice())
}

/// The regular language of the texts that match a pattern.
#[tactic(auto, unfolding(crate::specs::Patterns::pattern_text))]
pub fn pattern_text(alloc: Global, pattern: &Pattern) -> Result<Vec<u8>, AllocError>
    ensures { IfOk result (λ v. v.items ≡ patterns.pattern_text pattern.now) }
{
    let pieces = pieces(alloc, pattern.parts())?;
    sequence(alloc, pieces.as_slice())
}
