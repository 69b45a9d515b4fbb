//! Words as a text.
ghost use Rattle.std.specs.Prelude.{◌≡◌, ◌++◌, ◌||◌, IfOk, OnOk};
ghost use Rattle.std.specs.Str.{bytes_eq};
ghost use Rattle.sc_smtlib_words.specs.Words.{close_word, gap, open_word, rest_of, spelled};

use sc_lists::Seq;
use std::alloc::{AllocError, Global};

fn is_tight(word: &[u8], next: &[u8]) -> bool
    ensures { result ≡ (bytes_eq word.now open_word || bytes_eq next.now close_word) }
{
    let opens = word == b"(".as_slice();
    let closes = next == b")".as_slice();
    opens || closes
}

/// Puts what stands between two words.
fn put_gap(out: &mut Vec<u8>, word: &[u8], next: &[u8]) -> Result<(), AllocError>
    ensures { OnOk result (out.new.items ≡ out.old.items ++ gap word.now next.now) }
{
    if is_tight(word, next) {
        return Ok(());
    }
    out.push(b' ')?;
    Ok(())
}

fn put_word(out: &mut Vec<u8>, word: &[u8]) -> Result<(), AllocError>
    ensures { OnOk result (out.new.items ≡ out.old.items ++ word.now) }
{
    out.extend_from_slice(word)?;
    Ok(())
}

/// Puts a word behind another.
fn put_behind(out: &mut Vec<u8>, word: &[u8], next: &[u8]) -> Result<(), AllocError>
    ensures { OnOk result (out.new.items ≡ out.old.items ++ (gap word.now next.now ++ next.now)) }
{
    put_gap(out, word, next)?;
    put_word(out, next)
}

/// The words one after the other: a space between two, but none behind `(` and before `)`.
#[tactic(auto, unfolding(crate::specs::Words::spelled))]
pub fn spell(alloc: Global, words: &[Seq<u8>]) -> Result<Vec<u8>, AllocError>
    ensures { IfOk result (λ v. v.items ≡ spelled words.now) }
{
    let mut out = Vec::new(alloc);
    let Some((first, later)) = words.split_first() else {
        return Ok(out);
    };
    put_word(&mut out, first.as_slice())?;
    let mut word = first;
    let mut rest = later;
    while let Some((next, others)) = rest.split_first() {
        put_behind(&mut out, word.as_slice(), next.as_slice())?;
        word = next;
        rest = others;
    }
    Ok(out)
}
