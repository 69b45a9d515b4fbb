//! The lines that define terms, and those that assert.
ghost use Rattle.std.specs.Prelude.{◌≡◌, ◌<◌, ◌++◌, ◌∷◌, [], ℕ, length, map, flat_map, get_or, OnOk};
ghost use Rattle.std.specs.List.{AllByRecursion};
ghost use Rattle.sc_lists.specs.Members.{Has};
ghost use Rattle.sc_terms.specs.Tables.{tree};
ghost use Rattle.sc_smtlib_lines.specs.Ancestries as told;
ghost use Rattle.sc_smtlib_lines.specs.Gaining.{AreNames, AreWithin, seen_at, terms_of};
ghost use Rattle.sc_smtlib_lines.specs.Names as named;
ghost use Rattle.sc_smtlib_lines.specs.Scripts as scripts;

use crate::ancestries::{Ancestry, is_above, is_own, nested_text, own_text};
use crate::definitions::definition;
use crate::names::{Names, term_name};
use crate::put::{put_line, put_plain};
use sc_closure::number_at;
use sc_smtlib_forms::{Form, with_one};
use std::alloc::{AllocError, Global};

fn put_definition(
    out: &mut Vec<u8>,
    alloc: Global,
    names: &Names<'_>,
    place: u64,
    goal: u64,
) -> Result<(), AllocError>
    requires named { AreNames names.now }
    requires within { place < length (terms_of names.now) }
    ensures { OnOk result (out.new.items ≡ out.old.items ++ scripts.with_newline
        (scripts.definition_at names.now.sorts.now (terms_of names.now) (tree names.now.terms.now goal) place)) }
{
    let _ = goal;
    let Some(n) = number_at(names.numbers, place) else {
        return Ok(());
    };
    let line = definition(alloc, names, n)?;
    put_line(out, line.as_slice())
}

/// Puts the definitions of the terms at these places.
pub(crate) fn put_definitions(
    out: &mut Vec<u8>,
    alloc: Global,
    names: &Names<'_>,
    order: &[u64],
    goal: u64,
) -> Result<(), AllocError>
    requires named { AreNames names.now }
    requires within { AllByRecursion (λ x. x < length (terms_of names.now)) order.now }
    ensures { OnOk result (out.new.items ≡ out.old.items ++ flat_map scripts.with_newline
        (map (scripts.definition_at names.now.sorts.now (terms_of names.now) (tree names.now.terms.now goal))
        order.now)) }
{
    let mut rest = order;
    while let Some((place, later)) = rest.split_first() {
        put_definition(out, alloc, names, *place, goal)?;
        rest = later;
    }
    Ok(())
}

fn put_own(
    out: &mut Vec<u8>,
    alloc: Global,
    names: &Names<'_>,
    a: &Ancestry,
) -> Result<(), AllocError>
    requires named { AreNames names.now }
    requires within { a.now.0 < length names.now.terms.now }
    ensures { OnOk result (out.new.items ≡ out.old.items ++ flat_map scripts.with_newline
        (told.own_line names.now.sorts.now (terms_of names.now) (seen_at names.now a.now))) }
{
    if is_own(names, a) {
        let line = own_text(alloc, names, a)?;
        put_line(out, line.as_slice())
    } else {
        Ok(())
    }
}

/// Puts the lines that no entity is an ancestor of its own.
pub(crate) fn put_all_own(
    out: &mut Vec<u8>,
    alloc: Global,
    names: &Names<'_>,
    all: &[Ancestry],
) -> Result<(), AllocError>
    requires named { AreNames names.now }
    requires within { AreWithin (length names.now.terms.now) all.now }
    ensures { OnOk result (out.new.items ≡ out.old.items ++ flat_map scripts.with_newline
        (flat_map (told.own_line names.now.sorts.now (terms_of names.now)) (map (seen_at names.now) all.now))) }
{
    let mut rest = all;
    while let Some((a, later)) = rest.split_first() {
        put_own(out, alloc, names, a)?;
        rest = later;
    }
    Ok(())
}

fn put_nested(
    out: &mut Vec<u8>,
    alloc: Global,
    names: &Names<'_>,
    a: &Ancestry,
    b: &Ancestry,
) -> Result<(), AllocError>
    requires named { AreNames names.now }
    requires a_in { a.now.0 < length names.now.terms.now }
    requires b_in { b.now.0 < length names.now.terms.now }
    ensures { OnOk result (out.new.items ≡ out.old.items ++ flat_map scripts.with_newline
        (told.nested_line names.now.sorts.now (terms_of names.now) (seen_at names.now a.now)
        (seen_at names.now b.now))) }
{
    if is_above(names, a, b) {
        let line = nested_text(alloc, names, a, b)?;
        put_line(out, line.as_slice())
    } else {
        Ok(())
    }
}

fn put_nested_with(
    out: &mut Vec<u8>,
    alloc: Global,
    names: &Names<'_>,
    a: &Ancestry,
    all: &[Ancestry],
) -> Result<(), AllocError>
    requires named { AreNames names.now }
    requires a_in { a.now.0 < length names.now.terms.now }
    requires within { AreWithin (length names.now.terms.now) all.now }
    ensures { OnOk result (out.new.items ≡ out.old.items ++ flat_map scripts.with_newline
        (flat_map (told.nested_line names.now.sorts.now (terms_of names.now) (seen_at names.now a.now))
        (map (seen_at names.now) all.now))) }
{
    let mut rest = all;
    while let Some((b, later)) = rest.split_first() {
        put_nested(out, alloc, names, a, b)?;
        rest = later;
    }
    Ok(())
}

/// Puts the lines that ancestors of ancestors are ancestors.
pub(crate) fn put_all_nested(
    out: &mut Vec<u8>,
    alloc: Global,
    names: &Names<'_>,
    all: &[Ancestry],
) -> Result<(), AllocError>
    requires named { AreNames names.now }
    requires within { AreWithin (length names.now.terms.now) all.now }
    ensures { OnOk result (out.new.items ≡ out.old.items ++ flat_map scripts.with_newline
        (told.of_each (told.nested_line names.now.sorts.now (terms_of names.now)) (map (seen_at names.now) all.now))) }
{
    let mut rest = all;
    while let Some((a, later)) = rest.split_first() {
        put_nested_with(out, alloc, names, a, all)?;
        rest = later;
    }
    Ok(())
}

/// Puts the line that the goal is true, and the question.
#[tactic(auto, using(crate::proofs::PutLaws::two_put))]
pub(crate) fn put_question(
    out: &mut Vec<u8>,
    alloc: Global,
    names: &Names<'_>,
    goal: u64,
) -> Result<(), AllocError>
    requires named { AreNames names.now }
    requires within { goal < length names.now.terms.now }
    ensures { OnOk result (out.new.items ≡ out.old.items ++ flat_map scripts.with_newline
        (scripts.question (terms_of names.now) (tree names.now.terms.now goal))) }
{
    let name = term_name(alloc, names, goal)?;
    let line = with_one(alloc, Form::Assertion, name.as_slice())?;
    put_line(out, line.as_slice())?;
    put_plain(out, alloc, Form::Check)
}
