//! What a script says of ancestors.
ghost use Rattle.std.specs.Prelude.{◌≡◌, ◌<◌, ◌∷◌, ◌++◌, [], length, flat_map, map, ℕ, List, IfOk, OnOk, IsTrue};
ghost use Rattle.std.specs.List.{AllByRecursion};
ghost use Rattle.std.specs.List.Sorted.{IsStrictlySortedBy};
ghost use Rattle.sc_terms.specs.Tables.{tree};
ghost use Rattle.sc_smtlib_lines.specs.Ancestries as ancestries;
ghost use Rattle.sc_smtlib_lines.specs.Functions.{function_cmp};
ghost use Rattle.sc_smtlib_lines.specs.Gaining.{AreNames, AreWithin, Gains, seen_at, terms_of};

use crate::functions::{Function, ancestors_function, put_function};
use crate::names::{Names, term_name};
use sc_lists::Seq;
use sc_smtlib_forms::{Form, with_one, with_two};
use sc_smtlib_terms::ancestors_call;
use sc_sorts::{Node, Sort, UnaryOp, try_clone};
use std::alloc::{AllocError, Global};

/// An entity, by its number, and the sort of which its ancestors are asked.
pub(crate) type Ancestry = (u64, Sort);

fn put_ancestry(
    alloc: Global,
    names: &Names<'_>,
    n: u64,
    all: &mut Seq<Ancestry>,
) -> Result<(), AllocError>
    requires within { n < length names.now.terms.now }
    requires all_in { AreWithin (length names.now.terms.now) all.old }
    ensures all_in { OnOk result (AreWithin (length names.now.terms.now) all.new) }
    ensures more { OnOk result (map (seen_at names.now) all.new ≡ map (seen_at names.now) all.old
        ++ ancestries.ancestry_of (tree names.now.terms.now n)) }
{
    match names.terms.node(n) {
        Node::One(UnaryOp::Ancestors(among), e) => {
            let among = try_clone(alloc, among)?;
            all.push((*e, among))
        }
        _ => Ok(()),
    }
}

/// Those that terms speak of.
pub(crate) fn ancestries(alloc: Global, names: &Names<'_>) -> Result<Seq<Ancestry>, AllocError>
    requires named { AreNames names.now }
    ensures within { IfOk result (λ all. AreWithin (length names.now.terms.now) all) }
    ensures are { IfOk result (λ all. map (seen_at names.now) all ≡ ancestries.ancestries (terms_of names.now)) }
{
    let mut all = Seq::new(alloc);
    let mut rest = names.numbers.as_slice();
    while let Some((n, later)) = rest.split_first() {
        put_ancestry(alloc, names, *n, &mut all)?;
        rest = later;
    }
    Ok(all)
}

/// Whether the entity's own sort is asked.
pub(crate) fn is_own(names: &Names<'_>, a: &Ancestry) -> bool
    requires within { a.now.0 < length names.now.terms.now }
    ensures { result ≡ ancestries.is_own (seen_at names.now a.now) }
{
    &a.1 == names.terms.sort(a.0)
}

/// That an entity is no ancestor of its own.
pub(crate) fn own_text(
    alloc: Global,
    names: &Names<'_>,
    a: &Ancestry,
) -> Result<Vec<u8>, AllocError>
    requires named { AreNames names.now }
    requires within { a.now.0 < length names.now.terms.now }
    ensures { IfOk result (λ v. v.items ≡ ancestries.own_text names.now.sorts.now (terms_of names.now)
        (seen_at names.now a.now)) }
{
    let sort = names.terms.sort(a.0);
    let entity = term_name(alloc, names, a.0)?;
    let ancestors = ancestors_call(alloc, names.sorts, sort, sort, entity.as_slice())?;
    let member = with_two(alloc, Form::Member, entity.as_slice(), ancestors.as_slice())?;
    let denied = with_one(alloc, Form::Not, member.as_slice())?;
    with_one(alloc, Form::Assertion, denied.as_slice())
}

/// Whether the entity of the second may be an ancestor of the first's.
pub(crate) fn is_above(names: &Names<'_>, a: &Ancestry, b: &Ancestry) -> bool
    requires a_in { a.now.0 < length names.now.terms.now }
    requires b_in { b.now.0 < length names.now.terms.now }
    ensures { result ≡ ancestries.is_above (seen_at names.now a.now) (seen_at names.now b.now) }
{
    let asked = &a.1 == names.terms.sort(b.0);
    let same = names.terms.is_same(a.0, b.0);
    asked && !same
}

/// That the ancestors of the second's entity are the first's too, where it is one itself.
pub(crate) fn nested_text(
    alloc: Global,
    names: &Names<'_>,
    a: &Ancestry,
    b: &Ancestry,
) -> Result<Vec<u8>, AllocError>
    requires named { AreNames names.now }
    requires a_in { a.now.0 < length names.now.terms.now }
    requires b_in { b.now.0 < length names.now.terms.now }
    ensures { IfOk result (λ v. v.items ≡ ancestries.nested_text names.now.sorts.now (terms_of names.now)
        (seen_at names.now a.now) (seen_at names.now b.now)) }
{
    let sort = names.terms.sort(a.0);
    let lower = term_name(alloc, names, a.0)?;
    let upper = term_name(alloc, names, b.0)?;
    let of_lower = ancestors_call(alloc, names.sorts, sort, &a.1, lower.as_slice())?;
    let member = with_two(alloc, Form::Member, upper.as_slice(), of_lower.as_slice())?;
    let of_upper = ancestors_call(alloc, names.sorts, &a.1, &b.1, upper.as_slice())?;
    let all = ancestors_call(alloc, names.sorts, sort, &b.1, lower.as_slice())?;
    let subset = with_two(alloc, Form::Subset, of_upper.as_slice(), all.as_slice())?;
    let implied = with_two(
        alloc,
        Form::Implication,
        member.as_slice(),
        subset.as_slice(),
    )?;
    with_one(alloc, Form::Assertion, implied.as_slice())
}

/// Puts the function that the line of two ancestries uses.
fn put_nested(
    alloc: Global,
    names: &Names<'_>,
    a: &Ancestry,
    b: &Ancestry,
    set: &mut Seq<Function>,
) -> Result<(), AllocError>
    requires a_in { a.now.0 < length names.now.terms.now }
    requires b_in { b.now.0 < length names.now.terms.now }
    requires ascending { IsStrictlySortedBy function_cmp set.old }
    ensures ascending { OnOk result (IsStrictlySortedBy function_cmp set.new) }
    ensures gains { OnOk result (Gains set.old set.new (ancestries.nested_function names.now.sorts.now
        (seen_at names.now a.now) (seen_at names.now b.now))) }
{
    if is_above(names, a, b) {
        let f = ancestors_function(alloc, names.sorts, names.terms.sort(a.0), &b.1)?;
        put_function(set, f)
    } else {
        Ok(())
    }
}

fn put_nested_with(
    alloc: Global,
    names: &Names<'_>,
    a: &Ancestry,
    all: &[Ancestry],
    set: &mut Seq<Function>,
) -> Result<(), AllocError>
    requires a_in { a.now.0 < length names.now.terms.now }
    requires all_in { AreWithin (length names.now.terms.now) all.now }
    requires ascending { IsStrictlySortedBy function_cmp set.old }
    ensures ascending { OnOk result (IsStrictlySortedBy function_cmp set.new) }
    ensures gains { OnOk result (Gains set.old set.new (flat_map (ancestries.nested_function names.now.sorts.now
        (seen_at names.now a.now)) (map (seen_at names.now) all.now))) }
{
    let mut rest = all;
    while let Some((b, later)) = rest.split_first() {
        put_nested(alloc, names, a, b, set)?;
        rest = later;
    }
    Ok(())
}

/// Puts the functions that the lines of each two ancestries use.
pub(crate) fn put_all_nested(
    alloc: Global,
    names: &Names<'_>,
    all: &[Ancestry],
    set: &mut Seq<Function>,
) -> Result<(), AllocError>
    requires all_in { AreWithin (length names.now.terms.now) all.now }
    requires ascending { IsStrictlySortedBy function_cmp set.old }
    ensures ascending { OnOk result (IsStrictlySortedBy function_cmp set.new) }
    ensures gains { OnOk result (Gains set.old set.new (ancestries.of_each (ancestries.nested_function
        names.now.sorts.now) (map (seen_at names.now) all.now))) }
{
    let mut rest = all;
    while let Some((a, later)) = rest.split_first() {
        put_nested_with(alloc, names, a, all, set)?;
        rest = later;
    }
    Ok(())
}
