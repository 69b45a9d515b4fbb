//! The order in which terms are defined.
ghost use Rattle.std.specs.Prelude.{◌≡◌, ◌<◌, ◌-◌, ◌∷◌, ◌++◌, [], length, map, ℕ, IfOk, OnOk};
ghost use Rattle.sc_closure_rules.specs.Closure.{parts, trees_in};
ghost use Rattle.sc_lists.specs.Members.{Has};
ghost use Rattle.sc_terms.specs.Tables.{tree, node_parts, AreBelow};
ghost use Rattle.sc_turns.specs.Turns.{InTurn};
ghost use Rattle.sc_smtlib_lines.specs.Gaining.{AreClosed, AreNames, terms_of};
ghost use Rattle.sc_smtlib_lines.specs.Names.{part_places, places_of};

use crate::names::{Names, place};
use sc_lists::{Seq, Text};
use sc_sorts::Node;
use sc_turns::turns;
use std::alloc::{AllocError, Global};

fn put_place(names: &Names<'_>, part: u64, places: &mut Seq<u64>) -> Result<(), AllocError>
    requires named { AreNames names.now }
    requires within { part < length names.now.terms.now }
    ensures { OnOk result (places.new ≡ places.old
        ++ places_of (terms_of names.now) (tree names.now.terms.now part ∷ [])) }
{
    places.push(place(names, part).saturating_sub(1))
}

fn put_places(
    names: &Names<'_>,
    parts: &[(Text, u64)],
    places: &mut Seq<u64>,
) -> Result<(), AllocError>
    requires named { AreNames names.now }
    requires within { AreBelow (length names.now.terms.now) parts.now }
    ensures { OnOk result (places.new ≡ places.old
        ++ places_of (terms_of names.now) (trees_in (node_parts names.now.terms.now parts.now))) }
{
    let mut rest = parts;
    while let Some((part, later)) = rest.split_first() {
        put_place(names, part.1, places)?;
        rest = later;
    }
    Ok(())
}

fn put_two(names: &Names<'_>, a: u64, b: u64, places: &mut Seq<u64>) -> Result<(), AllocError>
    requires named { AreNames names.now }
    requires a_in { a < length names.now.terms.now }
    requires b_in { b < length names.now.terms.now }
    ensures { OnOk result (places.new ≡ places.old ++ places_of (terms_of names.now) (tree names.now.terms.now a
        ∷ tree names.now.terms.now b ∷ [])) }
{
    put_place(names, a, places)?;
    put_place(names, b, places)
}

/// Puts the places of a term's parts, counted from 0.
fn put_parts(names: &Names<'_>, n: u64, places: &mut Seq<u64>) -> Result<(), AllocError>
    requires named { AreNames names.now }
    requires within { n < length names.now.terms.now }
    ensures { OnOk result (places.new ≡ places.old
        ++ places_of (terms_of names.now) (parts (tree names.now.terms.now n))) }
{
    match names.terms.node(n) {
        Node::Leaf(_) => Ok(()),
        Node::One(_, a) => put_place(names, *a, places),
        Node::Two(_, a, b) => put_two(names, *a, *b, places),
        Node::Choice(c, a, b) => {
            put_place(names, *c, places)?;
            put_two(names, *a, *b, places)
        }
        Node::Many(_, parts) => put_places(names, parts.as_slice(), places),
    }
}

fn put_term(
    alloc: Global,
    names: &Names<'_>,
    n: u64,
    all: &mut Seq<Seq<u64>>,
) -> Result<(), AllocError>
    requires named { AreNames names.now }
    requires within { n < length names.now.terms.now }
    ensures { OnOk result (all.new ≡ all.old
        ++ places_of (terms_of names.now) (parts (tree names.now.terms.now n)) ∷ []) }
{
    let mut places = Seq::new(alloc);
    put_parts(names, n, &mut places)?;
    all.push(places)
}

/// For each term the places of its parts, counted from 0.
fn all_places(alloc: Global, names: &Names<'_>) -> Result<Seq<Seq<u64>>, AllocError>
    requires { AreNames names.now }
    ensures { IfOk result (λ all. all ≡ part_places (terms_of names.now)) }
{
    let mut all = Seq::new(alloc);
    let mut rest = names.numbers.as_slice();
    while let Some((n, later)) = rest.split_first() {
        put_term(alloc, names, *n, &mut all)?;
        rest = later;
    }
    Ok(all)
}

/// The places of the terms in the order in which they are defined.
#[tactic(auto, using(crate::proofs::OrderLaws::are_things))]
pub(crate) fn order(alloc: Global, names: &Names<'_>) -> Result<Seq<u64>, AllocError>
    requires named { AreNames names.now }
    requires closed { AreClosed (terms_of names.now) }
    ensures in_turn { IfOk result (λ os. InTurn (part_places (terms_of names.now)) os) }
    ensures whole { IfOk result (λ os. (x : ℕ) → x < length (terms_of names.now) → Has os x) }
    ensures within { IfOk result (λ os. (x : ℕ) → Has os x → x < length (terms_of names.now)) }
{
    let parts = all_places(alloc, names)?;
    turns(alloc, parts)
}
