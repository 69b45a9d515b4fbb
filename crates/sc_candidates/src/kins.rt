//! Sets whose candidates are one another's: the ancestors, of one type, of entities of one type. Each
//! candidate of one of them is kept once, as one of the first of them, so that it is told once of which
//! other sets it is a candidate.
ghost use Rattle.std.specs.Prelude.{◌≡◌, ◌<◌, length, OnOk, IsTrue};
ghost use Rattle.std.specs.List.{AllByRecursion};
ghost use Rattle.sc_lists.specs.Members.{Has};
ghost use Rattle.sc_terms.specs.Tables.{tree};
ghost use Rattle.sc_candidates.specs.Crowds.{IsCrowdWithin};
ghost use Rattle.sc_candidates.specs.Ancestors.{is_above as above};
ghost use Rattle.sc_candidates.specs.Kins.{AreKin, HasKin, JoinsKin};

use crate::crowds::{Crowd, join_candidate};
use sc_closure_rules::are_linked;
use sc_sorts::{Node, UnaryOp};
use sc_terms::Terms;
use std::alloc::{AllocError, Global};

/// Whether a term is the ancestors of an entity.
fn is_above(terms: &Terms, n: u64) -> bool
    requires { n < length terms.now }
    ensures { result ≡ above (tree terms.now n) }
{
    matches!(terms.node(n), Node::One(UnaryOp::Ancestors(_), _))
}

/// Whether two sets are one, or are linked ancestors.
fn are_kin(terms: &Terms, s: u64, t: u64) -> bool
    requires s_in { s < length terms.now }
    requires t_in { t < length terms.now }
    ensures { IsTrue result → AreKin (tree terms.now s) (tree terms.now t) }
{
    if terms.is_same(s, t) {
        return true;
    }
    if is_above(terms, s) {
        return are_linked(terms, s, t);
    }
    false
}

/// Whether a number is one of these.
fn is_among(numbers: &[u64], n: u64) -> bool
    ensures { IsTrue result → Has numbers.now n }
{
    numbers.contains(&n)
}

/// Whether a term is a candidate of a crowd's set, and that is kin of another.
fn is_in_kin(terms: &Terms, kin: &Crowd, set: u64, term: u64) -> bool
    requires kin_in { IsCrowdWithin (length terms.now) kin.now }
    requires set_in { set < length terms.now }
    ensures { IsTrue result → AreKin (tree terms.now kin.now.set) (tree terms.now set) × Has kin.now.members term }
{
    if are_kin(terms, kin.set, set) {
        return is_among(kin.members.as_slice(), term);
    }
    false
}

/// Whether a term is known as a candidate of a set, or of one of its kin.
pub fn is_known(terms: &Terms, kins: &[Crowd], set: u64, term: u64) -> bool
    requires kins_in { AllByRecursion (IsCrowdWithin (length terms.now)) kins.now }
    requires set_in { set < length terms.now }
    ensures { IsTrue result → HasKin terms.now kins.now (tree terms.now term) (tree terms.now set) }
{
    for kin in kins {
        if is_in_kin(terms, kin, set, term) {
            return true;
        }
    }
    false
}

/// The first of a set's kin, which is the set where there is none.
fn first_kin(terms: &Terms, kins: &[Crowd], set: u64) -> u64
    requires kins_in { AllByRecursion (IsCrowdWithin (length terms.now)) kins.now }
    requires set_in { set < length terms.now }
    ensures within { result < length terms.now }
    ensures are { AreKin (tree terms.now result) (tree terms.now set) }
{
    for kin in kins {
        if are_kin(terms, kin.set, set) {
            return kin.set;
        }
    }
    set
}

/// Keeps a candidate of a set as one of the first of the set's kin.
pub fn join_kin(
    alloc: Global,
    terms: &Terms,
    kins: &mut Vec<Crowd>,
    set: u64,
    term: u64,
) -> Result<(), AllocError>
    requires kins_in { AllByRecursion (IsCrowdWithin (length terms.now)) kins.old.items }
    requires set_in { set < length terms.now }
    requires term_in { term < length terms.now }
    ensures { OnOk result (JoinsKin terms.now kins.old.items kins.new.items (tree terms.now term)
        (tree terms.now set)) }
{
    let kin = first_kin(terms, kins, set);
    join_candidate(alloc, terms, kins, kin, term)
}
