//! The candidates of sets that are no set terms, set by set: the terms whose membership in the set is
//! closed. They are candidates too of the sets to which the set flows, and of those with which it is
//! linked.
ghost use Rattle.std.specs.Prelude.{◌≡◌, ◌<◌, true, length, get_or, slice_set, IfOk, IfSome, OnOk};
ghost use Rattle.std.specs.List.{AllByRecursion};
ghost use Rattle.sc_terms.specs.Order.{tree_eq};
ghost use Rattle.sc_terms.specs.Tables.{tree};
ghost use Rattle.sc_candidates.specs.Crowds.{IsCrowdWithin, IsPlaced, JoinsCandidate, JoinsTarget, no_crowd, crowd_of, with_candidate, with_target};

use crate::equations::is_value;
use sc_lists::Seq;
use sc_terms::Terms;
use std::alloc::{AllocError, Global};

/// A set that is no set term, with its candidates.
#[derive(Drop)]
pub struct Crowd {
    /// The set.
    pub set: u64,
    /// Its candidates.
    pub members: Seq<u64>,
    /// Those of them that aren't values that are written out.
    pub others: Seq<u64>,
    /// The sets of which they are candidates too.
    pub targets: Seq<u64>,
}

impl Crowd {
    /// Puts a candidate behind the others.
    fn put(&mut self, term: u64, is_value: bool) -> Result<(), AllocError>
        ensures { OnOk result (self.new ≡ with_candidate is_value self.old term) }
    {
        self.members.push(term)?;
        if !is_value {
            self.others.push(term)?;
        }
        Ok(())
    }
}

/// A crowd without candidates.
fn crowd_over(alloc: Global, set: u64) -> Crowd
    ensures { result ≡ crowd_of set }
{
    Crowd {
        set,
        members: Seq::new(alloc),
        others: Seq::new(alloc),
        targets: Seq::new(alloc),
    }
}

/// The place of a set's crowd, if there is one.
fn place_of(terms: &Terms, crowds: &[Crowd], set: u64) -> Option<usize>
    requires crowds_in { AllByRecursion (IsCrowdWithin (length terms.now)) crowds.now }
    requires set_in { set < length terms.now }
    ensures within { IfSome result (λ p. p < length crowds.now) }
    ensures same { IfSome result (λ p. tree_eq (tree terms.now (get_or crowds.now p no_crowd).set) (tree terms.now
        set) ≡ true) }
{
    for place in 0..crowds.len() {
        if terms.is_same(crowds[place].set, set) {
            return Some(place);
        }
    }
    None
}

/// The place of a set's crowd, which is made where there is none.
fn crowd_at(
    alloc: Global,
    terms: &Terms,
    crowds: &mut Vec<Crowd>,
    set: u64,
) -> Result<usize, AllocError>
    requires crowds_in { AllByRecursion (IsCrowdWithin (length terms.now)) crowds.old.items }
    requires set_in { set < length terms.now }
    ensures { IfOk result (λ p. IsPlaced terms.now crowds.old.items crowds.new.items p (tree terms.now set)) }
{
    match place_of(terms, crowds, set) {
        Some(place) => Ok(place),
        None => {
            let count = crowds.len();
            crowds.push(crowd_over(alloc, set))?;
            Ok(count)
        }
    }
}

/// Puts a candidate into the crowd at a place.
fn put_candidate(
    crowds: &mut Vec<Crowd>,
    place: usize,
    term: u64,
    is_value: bool,
) -> Result<(), AllocError>
    requires { place < length crowds.old.items }
    ensures { OnOk result (crowds.new.items ≡ slice_set crowds.old.items place (with_candidate is_value (get_or
        crowds.old.items place no_crowd) term)) }
{
    crowds[place].put(term, is_value)?;
    Ok(())
}

/// Puts a set, of which its candidates are candidates too, into the crowd at a place.
fn put_target(crowds: &mut Vec<Crowd>, place: usize, target: u64) -> Result<(), AllocError>
    requires { place < length crowds.old.items }
    ensures { OnOk result (crowds.new.items ≡ slice_set crowds.old.items place (with_target (get_or crowds.old.items
        place no_crowd) target)) }
{
    crowds[place].targets.push(target)?;
    Ok(())
}

/// Puts a term into the crowd of a set, of which it is a candidate.
pub fn join_candidate(
    alloc: Global,
    terms: &Terms,
    crowds: &mut Vec<Crowd>,
    set: u64,
    term: u64,
) -> Result<(), AllocError>
    requires crowds_in { AllByRecursion (IsCrowdWithin (length terms.now)) crowds.old.items }
    requires set_in { set < length terms.now }
    requires term_in { term < length terms.now }
    ensures { OnOk result (JoinsCandidate terms.now crowds.old.items crowds.new.items (tree terms.now term)
        (tree terms.now set)) }
{
    let value = is_value(terms, term);
    let place = crowd_at(alloc, terms, crowds, set)?;
    put_candidate(crowds, place, term, value)
}

/// Puts a set into the crowd of another, whose candidates are its candidates too.
pub fn join_target(
    alloc: Global,
    terms: &Terms,
    crowds: &mut Vec<Crowd>,
    set: u64,
    target: u64,
) -> Result<(), AllocError>
    requires crowds_in { AllByRecursion (IsCrowdWithin (length terms.now)) crowds.old.items }
    requires set_in { set < length terms.now }
    requires target_in { target < length terms.now }
    ensures { OnOk result (JoinsTarget terms.now crowds.old.items crowds.new.items (tree terms.now set)
        (tree terms.now target)) }
{
    let place = crowd_at(alloc, terms, crowds, set)?;
    put_target(crowds, place, target)
}
