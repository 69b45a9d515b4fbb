//! Lists of places, one for each place.
ghost use Rattle.std.specs.Prelude.{◌≡◌, ◌<◌, ◌++◌, ◌∷◌, [], Bool, false, true, length, replicate, slice_set, get_or, slice_index_or, IfOk, OnOk, MatchOption};
ghost use Rattle.std.specs.List.{AllByRecursion};
ghost use Rattle.sc_lists.specs.Members.{Has};
ghost use Rattle.sc_turns.specs.Turning.{is_told, AreAll};

use sc_lists::Seq;
use std::alloc::{AllocError, Global};
use std::mem::replace;

pub(crate) fn empty_lists(alloc: Global, count: usize) -> Result<Vec<Seq<u64>>, AllocError>
    ensures { IfOk result (λ v. v.items ≡ replicate count []) }
{
    let mut lists = Vec::new(alloc);
    for _place in 0..count {
        lists.push(Seq::new(alloc))?;
    }
    Ok(lists)
}

pub(crate) fn no_marks(alloc: Global, count: usize) -> Result<Vec<bool>, AllocError>
    ensures { IfOk result (λ v. v.items ≡ replicate count false) }
{
    let mut marks = Vec::new(alloc);
    for _place in 0..count {
        marks.push(false)?;
    }
    Ok(marks)
}

/// Puts a place at the end of one of the lists.
pub(crate) fn list_at(lists: &mut Vec<Seq<u64>>, at: usize, place: u64) -> Result<(), AllocError>
    requires { at < length lists.old.items }
    ensures { OnOk result (lists.new.items
        ≡ slice_set lists.old.items at (slice_index_or lists.old.items at [] ++ place ∷ [])) }
{
    lists[at].push(place)?;
    Ok(())
}

/// Takes one of the lists out.
pub(crate) fn take_list(alloc: Global, lists: &mut Vec<Seq<u64>>, at: usize) -> Seq<u64>
    requires { at < length lists.old.items }
    ensures taken { result ≡ slice_index_or lists.old.items at [] }
    ensures rest { lists.new.items ≡ slice_set lists.old.items at [] }
{
    replace(&mut lists[at], Seq::new(alloc))
}

fn is_marked(marks: &[bool], at: u64) -> bool
    ensures { result ≡ is_told marks.now at }
{
    match marks.get(at as usize) {
        Some(mark) => *mark,
        None => false,
    }
}

/// The first of these places that isn't marked.
pub(crate) fn first_unmarked(marks: &[bool], places: &[u64]) -> Option<u64>
    ensures { MatchOption result (AllByRecursion (λ p. is_told marks.now p ≡ true) places.now) (λ q.
        Has places.now q × (is_told marks.now q ≡ false)) }
{
    let mut rest = places;
    while let Some((place, later)) = rest.split_first() {
        if !is_marked(marks, *place) {
            return Some(*place);
        }
        rest = later;
    }
    None
}

/// So many places from 0 on.
pub(crate) fn all_places(alloc: Global, count: usize) -> Result<Vec<u64>, AllocError>
    ensures { IfOk result (λ v. AreAll count v.items) }
{
    let mut places = Vec::new(alloc);
    for place in 0..count as u64 {
        places.push(place)?;
    }
    Ok(places)
}
