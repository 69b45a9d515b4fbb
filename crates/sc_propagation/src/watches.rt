//! The watched literals of each clause: while neither of the two is false, or a literal of the clause is true, the
//! clause implies nothing.
ghost use Rattle.std.specs.Prelude.{◌≡◌, ◌↔◌, ◌<◌, Bool, length, replicate, slice_index_or, slice_set, None, Some, IfOk, IsTrue};
ghost use Rattle.sc_clauses.specs.declared.lit.Lit.{Lit};
ghost use Rattle.sc_propagation.specs.Lists.{lists_of, places_of};
ghost use Rattle.sc_propagation.specs.Watches.{AreUnset, IsAdded, IsListedToo, IsPlaceAt, IsRewatched, IsSifted, IsWatched, watch_of};

use crate::lists::Lists;
use sc_clauses::Lit;
use std::alloc::{AllocError, Global};

/// Two literals of a clause.
#[derive(Clone, Copy)]
pub struct Watch {
    pub first: Lit,
    pub second: Lit,
}

/// The watched literals of all clauses, and the clauses by them.
#[derive(Drop)]
pub struct Watches {
    /// The two watched literals of each clause, by its place; none of a clause that wasn't visited, or has one
    /// literal only.
    pub pairs: Vec<Option<Watch>>,
    /// For each literal the clauses that watch it, and some that did.
    pub lists: Lists,
}

/// Whether a literal is one of the two.
fn is_of(watch: Watch, lit: Lit) -> bool
    ensures { IsTrue result ↔ IsWatched (Some watch) lit }
{
    if lit == watch.first {
        return true;
    }
    lit == watch.second
}

/// This many clauses that watch nothing.
fn no_pairs(alloc: Global, count: usize) -> Result<Vec<Option<Watch>>, AllocError>
    ensures { IfOk result (λ v. v.items ≡ replicate count None) }
{
    let mut pairs = Vec::new(alloc);
    for _clause in 0..count {
        pairs.push(None)?;
    }
    Ok(pairs)
}

/// Sets the watched literals of the clause at a place.
fn set_pair(pairs: &mut Vec<Option<Watch>>, place: usize, watch: Watch)
    requires { place < length pairs.old.items }
    ensures { pairs.new.items ≡ slice_set pairs.old.items place (Some watch) }
{
    pairs[place] = Some(watch);
}

impl Watches {
    /// This many clauses that watch nothing, over this many atoms.
    pub fn new(alloc: Global, cells: usize, count: usize) -> Result<Watches, AllocError>
        ensures { IfOk result (λ w. AreUnset cells count w) }
    {
        Ok(Watches {
            pairs: no_pairs(alloc, count)?,
            lists: Lists::new(alloc, cells)?,
        })
    }

    /// The watched literals of the clause at a place.
    pub fn pair(&self, place: usize) -> Option<Watch>
        ensures { result ≡ watch_of self.now place }
    {
        match self.pairs.get(place) {
            Some(pair) => *pair,
            None => None,
        }
    }

    /// Whether the clause at a place watches a literal.
    pub fn is_watched(&self, place: usize, lit: Lit) -> bool
        ensures { IsTrue result ↔ IsWatched (watch_of self.now place) lit }
    {
        match self.pair(place) {
            None => false,
            Some(watch) => is_of(watch, lit),
        }
    }

    /// Lists the clause at a place for a literal, unless it watches that literal and so is listed.
    fn list(&mut self, place: usize, lit: Lit) -> Result<(), AllocError>
        requires { (sign : Bool) → lit.atom < length (lists_of self.old.lists sign) }
        ensures pairs { IfOk result (λ _. self.new.pairs ≡ self.old.pairs) }
        ensures lists { IfOk result (λ _. IsListedToo place lit (watch_of self.old place)
            self.old.lists self.new.lists) }
    {
        if self.is_watched(place, lit) {
            return Ok(());
        }
        self.lists.list(lit, place)?;
        Ok(())
    }

    /// Lets the clause at a place watch these two literals.
    pub fn watch(&mut self, place: usize, watch: Watch) -> Result<(), AllocError>
        requires within { place < length self.old.pairs.items }
        requires first { (sign : Bool) → watch.first.atom < length (lists_of self.old.lists sign) }
        requires second { (sign : Bool) → watch.second.atom < length (lists_of self.old.lists sign) }
        ensures { IfOk result (λ _. IsRewatched place watch self.old.pairs.items self.old.lists self.new) }
    {
        self.list(place, watch.first)?;
        self.list(place, watch.second)?;
        set_pair(&mut self.pairs, place, watch);
        Ok(())
    }

    /// Appends a clause that watches these two literals, or nothing.
    pub fn add(&mut self, pair: Option<Watch>) -> Result<(), AllocError>
        requires { (l : Lit) (sign : Bool) → IsWatched pair l → l.atom < length (lists_of self.old.lists sign) }
        ensures { IfOk result (λ _. IsAdded pair self.old self.new) }
    {
        let place = self.pairs.len();
        self.pairs.push(None)?;
        match pair {
            None => Ok(()),
            Some(watch) => self.watch(place, watch),
        }
    }

    /// The element at a place of a literal's list; none behind the list's end.
    pub fn place_at(&self, lit: Lit, at: usize) -> Option<usize>
        requires { (sign : Bool) → lit.atom < length (lists_of self.now.lists sign) }
        ensures { IsPlaceAt (places_of self.now.lists lit) at result }
    {
        self.lists.place_at(lit, at)
    }

    /// Takes a clause, which stands at a place of a literal's list, out of the list if it doesn't watch the literal.
    /// The answer is the place at which to go on in the list.
    pub fn sift(&mut self, lit: Lit, at: usize, place: usize) -> usize
        requires atom { (sign : Bool) → lit.atom < length (lists_of self.old.lists sign) }
        requires at { at < length (places_of self.old.lists lit) }
        requires place { slice_index_or (places_of self.old.lists lit) at 0 ≡ place }
        ensures { IsSifted lit at self.old self.new result }
    {
        // The list's length is a `usize`.
        let _count = self.lists.places_of(lit).len();
        if self.is_watched(place, lit) {
            return at + 1;
        }
        self.lists.unlist(lit, at);
        at
    }
}
