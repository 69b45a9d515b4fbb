//! A list of clauses for each literal, so that a literal which becomes true leads to the clauses that watch its
//! negation.
ghost use Rattle.std.specs.Prelude.{◌≡◌, ◌<◌, ◌++◌, [], ◌∷◌, Bool, length, replicate, slice_get, slice_set, slice_index_or, IfOk};
ghost use Rattle.std.specs.List.{swap_remove};
ghost use Rattle.sc_propagation.specs.Lists.{AreEmpty, IsListSet, lists_of, places_of};

use crate::places::Places;
use sc_clauses::Lit;
use std::alloc::{AllocError, Global};

/// The places of clauses, for each literal.
#[derive(Drop)]
pub struct Lists {
    /// The lists of the atoms, by their numbers.
    pub atoms: Vec<Places>,
    /// The lists of the atoms' negations, by the atoms' numbers.
    pub negations: Vec<Places>,
}

/// This many empty lists.
fn empty_lists(alloc: Global, count: usize) -> Result<Vec<Places>, AllocError>
    ensures { IfOk result (λ v. v.items ≡ replicate count []) }
{
    let mut lists = Vec::new(alloc);
    for _atom in 0..count {
        lists.push(Places::new(alloc))?;
    }
    Ok(lists)
}

/// Appends a place to one of the lists.
fn list_at(lists: &mut Vec<Places>, atom: usize, place: usize) -> Result<(), AllocError>
    requires { atom < length lists.old.items }
    ensures { IfOk result (λ _. lists.new.items
        ≡ slice_set lists.old.items atom (slice_index_or lists.old.items atom [] ++ place ∷ [])) }
{
    lists[atom].push(place)?;
    Ok(())
}

/// Takes the element at a place out of one of the lists.
fn unlist_at(lists: &mut Vec<Places>, atom: usize, at: usize)
    requires atom { atom < length lists.old.items }
    requires at { at < length (slice_index_or lists.old.items atom []) }
    ensures { lists.new.items
        ≡ slice_set lists.old.items atom (swap_remove (slice_index_or lists.old.items atom []) at 0) }
{
    lists[atom].remove(at);
}

impl Lists {
    /// An empty list for each literal of this many atoms, atom 0 included.
    pub fn new(alloc: Global, cells: usize) -> Result<Lists, AllocError>
        ensures { IfOk result (λ o. AreEmpty cells o) }
    {
        Ok(Lists {
            atoms: empty_lists(alloc, cells)?,
            negations: empty_lists(alloc, cells)?,
        })
    }

    /// The list of a literal.
    pub fn places_of(&self, lit: Lit) -> &[usize]
        requires { (sign : Bool) → lit.atom < length (lists_of self.now sign) }
        ensures { result.now ≡ places_of self.now lit }
    {
        if lit.negated {
            return self.negations[lit.atom as usize].as_slice();
        }
        self.atoms[lit.atom as usize].as_slice()
    }

    /// The element at a place of a literal's list.
    pub fn place_at(&self, lit: Lit, at: usize) -> Option<usize>
        requires { (sign : Bool) → lit.atom < length (lists_of self.now sign) }
        ensures { result ≡ slice_get (places_of self.now lit) at }
    {
        if lit.negated {
            return self.negations[lit.atom as usize].at(at);
        }
        self.atoms[lit.atom as usize].at(at)
    }

    /// Appends a place to a literal's list.
    pub fn list(&mut self, lit: Lit, place: usize) -> Result<(), AllocError>
        requires { (sign : Bool) → lit.atom < length (lists_of self.old sign) }
        ensures { IfOk result (λ _. IsListSet lit (places_of self.old lit ++ place ∷ []) self.old self.new) }
    {
        if lit.negated {
            return list_at(&mut self.negations, lit.atom as usize, place);
        }
        list_at(&mut self.atoms, lit.atom as usize, place)
    }

    /// Takes the element at a place out of a literal's list.
    pub fn unlist(&mut self, lit: Lit, at: usize)
        requires atom { (sign : Bool) → lit.atom < length (lists_of self.old sign) }
        requires at { at < length (places_of self.old lit) }
        ensures { IsListSet lit (swap_remove (places_of self.old lit) at 0) self.old self.new }
    {
        if lit.negated {
            unlist_at(&mut self.negations, lit.atom as usize, at);
            return;
        }
        unlist_at(&mut self.atoms, lit.atom as usize, at);
    }
}
