//! Clauses in one array of numbers, one for each literal. A literal takes a quarter of the memory that it takes by
//! itself, and a clause is found by one look.
ghost use Rattle.std.specs.Prelude.{◌≡◌, ◌≤◌, ◌+◌, ◌-◌, ◌++◌, ◌∷◌, [], map, take, drop, slice_get, length, option_map, IfOk, OnOk, IsTrue};
ghost use Rattle.std.specs.Option.{option_copied};
ghost use Rattle.std.specs.Vec.{vec_len, vec_capacity};
ghost use Rattle.sc_refutations.specs.Arenas.{lit_of, begin_at, pieces, are_within};

use crate::growing::make_room;
use crate::known::Known;
use sc_clauses::{Clauses, Lit};
use std::alloc::{AllocError, Global};
use std::marker::Model;

/// A list of clauses. Contracts see the list.
#[derive(Drop)]
pub struct Arena {
    pub(crate) codes: Vec<u32>,
    /// Of each clause the place behind its last literal.
    pub(crate) ends: Vec<usize>,
}

impl Model for Arena {
    ghost use Rattle.std.specs.Prelude.{List, IsTrue, length};
    ghost use Rattle.sc_clauses.specs.Clauses.{Clause};
    ghost use Rattle.sc_refutations.specs.Arenas.{pieces, are_ordered};

    ghost Value = { List Clause };

    ghost view = { λ a. pieces 0 a.codes.items a.ends.items };

    ghost invariant = { λ a. IsTrue (are_ordered 0 a.ends.items (length a.codes.items)) };
}

/// Where the clause at a place begins.
#[inline(always)]
#[tactic(auto, using(crate::proofs::ArenaLaws::begin_first, crate::proofs::ArenaLaws::begin_later))]
fn start_at(ends: &[usize], place: usize) -> usize
    requires { place ≤ length ends.now }
    ensures { result ≡ begin_at 0 ends.now place }
{
    if place == 0 {
        return 0;
    }
    ends[place - 1]
}

/// The numbers from a place on, up to another.
#[inline(always)]
fn part(codes: &[u32], start: usize, end: usize) -> &[u32]
    requires ordered { start ≤ end }
    requires within { end ≤ length codes.now }
    ensures { result.now ≡ take (end - start) (drop start codes.now) }
{
    &codes[start..end]
}

/// The numbers of the clause at a place, counted from 0, where clauses end at these places. None exactly past the last.
#[inline(always)]
pub(crate) fn codes_at<'a>(codes: &'a [u32], ends: &[usize], place: usize) -> Option<&'a [u32]>
    requires { IsTrue (are_within 0 ends.now (length codes.now)) }
    ensures { option_map (map lit_of) (option_copied result) ≡ slice_get (pieces 0 codes.now ends.now) place }
{
    let end = *ends.get(place)?;
    let start = start_at(ends, place);
    Some(part(codes, start, end))
}

/// Puts numbers of literals after others, where there is room for all.
#[inline(always)]
fn write_reserved(codes: &mut Vec<u32>, clause: &[u32])
    requires { vec_len codes.old + length clause.now ≤ vec_capacity codes.old }
    ensures { codes.new.items ≡ codes.old.items ++ clause.now }
{
    for code in clause {
        codes.push_reserved(*code);
    }
}

impl Arena {
    /// No clauses.
    pub fn new(alloc: Global) -> Arena
        ensures { result ≡ [] }
    {
        Arena {
            codes: Vec::new(alloc),
            ends: Vec::new(alloc),
        }
    }

    /// The same clauses, each in its numbers. They are refused as too large where a literal has no number.
    #[tactic(auto, using(crate::proofs::ArenaLaws::taken_more, crate::proofs::ArenaLaws::none_more, crate::proofs::ArenaLaws::all_taken))]
    pub fn of(alloc: Global, known: &Known, clauses: &Clauses) -> Result<Arena, AllocError>
        ensures { IfOk result (λ a. a ≡ clauses.now) }
    {
        let mut arena = Arena::new(alloc);
        for place in 0..clauses.len() {
            if let Some(clause) = clauses.get(place) {
                arena.push_lits(alloc, known, clause)?;
            }
        }
        Ok(arena)
    }

    /// How many clauses there are.
    pub fn len(&self) -> usize
        ensures { result ≡ length self.now }
    {
        self.ends.len()
    }

    /// The numbers of the clause at a place, counted from 0. None exactly past the last.
    #[inline(always)]
    pub fn clause(&self, place: usize) -> Option<&[u32]>
        ensures { option_map (map lit_of) (option_copied result) ≡ slice_get self.now place }
    {
        codes_at(self.codes.as_slice(), self.ends.as_slice(), place)
    }

    /// Puts a clause after the others, by the numbers of its literals.
    #[inline(always)]
    pub fn push(&mut self, clause: &[u32]) -> Result<(), AllocError>
        ensures { OnOk result (self.new ≡ self.old ++ map lit_of clause.now ∷ []) }
    {
        make_room(&mut self.ends, 1)?;
        make_room(&mut self.codes, clause.len())?;
        let end = self.codes.len() + clause.len();
        write_reserved(&mut self.codes, clause);
        self.ends.push_reserved(end);
        Ok(())
    }

    /// Puts a clause after the others. It is refused as too large where a literal has no number.
    pub fn push_lits(
        &mut self,
        alloc: Global,
        known: &Known,
        clause: &[Lit],
    ) -> Result<(), AllocError>
        ensures { OnOk result (self.new ≡ self.old ++ clause.now ∷ []) }
    {
        match known.codes_of(alloc, clause)? {
            Some(codes) => self.push(codes.as_slice()),
            None => Err(AllocError),
        }
    }
}
