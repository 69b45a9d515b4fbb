//! Lists of clauses, whose literals lie in one array.
ghost use Rattle.std.specs.Prelude.{◌≡◌, ◌++◌, [], ◌∷◌, length, slice_get, OnErr, OnOk};
ghost use Rattle.std.specs.Option.{option_copied};
ghost use Rattle.sc_clauses.specs.Arrays.{start_at};

use crate::lit::Lit;
use std::alloc::{AllocError, Global};
use std::marker::Model;

/// A list of clauses. Contracts see the list.
#[derive(Debug, Drop)]
pub struct Clauses {
    literals: Vec<Lit>,
    /// Of each clause the place after its last literal.
    ends: Vec<u64>,
}

impl Model for Clauses {
    ghost use Rattle.std.specs.Prelude.{List};
    ghost use Rattle.sc_clauses.specs.Clauses.{Clause};
    ghost use Rattle.sc_clauses.specs.Arrays.{cut, AreEnds};

    ghost Value = { List Clause };

    ghost view = { λ c. cut c.literals.items 0 c.ends.items };

    ghost invariant = { λ c. AreEnds c.literals.items 0 c.ends.items };
}

impl Clauses {
    /// No clauses.
    pub fn new(alloc: Global) -> Clauses
        ensures { result ≡ [] }
    {
        Clauses {
            literals: Vec::new(alloc),
            ends: Vec::new(alloc),
        }
    }

    /// How many clauses there are.
    pub fn len(&self) -> usize
        ensures { result ≡ length self.now }
    {
        self.ends.len()
    }

    /// The clause at a place, counted from 0. None exactly past the end.
    #[inline(always)]
    pub fn get(&self, place: usize) -> Option<&[Lit]>
        ensures { option_copied result ≡ slice_get self.now place }
    {
        let until = *self.ends.get(place)? as usize;
        let from = start(self.ends.as_slice(), place);
        self.literals.get(from..until)
    }

    /// Puts a clause after the others.
    #[inline(always)]
    pub fn push(&mut self, clause: &[Lit]) -> Result<(), AllocError>
        ensures ok { OnOk result (self.new ≡ self.old ++ clause.now ∷ []) }
        ensures err { OnErr result (self.new ≡ self.old) }
    {
        let from = start(self.ends.as_slice(), self.ends.len());
        self.literals.truncate(from);
        self.literals.extend_from_slice(clause)?;
        self.ends.push(self.literals.len() as u64)?;
        Ok(())
    }
}

/// Where a clause begins, also the next one: where the one before it ends.
#[inline(always)]
fn start(ends: &[u64], place: usize) -> usize
    ensures { result ≡ start_at ends.now place }
{
    if place == 0 {
        return 0;
    }
    match ends.get(place - 1) {
        Some(end) => *end as usize,
        None => 0,
    }
}
