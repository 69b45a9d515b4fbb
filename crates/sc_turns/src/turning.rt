//! What is kept while things are told in turn.
ghost use Rattle.std.specs.Prelude.{◌≡◌, ◌+◌, ◌<◌, ◌++◌, ℕ, [], ◌∷◌, false, length, IfOk, OnOk, MatchBool};
ghost use Rattle.sc_turns.specs.Turns.{AreThings, InTurn};
ghost use Rattle.sc_turns.specs.Turning.{IsKept, IsTurning, among};

use crate::lists::{all_places, empty_lists, first_unmarked, list_at, no_marks, take_list};
use crate::ready::{put, take_least};
use sc_lists::Seq;
use std::alloc::{AllocError, Global};
use std::collections::BTreeSet;

/// What was told, which of the others may be told, which wait for a part, and which are to be looked
/// at.
#[derive(Drop)]
pub(crate) struct Turning {
    /// The places of each thing's parts.
    pub(crate) parts: Seq<Seq<u64>>,
    /// What was told, in order.
    pub(crate) told: Seq<u64>,
    /// Whether each was told.
    pub(crate) marks: Vec<bool>,
    /// For each thing what waits for it.
    pub(crate) waiting: Vec<Seq<u64>>,
    /// What may be told.
    pub(crate) ready: BTreeSet<u64>,
    /// What is to be looked at.
    pub(crate) ahead: Vec<u64>,
}

impl Turning {
    /// Nothing is told, and all is to be looked at.
    #[tactic(auto, using(crate::proofs::TurningLaws::starts))]
    pub(crate) fn new(alloc: Global, parts: Seq<Seq<u64>>) -> Result<Turning, AllocError>
        requires { AreThings parts }
        ensures kept { IfOk result (λ s. IsKept s) }
        ensures same { IfOk result (λ s. s.parts ≡ parts) }
        ensures none { IfOk result (λ s. s.told ≡ []) }
    {
        let count = parts.len();
        let marks = no_marks(alloc, count)?;
        let waiting = empty_lists(alloc, count)?;
        let ahead = all_places(alloc, count)?;
        Ok(Turning {
            parts,
            told: Seq::new(alloc),
            marks,
            waiting,
            ready: BTreeSet::new(alloc),
            ahead,
        })
    }

    /// Looks whether a thing may be told, and lets it wait for the first part that wasn't told where it
    /// may not.
    fn look_at(&mut self, x: u64) -> Result<(), AllocError>
        requires { IsTurning self.old.parts self.old.told self.old.marks.items self.old.waiting.items
            (among self.old.ready)
            (self.old.ahead.items ++ x ∷ []) }
        ensures kept { OnOk result (IsKept self.new) }
        ensures parts { self.new.parts ≡ self.old.parts }
        ensures told { self.new.told ≡ self.old.told }
        ensures ahead { self.new.ahead.items ≡ self.old.ahead.items }
    {
        let Some(parts) = self.parts.get(x as usize) else {
            return Ok(());
        };
        match first_unmarked(self.marks.as_slice(), parts.as_slice()) {
            None => put(&mut self.ready, x),
            Some(part) => list_at(&mut self.waiting, part as usize, x),
        }
    }

    /// Looks at all that is to be looked at.
    pub(crate) fn look(&mut self) -> Result<(), AllocError>
        requires { IsKept self.old }
        ensures kept { OnOk result (IsKept self.new) }
        ensures none { OnOk result (self.new.ahead.items ≡ []) }
        ensures parts { self.new.parts ≡ self.old.parts }
        ensures told { self.new.told ≡ self.old.told }
    {
        while let Some(x) = self.ahead.pop() {
            self.look_at(x)?;
        }
        Ok(())
    }

    /// Tells the least thing that may be told; no where there is none.
    pub(crate) fn tell(&mut self, alloc: Global) -> Result<bool, AllocError>
        requires kept { IsKept self.old }
        requires none { self.old.ahead.items ≡ [] }
        ensures kept { OnOk result (IsKept self.new) }
        ensures parts { self.new.parts ≡ self.old.parts }
        ensures more { IfOk result (λ b. MatchBool b (length self.new.told ≡ length self.old.told + 1)
            ((p : ℕ) → among self.new.ready p ≡ false)) }
        ensures rest { IfOk result (λ b. MatchBool b (b ≡ b) (self.new.ahead.items ≡ [])) }
    {
        let Some(x) = take_least(&mut self.ready) else {
            return Ok(false);
        };
        self.told.push(x)?;
        self.marks[x as usize] = true;
        self.ahead = take_list(alloc, &mut self.waiting, x as usize).into_vec();
        Ok(true)
    }
}
