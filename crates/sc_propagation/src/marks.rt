//! Marks by number. Each is the stamp with which it was set, so that all are taken off by going on to the next stamp.
ghost use Rattle.std.specs.Prelude.{◌≡◌, ◌<◌, length, replicate, slice_index_or, slice_set, Bool, false, true, IfOk};

use std::alloc::{AllocError, Global};
use std::marker::Model;

/// The stamp of what was never marked.
const NEVER: u32 = 0;

/// The stamp that is taken first.
const FIRST: u32 = 1;

/// Which of the numbers below a count are marked. Contracts see a list of truth values.
#[derive(Drop)]
pub struct Marks {
    /// For each number the stamp with which it was marked last.
    stamps: Vec<u32>,
    /// The stamp of those that are marked now.
    stamp: u32,
}

impl Model for Marks {
    ghost use Rattle.std.specs.Prelude.{◌≤◌, List, Bool, map};
    ghost use Rattle.std.specs.List.{AllByRecursion};
    ghost use Rattle.sc_propagation.specs.Stamps.{is_marked};

    ghost Value = { List Bool };

    ghost view = { λ m. map (is_marked m.stamp) m.stamps.items };

    ghost invariant = { λ m. AllByRecursion (λ s. s ≤ m.stamp) m.stamps.items };
}

impl Marks {
    /// So many numbers, none of them marked.
    pub fn new(alloc: Global, count: usize) -> Result<Marks, AllocError>
        ensures { IfOk result (λ m. m ≡ replicate count false) }
    {
        Ok(Marks {
            stamps: Vec::from_elem(alloc, NEVER, count)?,
            stamp: FIRST,
        })
    }

    /// Whether a number is marked.
    pub fn is_set(&self, number: usize) -> bool
        requires { number < length self.now }
        ensures { (d : Bool) → result ≡ slice_index_or self.now number d }
    {
        self.stamps[number] == self.stamp
    }

    /// Marks a number.
    pub fn set(&mut self, number: usize)
        requires { number < length self.old }
        ensures { self.new ≡ slice_set self.old number true }
    {
        self.stamps[number] = self.stamp;
    }

    /// Takes off all marks.
    pub fn clear(&mut self)
        ensures { self.new ≡ replicate (length self.old) false }
    {
        match self.stamp.checked_add(1) {
            Some(next) => self.stamp = next,
            None => {
                self.stamps.fill(NEVER);
                self.stamp = FIRST;
            }
        }
    }
}
