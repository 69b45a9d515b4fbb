//! Lists of places, without an order.
ghost use Rattle.std.specs.Prelude.{◌≡◌, ◌<◌, ◌++◌, [], ◌∷◌, length, slice_get, IfOk};
ghost use Rattle.std.specs.List.{swap_remove};

use std::alloc::{AllocError, Global};
use std::marker::Model;

/// Places of clauses, in no order.
#[derive(Drop)]
pub struct Places {
    items: Vec<usize>,
}

impl Model for Places {
    ghost use Rattle.std.specs.Prelude.{List, ℕ};

    ghost Value = { List ℕ };

    ghost view = { λ s. s.items.items };
}

impl Places {
    /// The empty list.
    pub fn new(alloc: Global) -> Places
        ensures { result ≡ [] }
    {
        Places {
            items: Vec::new(alloc),
        }
    }

    /// The places.
    pub fn as_slice(&self) -> &[usize]
        ensures { result.now ≡ self.now }
    {
        self.items.as_slice()
    }

    /// The element at a place of the list, counted from 0.
    pub fn at(&self, at: usize) -> Option<usize>
        ensures { result ≡ slice_get self.now at }
    {
        match self.items.get(at) {
            Some(place) => Some(*place),
            None => None,
        }
    }

    /// Appends a place.
    pub fn push(&mut self, place: usize) -> Result<(), AllocError>
        ensures { IfOk result (λ _. self.new ≡ self.old ++ place ∷ []) }
    {
        self.items.push(place)?;
        Ok(())
    }

    /// Takes the element at a place out, and moves the last one there.
    pub fn remove(&mut self, at: usize)
        requires { at < length self.old }
        ensures { self.new ≡ swap_remove self.old at 0 }
    {
        let end = self.items.len() - 1;
        let last = self.items[end];
        self.items[at] = last;
        self.items.truncate(end);
    }
}
