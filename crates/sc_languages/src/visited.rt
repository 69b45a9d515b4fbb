//! The queue of the search: each set of active items that was met, once, with a text that leads to it.
ghost use Rattle.std.specs.Prelude.{◌≡◌, [], ◌<◌, ◌^◌, slice_get, length, IsTrue, OnOk};
ghost use Rattle.std.specs.Option.{option_map};
ghost use Rattle.sc_lists.specs.Members.{Has};
ghost use Rattle.sc_languages.specs.Searching.{places_of, IsPut};

use indexmap::IndexMap;
use std::alloc::{AllocError, Global};
use std::marker::Model;

/// Sets of active items in the order in which they were met, each with a text that leads to it.
#[derive(Drop)]
pub(crate) struct Visited {
    entries: IndexMap<Vec<bool>, Vec<char>>,
}

impl Model for Visited {
    ghost use Rattle.std.specs.Prelude.{ℕ, List, Bool, map};

    ghost Value = { List (List Bool × List ℕ) };

    ghost view = { λ s. map (λ e. (e.0.items, e.1.items)) s.entries.entries };
}

impl Visited {
    /// An empty queue.
    pub(crate) fn new(alloc: Global) -> Visited
        ensures { result ≡ [] }
    {
        Visited {
            entries: IndexMap::new(alloc),
        }
    }

    /// The number of entries, less than 2^63.
    pub(crate) fn len(&self) -> usize
        ensures len { result ≡ length self.now }
        ensures small { result < 2 ^ 63 }
    {
        self.entries.len()
    }

    /// Whether this set of active items was met.
    pub(crate) fn has(&self, marks: &[bool]) -> bool
        ensures { IsTrue result → Has (places_of self.now) marks.now }
    {
        self.entries.contains_key(marks)
    }

    /// The entry at a place, counted from 0.
    pub(crate) fn get(&self, at: usize) -> Option<(&[bool], &[char])>
        ensures { option_map (λ p. (p.0.now, p.1.now)) result ≡ slice_get self.now at }
    {
        match self.entries.get_index(at) {
            Some((marks, word)) => Some((marks.as_slice(), word.as_slice())),
            None => None,
        }
    }

    /// Appends a set of active items, if it wasn't met.
    pub(crate) fn put(&mut self, marks: Vec<bool>, word: Vec<char>) -> Result<(), AllocError>
        ensures { OnOk result (IsPut self.old self.new marks.items word.items) }
    {
        if self.entries.contains_key(marks.as_slice()) {
            return Ok(());
        }
        self.entries.insert(marks, word)?;
        Ok(())
    }
}
