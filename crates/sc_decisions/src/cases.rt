//! Which case to try where a long disjunction is true.

use crate::definitions::Definitions;
use crate::disjunctions::{Disjunctions, Span};
use crate::heap::Heap;
use sc_clauses::Lit;
use std::alloc::{AllocError, Global};

/// How many disjunctions are looked at for one decision, the first ones that are true.
const MOST_LOOKS: usize = 64;

/// A disjunction that is true.
#[derive(Clone, Copy)]
struct Held {
    /// Since which place of the trail it's true.
    place: usize,
    span: Span,
    /// The literal of it that was true when it was looked at last, if there was one.
    witness: Option<Lit>,
}

/// A disjunction that is true, and none of its literals is.
#[derive(Clone, Copy)]
struct Undecided {
    /// How many of its literals are open.
    count: usize,
    /// The most active one of them.
    lit: Lit,
}

/// The long disjunctions that are true. The one with the fewest open literals decides, and its most active one is
/// tried as true: so cases are told apart where there are the fewest, as which pigeon sits in which hole.
#[derive(Drop)]
pub(crate) struct Cases {
    disjunctions: Disjunctions,
    /// The value of each atom, as far as the trail was followed; none at all if there is no disjunction.
    values: Vec<Option<bool>>,
    /// How far the trail was followed.
    followed: usize,
    /// Whether each of those that are true was seen to have a true literal, where the trail was followed so far.
    settled: bool,
    /// Those that are true, in the order in which they became so, and room for the others.
    held: Vec<Option<Held>>,
    count: usize,
}

/// What is open, with one literal more.
fn with(heap: &Heap, found: Option<Undecided>, lit: Lit) -> Undecided {
    let Some(found) = found else {
        return Undecided { count: 1, lit };
    };
    let count = found.count.saturating_add(1);
    if heap.activity(lit.atom as usize) > heap.activity(found.lit.atom as usize) {
        return Undecided { count, lit };
    }
    Undecided {
        count,
        lit: found.lit,
    }
}

/// The one of two with fewer open literals, and else the first.
fn fewer(best: Option<Undecided>, found: Undecided) -> Undecided {
    match best {
        Some(best) if best.count <= found.count => best,
        _ => found,
    }
}

impl Cases {
    /// Those of the disjunctions that definitions of atoms below `cells` tell, none of which is true.
    pub fn new(
        alloc: Global,
        cells: usize,
        definitions: &Definitions,
    ) -> Result<Cases, AllocError> {
        let disjunctions = Disjunctions::new(alloc, cells, definitions)?;
        let count = disjunctions.len();
        let valued = if count > 0 { cells } else { 0 };
        Ok(Cases {
            disjunctions,
            values: Vec::from_elem(alloc, None, valued)?,
            followed: 0,
            settled: false,
            held: Vec::from_elem(alloc, None, count)?,
            count: 0,
        })
    }

    fn set_value(&mut self, atom: usize, value: Option<bool>) {
        if let Some(slot) = self.values.get_mut(atom) {
            *slot = value;
        }
    }

    /// Whether a literal is true, if its atom has a value.
    fn truth(&self, lit: Lit) -> Option<bool> {
        match self.values.get(lit.atom as usize) {
            Some(Some(value)) => Some(*value != lit.negated),
            _ => None,
        }
    }

    /// Keeps the disjunction that a literal is which is true from a place of the trail on.
    fn hold(&mut self, lit: Lit, place: usize) {
        let Some(span) = self.disjunctions.span(lit) else {
            return;
        };
        if let Some(slot) = self.held.get_mut(self.count) {
            *slot = Some(Held {
                place,
                span,
                witness: None,
            });
            self.count = self.count.saturating_add(1);
        }
    }

    /// Follows the trail to its end.
    fn follow(&mut self, lits: &[Lit]) {
        for place in self.followed..lits.len() {
            let lit = lits[place];
            self.set_value(lit.atom as usize, Some(!lit.negated));
            self.hold(lit, place);
        }
        self.followed = lits.len();
    }

    /// The one at a place of those that are true.
    fn held(&self, at: usize) -> Option<Held> {
        match self.held.get(at) {
            Some(held) => *held,
            None => None,
        }
    }

    /// Whether a literal was seen to be true, and still is.
    fn is_witnessed(&self, held: Held) -> bool {
        match held.witness {
            Some(witness) => self.truth(witness) == Some(true),
            None => false,
        }
    }

    /// A literal of a disjunction that is true, or else what is open.
    fn look(&self, heap: &Heap, span: Span) -> Result<Lit, Option<Undecided>> {
        let mut found: Option<Undecided> = None;
        for place in span.start..span.end {
            let Some(lit) = self.disjunctions.lit(place) else {
                break;
            };
            match self.truth(lit) {
                Some(true) => return Ok(lit),
                Some(false) => {}
                None => found = Some(with(heap, found, lit)),
            }
        }
        Err(found)
    }

    /// What is open of one of those that are true, unless a literal of it is true.
    fn undecided(&mut self, heap: &Heap, at: usize) -> Option<Undecided> {
        let held = self.held(at)?;
        if self.is_witnessed(held) {
            return None;
        }
        match self.look(heap, held.span) {
            Err(found) => found,
            Ok(witness) => {
                if let Some(slot) = self.held.get_mut(at) {
                    *slot = Some(Held {
                        witness: Some(witness),
                        ..held
                    });
                }
                None
            }
        }
    }

    /// What is open of the one with the fewest open literals.
    fn fewest(&mut self, heap: &Heap) -> Option<Undecided> {
        let mut best: Option<Undecided> = None;
        for at in 0..self.count.min(MOST_LOOKS) {
            if let Some(found) = self.undecided(heap, at) {
                best = Some(fewer(best, found));
            }
        }
        best
    }

    /// The literal to try where these literals are true.
    pub fn next(&mut self, heap: &Heap, lits: &[Lit]) -> Option<Lit> {
        if self.values.is_empty() {
            return None;
        }
        if self.settled && self.followed == lits.len() {
            return None;
        }
        self.follow(lits);
        let found = self.fewest(heap);
        self.settled = found.is_none();
        match found {
            Some(found) => Some(found.lit),
            None => None,
        }
    }

    /// Whether the last one that is true became so at a place or after it.
    fn is_last_after(&self, place: usize) -> bool {
        if self.count == 0 {
            return false;
        }
        match self.held(self.count - 1) {
            Some(held) => held.place >= place,
            None => false,
        }
    }

    /// Comes back to where so many literals were true.
    pub fn come_back(&mut self, count: usize) {
        if count < self.followed {
            self.followed = count;
            self.settled = false;
        }
        for _held in 0..self.held.len() {
            if !self.is_last_after(count) {
                break;
            }
            self.count = self.count.saturating_sub(1);
        }
    }

    /// Lets go of an atom's value.
    pub fn put_back(&mut self, atom: usize) {
        self.set_value(atom, None);
    }
}
