//! Assignments of truth values to atoms.
ghost use Rattle.std.specs.Prelude.{◌≡◌};
ghost use Rattle.sc_clauses.specs.Assignments.{value_of, is_false, falsifies};

use crate::clause::Clause;
use crate::lit::{Atom, Lit};
use sc_lists::Seq;
use std::marker::Model;

/// A finite map from atoms to truth values. Contracts see the list of the values of the atoms from
/// 1 on.
#[derive(Debug, Drop)]
pub struct Assignment {
    values: Seq<Option<bool>>,
}

impl Model for Assignment {
    ghost use Rattle.std.specs.Prelude.{Bool, List, Option};

    ghost Value = { List (Option Bool) };

    ghost view = { λ m. m.values };
}

impl Assignment {
    /// The assignment with these values of the atoms from 1 on.
    pub fn from_values(values: Seq<Option<bool>>) -> Assignment
        ensures { result ≡ values }
    {
        Assignment { values }
    }

    /// The truth value of an atom, where it has one.
    pub fn value(&self, atom: Atom) -> Option<bool>
        ensures { result ≡ value_of self.now atom }
    {
        if atom == 0 {
            return None;
        }
        match self.values.get((atom - 1) as usize) {
            Some(value) => *value,
            None => None,
        }
    }
}

/// Whether an assignment makes a literal false.
pub fn is_false(m: &Assignment, lit: Lit) -> bool
    ensures { result ≡ is_false m.now lit }
{
    match m.value(lit.atom) {
        Some(value) => value == lit.negated,
        None => false,
    }
}

/// Whether an assignment makes every literal of a clause false.
pub fn falsifies(m: &Assignment, c: &Clause) -> bool
    ensures { result ≡ falsifies m.now c.now }
{
    c.as_slice().iter().all(|lit| is_false(m, *lit))
}
