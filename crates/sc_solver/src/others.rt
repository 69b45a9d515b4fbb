//! The rules besides the defining clauses.
ghost use Rattle.std.specs.Prelude.{◌≡◌};

use crate::family::{Family, family_of};
use sc_clauses::{Assignment, Clause, Instance};
use sc_footprint::{Problem, Theory};
use sc_lists::Seq;
use std::alloc::{AllocError, Global};
use th_entities::Entities;
use th_equal::Equal;
use th_sets::Sets;
use th_strings::Strings;

/// The rules besides the defining clauses: on equations, sets, entities and strings.
#[derive(Drop)]
pub struct OtherRules {
    equal: Equal,
    sets: Sets,
    entities: Entities,
    strings: Strings,
}

impl OtherRules {
    /// All of them.
    pub fn new() -> OtherRules {
        OtherRules {
            equal: Equal,
            sets: Sets,
            entities: Entities,
            strings: Strings,
        }
    }
}

/// Each instance is handed to the theory that it belongs to.
impl Theory for OtherRules {
    ghost use Rattle.sc_solver.specs.Theories.{HasOtherRule, rule_clause};
    ghost use Rattle.sc_solver.specs.OtherLaws.{other_sound, other_lawful, other_written};

    ghost has_instance = { λ t. HasOtherRule };

    ghost clause_of = { λ t. rule_clause };

    fn accepts(
        &self,
        alloc: Global,
        problem: &Problem<'_>,
        instance: &Instance,
    ) -> Result<bool, AllocError> {
        match family_of(instance) {
            Family::Equal => self.equal.accepts(alloc, problem, instance),
            Family::Set => self.sets.accepts(alloc, problem, instance),
            Family::Entity => self.entities.accepts(alloc, problem, instance),
            Family::String => self.strings.accepts(alloc, problem, instance),
            Family::Definition => Ok(false),
            Family::Other => Ok(false),
        }
    }

    fn violated(
        &self,
        alloc: Global,
        problem: &Problem<'_>,
        m: &Assignment,
    ) -> Result<Option<Instance>, AllocError> {
        if let Some(instance) = self.equal.violated(alloc, problem, m)? {
            return Ok(Some(instance));
        }
        if let Some(instance) = self.sets.violated(alloc, problem, m)? {
            return Ok(Some(instance));
        }
        if let Some(instance) = self.entities.violated(alloc, problem, m)? {
            return Ok(Some(instance));
        }
        self.strings.violated(alloc, problem, m)
    }

    fn clause(
        &self,
        alloc: Global,
        problem: &Problem<'_>,
        instance: &Instance,
    ) -> Result<Clause, AllocError> {
        match family_of(instance) {
            Family::Equal => self.equal.clause(alloc, problem, instance),
            Family::Set => self.sets.clause(alloc, problem, instance),
            Family::Entity => self.entities.clause(alloc, problem, instance),
            Family::String => self.strings.clause(alloc, problem, instance),
            Family::Definition => Ok(Seq::new(alloc)),
            Family::Other => Ok(Seq::new(alloc)),
        }
    }

    ghost sound = { λ t. other_sound };

    ghost lawful = { λ t. other_lawful };

    ghost written = { λ t. other_written };
}
