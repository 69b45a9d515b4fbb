//! All rules of problems.
ghost use Rattle.std.specs.Prelude.{◌≡◌};

use crate::family::{Family, family_of};
use crate::others::OtherRules;
use sc_clauses::{Assignment, Clause, Instance};
use sc_footprint::{Problem, Theory};
use std::alloc::{AllocError, Global};
use th_defs::Defs;

/// All rules of problems: the defining clauses but the goal's, and the theories.
#[derive(Drop)]
pub struct Rules {
    definitions: Defs,
    others: OtherRules,
}

impl Rules {
    /// All rules.
    pub fn new() -> Rules {
        Rules {
            definitions: Defs,
            others: OtherRules::new(),
        }
    }
}

/// Each instance is handed to the theory that it belongs to.
impl Theory for Rules {
    ghost use Rattle.sc_solver.specs.Theories.{HasRule, rule_clause};
    ghost use Rattle.sc_solver.specs.RuleLaws.{rule_sound, rule_lawful, rule_written};

    ghost has_instance = { λ t. HasRule };

    ghost clause_of = { λ t. rule_clause };

    fn accepts(
        &self,
        alloc: Global,
        problem: &Problem<'_>,
        instance: &Instance,
    ) -> Result<bool, AllocError> {
        match family_of(instance) {
            Family::Definition => self.definitions.accepts(alloc, problem, instance),
            _ => self.others.accepts(alloc, problem, instance),
        }
    }

    fn violated(
        &self,
        alloc: Global,
        problem: &Problem<'_>,
        m: &Assignment,
    ) -> Result<Option<Instance>, AllocError> {
        if let Some(instance) = self.definitions.violated(alloc, problem, m)? {
            return Ok(Some(instance));
        }
        self.others.violated(alloc, problem, m)
    }

    fn clause(
        &self,
        alloc: Global,
        problem: &Problem<'_>,
        instance: &Instance,
    ) -> Result<Clause, AllocError> {
        match family_of(instance) {
            Family::Definition => self.definitions.clause(alloc, problem, instance),
            _ => self.others.clause(alloc, problem, instance),
        }
    }

    ghost sound = { λ t. rule_sound };

    ghost lawful = { λ t. rule_lawful };

    ghost written = { λ t. rule_written };
}
