//! The theory.
ghost use Rattle.std.specs.Prelude.{◌≡◌, ◌↔◌, true, IfOk, IfSome, IfNone, IsOk, IsTrue};
ghost use Rattle.sc_rule_instances.specs.Instances.{HasEntity, entity_said};
ghost use Rattle.sc_rule_instances.specs.Known.{is_falsified, NoneFalsified};

use crate::finding::falsified_rule;
use crate::memberships::true_memberships;
use crate::places::all_places;
use sc_clauses::{Assignment, Clause, Instance};
use sc_footprint::{Problem, Theory};
use sc_lists::Seq;
use sc_rule_instances::{EntityRule, clause_of, entity_rule, is_instance, write_entity};
use std::alloc::{AllocError, Global};
use th_entities_instances::Said;

/// The rules of what is stored of entities. An instance is named by the numbers of its closed terms.
#[derive(Drop)]
pub struct Entities;

impl Theory for Entities {
    ghost use Rattle.sc_rule_instances.specs.Instances.{HasEntity, entity_clause};
    ghost use Rattle.sc_rule_instances.proofs.InstanceLaws.{entity_sound, entity_lawful, entity_written};

    ghost has_instance = { λ t. HasEntity };

    ghost clause_of = { λ t. entity_clause };

    fn accepts(
        &self,
        alloc: Global,
        problem: &Problem<'_>,
        instance: &Instance,
    ) -> Result<bool, AllocError>
        ensures decides { IfOk result (λ b. IsTrue b ↔ HasEntity problem.now instance.now) }
        // It takes no memory.
        ensures always { IsOk result }
    {
        let _ = alloc;
        match entity_rule(instance) {
            Some(rule) => {
                let said = Said { problem, rule };
                Ok(is_instance(&said))
            }
            None => Ok(false),
        }
    }

    fn violated(
        &self,
        alloc: Global,
        problem: &Problem<'_>,
        m: &Assignment,
    ) -> Result<Option<Instance>, AllocError> {
        let known = true_memberships(alloc, problem, m)?;
        let places = all_places(alloc, problem)?;
        match falsified_rule(problem, m, known.as_slice(), places.as_slice()) {
            Some(rule) => Ok(Some(write_entity(alloc, rule)?)),
            None => Ok(None),
        }
    }

    fn clause(
        &self,
        alloc: Global,
        problem: &Problem<'_>,
        instance: &Instance,
    ) -> Result<Clause, AllocError> {
        match entity_rule(instance) {
            Some(rule) => {
                let said = Said { problem, rule };
                clause_of(alloc, &said)
            }
            None => Ok(Seq::new(alloc)),
        }
    }

    ghost sound = { λ t. entity_sound };

    ghost lawful = { λ t. entity_lawful };

    ghost written = { λ t. entity_written };
}
