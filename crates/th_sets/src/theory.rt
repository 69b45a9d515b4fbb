//! The theory.
ghost use Rattle.std.specs.Prelude.{◌≡◌, ◌↔◌, true, IfOk, IfSome, IfNone, IsOk, IsTrue};
ghost use Rattle.sc_rule_instances.specs.Instances.{HasSet, set_said};
ghost use Rattle.sc_rule_instances.specs.Known.{is_falsified, NoneFalsified};

use crate::finding::falsified_row;
use crate::moves::broken_move;
use crate::said::Said;
use sc_clauses::{Assignment, Clause, Instance};
use sc_footprint::{Problem, Theory};
use sc_lists::Seq;
use sc_rule_instances::{SetRule, clause_of, is_instance, set_rule, write_set};
use std::alloc::{AllocError, Global};

/// The rules of sets. An instance is named by the numbers of its closed terms.
#[derive(Drop)]
pub struct Sets;

/// An instance that an assignment falsifies, by its rule.
fn violated_rule(
    alloc: Global,
    problem: &Problem<'_>,
    m: &Assignment,
) -> Result<Option<SetRule>, AllocError>
    ensures found { IfOk result (λ o. IfSome o (λ rule. is_falsified problem.now m.now (set_said problem.now rule)
        ≡ true)) }
    ensures none { IfOk result (λ o. IfNone o (NoneFalsified set_said problem.now m.now)) }
{
    problem.laws();
    match broken_move(alloc, problem, m)? {
        Some(rule) => Ok(Some(rule)),
        None => falsified_row(alloc, problem, m),
    }
}

impl Theory for Sets {
    ghost use Rattle.sc_rule_instances.specs.Instances.{HasSet, set_clause};
    ghost use Rattle.sc_rule_instances.proofs.InstanceLaws.{set_sound, set_lawful, set_written};

    ghost has_instance = { λ t. HasSet };

    ghost clause_of = { λ t. set_clause };

    fn accepts(
        &self,
        alloc: Global,
        problem: &Problem<'_>,
        instance: &Instance,
    ) -> Result<bool, AllocError>
        ensures decides { IfOk result (λ b. IsTrue b ↔ HasSet problem.now instance.now) }
        // It takes no memory.
        ensures always { IsOk result }
    {
        let _ = alloc;
        match set_rule(instance) {
            Some(rule) => {
                let said = Said { problem, rule };
                Ok(is_instance(&said))
            }
            None => Ok(false),
        }
    }

    fn violated(
        &self,
        alloc: Global,
        problem: &Problem<'_>,
        m: &Assignment,
    ) -> Result<Option<Instance>, AllocError> {
        match violated_rule(alloc, problem, m)? {
            Some(rule) => Ok(Some(write_set(alloc, rule)?)),
            None => Ok(None),
        }
    }

    fn clause(
        &self,
        alloc: Global,
        problem: &Problem<'_>,
        instance: &Instance,
    ) -> Result<Clause, AllocError> {
        match set_rule(instance) {
            Some(rule) => {
                let said = Said { problem, rule };
                clause_of(alloc, &said)
            }
            None => Ok(Seq::new(alloc)),
        }
    }

    ghost sound = { λ t. set_sound };

    ghost lawful = { λ t. set_lawful };

    ghost written = { λ t. set_written };
}
