//! The theory.
ghost use Rattle.std.specs.Prelude.{◌≡◌, ◌↔◌, true, IfOk, IfSome, IfNone, IsOk, IsTrue};
ghost use Rattle.sc_rule_instances.specs.Instances.{HasEqual, equal_said};
ghost use Rattle.sc_rule_instances.specs.Known.{is_falsified, NoneFalsified};

use crate::chains::broken_chain;
use crate::finding::falsified_row;
use crate::said::Said;
use sc_clauses::{Assignment, Clause, Instance};
use sc_footprint::{Problem, Theory};
use sc_lists::Seq;
use sc_rule_instances::{EqualRule, clause_of, equal_rule, is_instance, write_equal};
use std::alloc::{AllocError, Global};

/// The rules of equations. An instance is named by the numbers of its closed terms.
#[derive(Drop)]
pub struct Equal;

/// An instance that an assignment falsifies, by its rule.
fn violated_rule(
    alloc: Global,
    problem: &Problem<'_>,
    m: &Assignment,
) -> Result<Option<EqualRule>, AllocError>
    ensures found { IfOk result (λ o. IfSome o (λ rule. is_falsified problem.now m.now (equal_said problem.now rule)
        ≡ true)) }
    ensures none { IfOk result (λ o. IfNone o (NoneFalsified equal_said problem.now m.now)) }
{
    problem.laws();
    match broken_chain(alloc, problem, m)? {
        Some(rule) => Ok(Some(rule)),
        None => Ok(falsified_row(problem, m)),
    }
}

impl Theory for Equal {
    ghost use Rattle.sc_rule_instances.specs.Instances.{HasEqual, equal_clause};
    ghost use Rattle.sc_rule_instances.proofs.InstanceLaws.{equal_sound, equal_lawful, equal_written};

    ghost has_instance = { λ t. HasEqual };

    ghost clause_of = { λ t. equal_clause };

    fn accepts(
        &self,
        alloc: Global,
        problem: &Problem<'_>,
        instance: &Instance,
    ) -> Result<bool, AllocError>
        ensures decides { IfOk result (λ b. IsTrue b ↔ HasEqual problem.now instance.now) }
        // It takes no memory.
        ensures always { IsOk result }
    {
        let _ = alloc;
        let Some(rule) = equal_rule(instance) else {
            return Ok(false);
        };
        let said = Said { problem, rule };
        Ok(is_instance(&said))
    }

    fn violated(
        &self,
        alloc: Global,
        problem: &Problem<'_>,
        m: &Assignment,
    ) -> Result<Option<Instance>, AllocError> {
        match violated_rule(alloc, problem, m)? {
            Some(rule) => Ok(Some(write_equal(alloc, rule)?)),
            None => Ok(None),
        }
    }

    fn clause(
        &self,
        alloc: Global,
        problem: &Problem<'_>,
        instance: &Instance,
    ) -> Result<Clause, AllocError> {
        let Some(rule) = equal_rule(instance) else {
            return Ok(Seq::new(alloc));
        };
        let said = Said { problem, rule };
        clause_of(alloc, &said)
    }

    ghost sound = { λ t. equal_sound };

    ghost lawful = { λ t. equal_lawful };

    ghost written = { λ t. equal_written };
}
