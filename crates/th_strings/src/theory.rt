//! The theory of strings, as the search and the checker use it.
ghost use Rattle.std.specs.Prelude.{◌≡◌, ◌↔◌, IfOk, IfSome, IfNone, IsTrue};
ghost use Rattle.th_strings_instances.specs.Patterns.{patterns as patterns_in};
ghost use Rattle.th_strings.specs.Violated.{IsViolated, NoneViolated};

use crate::crowds::broken_crowd;
use crate::matches::broken_match;
use crate::texts::text_numbers;
use sc_clauses::{Assignment, Clause, Instance};
use sc_footprint::{Problem, Theory};
use sc_pattern::Pattern;
use std::alloc::{AllocError, Global};
use th_strings_instances::{StringRule, accepted, clause_of, patterns, write_string};

/// The rules ST1 to ST3 on strings. An instance gives the numbers of its closed terms, and the place of a pattern or
/// a sign for each. A problem without patterns has no instance.
#[derive(Drop)]
pub struct Strings;

/// An instance over these patterns that the assignment falsifies, or none exactly where there is none.
fn broken_rule(
    alloc: Global,
    problem: &Problem<'_>,
    m: &Assignment,
    patterns: &[Pattern],
) -> Result<Option<StringRule>, AllocError>
    ensures found { IfOk result (λ o. IfSome o (IsViolated problem.now m.now patterns.now)) }
    ensures none { IfOk result (λ o. IfNone o (NoneViolated problem.now m.now patterns.now)) }
{
    if patterns.is_empty() {
        return Ok(None);
    }
    let texts = text_numbers(alloc, problem)?;
    let numbers = texts.as_slice();
    match broken_match(alloc, problem, m, patterns, numbers)? {
        Some(rule) => Ok(Some(rule)),
        None => broken_crowd(alloc, problem, m, patterns, numbers),
    }
}

/// An instance that the assignment falsifies, as its rule, or none exactly where there is none.
fn violated_rule(
    alloc: Global,
    problem: &Problem<'_>,
    m: &Assignment,
) -> Result<Option<StringRule>, AllocError>
    ensures found { IfOk result (λ o. IfSome o (IsViolated problem.now m.now (patterns_in problem.now))) }
    ensures none { IfOk result (λ o. IfNone o (NoneViolated problem.now m.now (patterns_in problem.now))) }
{
    let patterns = patterns(alloc, problem)?;
    broken_rule(alloc, problem, m, patterns.as_slice())
}

impl Theory for Strings {
    ghost use Rattle.th_strings_instances.specs.Instances.{HasString, string_clause};
    ghost use Rattle.th_strings_instances.proofs.InstanceLaws.{string_sound, string_lawful, string_written};

    ghost has_instance = { λ t. HasString };

    ghost clause_of = { λ t. string_clause };

    fn accepts(
        &self,
        alloc: Global,
        problem: &Problem<'_>,
        instance: &Instance,
    ) -> Result<bool, AllocError> {
        accepted(alloc, problem, instance)
    }

    fn violated(
        &self,
        alloc: Global,
        problem: &Problem<'_>,
        m: &Assignment,
    ) -> Result<Option<Instance>, AllocError> {
        match violated_rule(alloc, problem, m)? {
            Some(rule) => Ok(Some(write_string(alloc, &rule)?)),
            None => Ok(None),
        }
    }

    fn clause(
        &self,
        alloc: Global,
        problem: &Problem<'_>,
        instance: &Instance,
    ) -> Result<Clause, AllocError> {
        clause_of(alloc, problem, instance)
    }

    ghost sound = { λ t. string_sound };

    ghost lawful = { λ t. string_lawful };

    ghost written = { λ t. string_written };
}
