//! Which instances of the rules on strings a problem has, and their clauses.
ghost use Rattle.std.specs.Prelude.{◌≡◌, ◌↔◌, ◌&&◌, IfOk, IsTrue};
ghost use Rattle.std.specs.List.{list_all};
ghost use Rattle.sc_footprint.specs.Definitions.{is_tautology as tautology};
ghost use Rattle.sc_rule_instances.specs.Clauses.{is_asked as asked, is_clause as clause_test, said_clause};
ghost use Rattle.th_strings_instances.specs.Instances.{HasString, IsCrowded, IsInstanceOf, said_of, string_clause};

use crate::asking::patterns;
use crate::few::are_few;
use crate::names::string_rule;
use crate::rule::StringRule;
use crate::said::literals_of;
use sc_clauses::{Clause, Instance, Lit, is_in, is_same, negation};
use sc_footprint::Problem;
use sc_lists::Seq;
use sc_pattern::Pattern;
use sc_rule_instances::TRUE;
use std::alloc::{AllocError, Global};

/// Whether a literal is of a listed atom, and isn't `true`.
fn is_asked(literal: Lit) -> bool
    ensures { result ≡ asked literal }
{
    literal.atom != 0 && !is_same(literal, TRUE)
}

/// Whether each literal is so.
fn are_asked(literals: &[Lit]) -> bool
    ensures { result ≡ list_all asked literals.now }
{
    literals.iter().all(|literal| is_asked(*literal))
}

/// Whether some atom stands among literals with its negation.
fn are_opposed(literals: &[Lit]) -> bool
    ensures { result ≡ tautology literals.now }
{
    literals
        .iter()
        .any(|literal| is_in(negation(*literal), literals))
}

/// Whether the literals of what is said are an instance.
fn is_clause(literals: &[Lit]) -> bool
    ensures { result ≡ clause_test literals.now }
{
    let asked = are_asked(literals);
    let opposed = are_opposed(literals);
    asked && !opposed
}

/// Whether fewer texts have a counting rule's signs than it has strings.
fn is_crowded(alloc: Global, patterns: &[Pattern], rule: &StringRule) -> Result<bool, AllocError>
    ensures { IfOk result (λ b. IsTrue b ↔ IsCrowded patterns.now rule.now) }
{
    match rule {
        StringRule::St1(_, _, _) => Ok(true),
        StringRule::St2(signs, strings) => {
            are_few(alloc, patterns, signs.as_slice(), strings.len() as u64)
        }
        StringRule::St3(signs, strings) => {
            are_few(alloc, patterns, signs.as_slice(), strings.len() as u64)
        }
    }
}

/// Whether a rule has this instance. Texts are counted last, since that may take long.
fn is_instance_of(
    alloc: Global,
    problem: &Problem<'_>,
    patterns: &[Pattern],
    rule: &StringRule,
) -> Result<bool, AllocError>
    ensures { IfOk result (λ b. IsTrue b ↔ IsInstanceOf problem.now patterns.now rule.now) }
{
    let Some(literals) = literals_of(alloc, problem, patterns, rule)? else {
        return Ok(false);
    };
    if !is_clause(literals.as_slice()) {
        return Ok(false);
    }
    is_crowded(alloc, patterns, rule)
}

/// Whether a problem has this instance of a rule on strings. Want of memory is its one fault.
pub fn accepted(
    alloc: Global,
    problem: &Problem<'_>,
    instance: &Instance,
) -> Result<bool, AllocError>
    ensures { IfOk result (λ b. IsTrue b ↔ HasString problem.now instance.now) }
{
    let Some(rule) = string_rule(alloc, instance)? else {
        return Ok(false);
    };
    let patterns = patterns(alloc, problem)?;
    is_instance_of(alloc, problem, patterns.as_slice(), &rule)
}

/// The clause of what a rule says.
fn clause_by(
    alloc: Global,
    problem: &Problem<'_>,
    patterns: &[Pattern],
    rule: &StringRule,
) -> Result<Clause, AllocError>
    ensures { IfOk result (λ c. c ≡ said_clause problem.now (said_of problem.now patterns.now rule.now)) }
{
    match literals_of(alloc, problem, patterns, rule)? {
        Some(clause) => Ok(clause),
        None => Ok(Seq::new(alloc)),
    }
}

/// The clause of an instance. Want of memory is its one fault.
pub fn clause_of(
    alloc: Global,
    problem: &Problem<'_>,
    instance: &Instance,
) -> Result<Clause, AllocError>
    ensures { IfOk result (λ c. c ≡ string_clause problem.now instance.now) }
{
    let Some(rule) = string_rule(alloc, instance)? else {
        return Ok(Seq::new(alloc));
    };
    let patterns = patterns(alloc, problem)?;
    clause_by(alloc, problem, patterns.as_slice(), &rule)
}
