//! Questions about the problems of goals.
ghost use Rattle.std.specs.Prelude.{◌≡◌, ◌<◌, [], Contains, IfOk, IsTrue, length};
ghost use Rattle.sc_closure.specs.Atoms.{is_bool};
ghost use Rattle.sc_closure_rules.specs.Goals as closing;
ghost use Rattle.sc_schema.specs.Declarations.{environments};
ghost use Rattle.sc_solver_tests.specs.Goals.{IsGoal};
ghost use Rattle.sc_terms.specs.Tables.{tree};

use crate::goals::number_of;
use crate::schemas::schema;
use sc_clauses::Lit;
use sc_footprint::{OverLimit, Problem, close};
use sc_lists::Fault;
use sc_names::Lits;
use sc_schema::{Env, Schema, Ty, context_of, environments};
use sc_sorts::Sort;
use sc_term_laws::is_term;
use sc_terms::Terms;
use std::alloc::{AllocError, Global};

/// A question about a problem, to be answered by yes.
pub(crate) trait Question {
    fn ask(&self, alloc: Global, problem: &Problem<'_>) -> Result<bool, AllocError>;
}

fn is_truth(terms: &Terms, n: u64) -> bool
    requires { n < length terms.now }
    ensures { result ≡ is_bool (tree terms.now n) }
{
    matches!(terms.sort(n), Sort::Bool)
}

/// Whether a number of a goal stands for a term as the constructors make it.
#[tactic(auto, using(crate::proofs::GoalLaws::closing_goal))]
fn is_made(
    alloc: Global,
    schema: &Schema,
    env: &Env,
    literals: &Lits,
    ty: &Ty,
    terms: &Terms,
    n: u64,
) -> Result<bool, AllocError>
    requires environment { Contains (environments schema.now) env.now }
    requires none { literals.now ≡ [] }
    requires boolean { IsGoal ty.now terms.now n }
    ensures { IfOk result (λ b. IsTrue b → closing.IsGoal schema.now env.now literals.now (tree terms.now n)) }
{
    let _ = ty;
    if !is_truth(terms, n) {
        return Ok(false);
    }
    is_term(alloc, schema, env, literals, terms, n)
}

/// The number of a goal, which is written. That it stands for no such term counts as want of memory.
fn goal_in(
    alloc: Global,
    terms: &mut Terms,
    schema: &Schema,
    env: &Env,
    literals: &Lits,
    goal: &str,
) -> Result<u64, AllocError>
    requires environment { Contains (environments schema.now) env.now }
    requires none { literals.now ≡ [] }
    ensures within { IfOk result (λ n. n < length terms.new) }
    ensures goal { IfOk result (λ n. closing.IsGoal schema.now env.now literals.now (tree terms.new n)) }
{
    let Some(ty) = context_of(schema, &env.action) else {
        return Err(AllocError);
    };
    let number = number_of(alloc, terms, ty, goal)?;
    if !is_made(alloc, schema, env, literals, ty, terms, number)? {
        return Err(AllocError);
    }
    Ok(number)
}

/// The problem of a goal, which is written.
fn problem_of<'a>(
    alloc: Global,
    schema: &'a Schema,
    env: &'a Env,
    literals: &'a Lits,
    goal: &str,
) -> Result<Problem<'a>, Fault<OverLimit>>
    requires environment { Contains (environments schema.now) env.now }
    requires none { literals.now ≡ [] }
{
    let mut terms = Terms::new(alloc)?;
    let number = goal_in(alloc, &mut terms, schema, env, literals, goal)?;
    close(alloc, terms, number, schema, env, literals)
}

/// Whether a question about the problem of a goal in an environment is answered by yes.
fn is_so_in<Q: Question>(
    alloc: Global,
    schema: &Schema,
    env: &Env,
    literals: &Lits,
    goal: &str,
    question: &Q,
) -> bool
    requires environment { Contains (environments schema.now) env.now }
    requires none { literals.now ≡ [] }
{
    match problem_of(alloc, schema, env, literals, goal) {
        Ok(problem) => matches!(question.ask(alloc, &problem), Ok(true)),
        Err(_) => false,
    }
}

/// The same in the environment at a place.
fn is_so_at<Q: Question>(
    alloc: Global,
    schema: &Schema,
    place: usize,
    goal: &str,
    question: &Q,
) -> bool {
    let literals = Lits::new(alloc);
    match environments(schema).get(place) {
        Some(env) => is_so_in(alloc, schema, env, &literals, goal, question),
        None => false,
    }
}

/// Whether a question about the problem of a goal, in the environment of the schema at a place, is answered
/// by yes.
pub(crate) fn is_so<Q: Question>(alloc: Global, place: usize, goal: &str, question: &Q) -> bool {
    match schema(alloc) {
        Ok(schema) => is_so_at(alloc, &schema, place, goal, question),
        Err(_) => false,
    }
}

/// Whether a literal is the one that a number stands for: an atom, or under `-` its negation.
pub(crate) fn is_lit(lit: Lit, number: i64) -> bool {
    lit.atom == number.unsigned_abs() && lit.negated == (number < 0)
}
