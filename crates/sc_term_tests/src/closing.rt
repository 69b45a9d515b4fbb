//! The closed terms of goals, and the sets of numbers that they are.
ghost use Rattle.std.specs.Prelude.{◌≡◌, ◌<◌, [], Contains, IfOk, length};
ghost use Rattle.std.specs.List.{AllByRecursion};
ghost use Rattle.sc_closure_rules.specs.Goals.{IsGoal};
ghost use Rattle.sc_schema.specs.Declarations.{environments};
ghost use Rattle.sc_terms.specs.Tables.{tree};

use crate::goals::{Asked, goal_of, schema};
use indexmap::IndexSet;
use sc_closure::{OverLimit, closed_terms, is_atom, number_at, place_in, put};
use sc_lists::Fault;
use sc_names::Lits;
use sc_schema::{Env, Schema, context_of, environments};
use sc_terms::Terms;
use sc_test_goals::is_plain_goal;
use std::alloc::{AllocError, Global};
use std::test::Fail;

/// How many of these terms are atoms.
fn atom_count(terms: &Terms, closed: &IndexSet<u64>) -> u64
    requires { AllByRecursion (λ n. n < length terms.now) closed.now.keys }
{
    let mut count: u64 = 0;
    let mut place = 0;
    while let Some(n) = number_at(closed, place) {
        if is_atom(terms, n) {
            count = count.wrapping_add(1);
        }
        place += 1;
    }
    count
}

/// The number of a goal. That it stands for none counts as want of memory.
fn goal_in(
    alloc: Global,
    terms: &mut Terms,
    schema: &Schema,
    env: &Env,
    literals: &Lits,
    asked: Asked,
) -> Result<u64, AllocError>
    requires environment { Contains (environments schema.now) env.now }
    requires none { literals.now ≡ [] }
    ensures within { IfOk result (λ n. n < length terms.new) }
    ensures goal { IfOk result (λ n. IsGoal schema.now env.now literals.now (tree terms.new n)) }
{
    let Some(ty) = context_of(schema, &env.action) else {
        return Err(AllocError);
    };
    let goal = goal_of(alloc, terms, schema, env, ty, asked)?;
    if !is_plain_goal(alloc, schema, env, literals, terms, goal)? {
        return Err(AllocError);
    }
    Ok(goal)
}

/// How many closed terms a goal has, how many of them are atoms, and in which place the goal is.
fn counts_of(
    alloc: Global,
    terms: &mut Terms,
    goal: u64,
    schema: &Schema,
    env: &Env,
    literals: &Lits,
) -> Result<(usize, u64, u64), Fault<OverLimit>>
    requires within { goal < length terms.old }
    requires goal { IsGoal schema.now env.now literals.now (tree terms.old goal) }
{
    let closed = closed_terms(alloc, terms, goal, schema, env, literals)?;
    let atoms = atom_count(terms, &closed);
    Ok((closed.len(), atoms, place_in(&closed, goal)))
}

/// The same of what is asked.
fn counts_in(
    alloc: Global,
    terms: &mut Terms,
    schema: &Schema,
    env: &Env,
    literals: &Lits,
    asked: Asked,
) -> Result<(usize, u64, u64), Fault<OverLimit>>
    requires environment { Contains (environments schema.now) env.now }
    requires none { literals.now ≡ [] }
{
    let goal = goal_in(alloc, terms, schema, env, literals, asked)?;
    counts_of(alloc, terms, goal, schema, env, literals)
}

/// The same in a new table.
fn counts(
    alloc: Global,
    schema: &Schema,
    env: &Env,
    asked: Asked,
) -> Result<(usize, u64, u64), Fault<OverLimit>>
    requires { Contains (environments schema.now) env.now }
{
    let literals = Lits::new(alloc);
    let mut terms = Terms::new(alloc)?;
    counts_in(alloc, &mut terms, schema, env, &literals, asked)
}

/// The same in the one environment of a schema.
fn found_in(
    alloc: Global,
    schema: &Schema,
    asked: Asked,
) -> Result<(usize, u64, u64), Fault<OverLimit>> {
    match environments(schema).get(0) {
        Some(env) => counts(alloc, schema, env, asked),
        None => Err(Fault::NoMemory),
    }
}

/// The same under the schema.
fn found(alloc: Global, asked: Asked) -> Result<(usize, u64, u64), Fault<OverLimit>> {
    let schema = schema(alloc)?;
    found_in(alloc, &schema, asked)
}

/// Whether a goal has so many closed terms, of which so many are atoms, and is met right after
/// `true`.
fn has(alloc: Global, asked: Asked, terms: usize, atoms: u64) -> bool {
    match found(alloc, asked) {
        Ok(closed) => closed == (terms, atoms, 2),
        Err(_) => false,
    }
}

/// Each goal brings in `true`, principal, resource and the context with its attributes, the
/// equations of the two texts and of the two users, and for the number that may be absent whether it
/// is there, its 64 bits with their negations, and whether it is 0.
#[test]
fn closed(rt: HostRuntime) -> Result<(), Fail> {
    let alloc = rt.alloc();
    assert!(rt; has(alloc, Asked::Flag, 146, 70));
    // whether the other text matches the pattern
    assert!(rt; has(alloc, Asked::Like, 148, 72));
    // whether the set holds the text; the other set isn't asked
    assert!(rt; has(alloc, Asked::Member, 147, 71));
    // a member of the one set that the other lacks, whether it is in each, and whether it is each text
    assert!(rt; has(alloc, Asked::Subset, 152, 75));
    // whether the principal is above itself
    assert!(rt; has(alloc, Asked::Above, 149, 72));
    Ok(())
}

/// The numbers 7 and 3, the first of them put twice.
fn put_two(numbers: &mut IndexSet<u64>) -> Result<(), AllocError> {
    put(numbers, 7)?;
    put(numbers, 3)?;
    put(numbers, 7)
}

fn two_numbers(alloc: Global) -> Result<IndexSet<u64>, AllocError> {
    let mut numbers = IndexSet::new(alloc);
    put_two(&mut numbers)?;
    Ok(numbers)
}

#[test]
fn numbers(rt: HostRuntime) -> Result<(), Fail> {
    let numbers = two_numbers(rt.alloc())?;
    assert!(rt; place_in(&numbers, 7) == 1);
    assert!(rt; place_in(&numbers, 3) == 2);
    assert!(rt; place_in(&numbers, 5) == 0);
    assert!(rt; number_at(&numbers, 1) == Some(3));
    assert!(rt; number_at(&numbers, 2).is_none());
    Ok(())
}
