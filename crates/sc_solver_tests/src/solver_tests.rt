//! What the solver finds of goals, and the rules that it takes.

use crate::problems::{Question, is_so};
use crate::schemas::{USER_DOC, USER_USER};
use sc_checker::{Log, Verdict, check};
use sc_clauses::{Assignment, Instance, Word};
use sc_footprint::{Problem, Theory};
use sc_lists::{Seq, Text};
use sc_names::Uid;
use sc_solver::{Rules, Solved, solve};
use sc_values::Value;
use sc_world::{EntityData, World};
use std::alloc::{AllocError, Global};
use std::test::Fail;

/// What is to be found.
#[derive(Clone, Copy)]
enum Wanted {
    /// A log that refutes the goal.
    Refuted,
    /// A log of so many steps.
    Spent(usize),
    /// A world that stores its request, in whose context `a` is true.
    WithA,
    /// A world of two users with managers.
    WithManagers,
}

/// What the solver finds, where it may log so many units.
#[derive(Drop)]
struct Finds {
    budget: u64,
    wanted: Wanted,
}

/// Whether the checker accepts a log.
fn is_accepted(alloc: Global, problem: &Problem<'_>, log: &Log) -> Result<bool, AllocError> {
    let rules = Rules::new();
    Ok(check(alloc, &rules, problem, log)? == Verdict::Refuted)
}

/// Whether a log of so many steps was written.
fn is_spent(log: &Log, wanted: Wanted) -> bool {
    match wanted {
        Wanted::Spent(steps) => log.steps().len() == steps,
        _ => false,
    }
}

fn is_world(world: &World, wanted: Wanted) -> bool {
    match wanted {
        Wanted::WithA => { has_a(world.request.context.as_slice()) && stores_its_request(world) }
        Wanted::WithManagers => are_numbered(world) && principal_has_manager(world),
        _ => false,
    }
}

/// Whether what is found is what is wanted, and a log that refutes the goal is accepted.
fn is_wanted(
    alloc: Global,
    problem: &Problem<'_>,
    found: &Solved,
    wanted: Wanted,
) -> Result<bool, AllocError> {
    match found {
        Solved::Refuted(log) => {
            let accepted = is_accepted(alloc, problem, log)?;
            Ok(accepted && matches!(wanted, Wanted::Refuted))
        }
        Solved::Violated(world) => Ok(is_world(world, wanted)),
        Solved::Spent(log) => Ok(is_spent(log, wanted)),
    }
}

impl Question for Finds {
    fn ask(&self, alloc: Global, problem: &Problem<'_>) -> Result<bool, AllocError> {
        if self.budget > 1000 {
            return Ok(false);
        }
        let found = solve(alloc, problem, self.budget)?;
        is_wanted(alloc, problem, &found, self.wanted)
    }
}

// ---- worlds

fn is_field(field: &(Text, Value), name: &str) -> bool {
    field.0.as_str() == name
}

fn is_true(value: &Value) -> bool {
    match value {
        Value::Bool(b) => *b,
        _ => false,
    }
}

/// Whether a context has the truth values `a` and `b`, and `a` is true.
fn has_a(context: &[(Text, Value)]) -> bool {
    match context {
        [a, b] => is_field(a, "a") && is_true(&a.1) && is_field(b, "b"),
        _ => false,
    }
}

fn stores_its_request(world: &World) -> bool {
    let store = &world.store;
    let request = &world.request;
    store.get(&request.principal).is_some()
        && store.get(&request.action).is_some()
        && store.get(&request.resource).is_some()
}

fn is_user(uid: &Uid, id: &str) -> bool {
    uid.type_name.as_str() == "User" && uid.id.as_str() == id
}

/// Whether the principal is the user `0`, and the resource that or the user `1`.
fn are_numbered(world: &World) -> bool {
    let resource = &world.request.resource;
    is_user(&world.request.principal, "0") && (is_user(resource, "0") || is_user(resource, "1"))
}

/// The manager of a user, who has a level besides.
fn manager_of(data: &EntityData) -> Option<&Uid> {
    match data.attrs.as_slice() {
        [level, manager] if is_field(level, "level") && is_field(manager, "manager") => {
            entity_of(&manager.1)
        }
        _ => None,
    }
}

fn entity_of(value: &Value) -> Option<&Uid> {
    match value {
        Value::Entity(uid) => Some(uid),
        _ => None,
    }
}

/// Whether the principal's manager is the user with no id, who is stored too.
fn principal_has_manager(world: &World) -> bool {
    let Some(data) = world.store.get(&world.request.principal) else {
        return false;
    };
    match manager_of(data) {
        Some(manager) => is_user(manager, "") && world.store.get(manager).is_some(),
        None => false,
    }
}

/// Places of environments, goals, budgets, and what is to be found.
const GOALS: &[(usize, &str, u64, Wanted)] = &[
    (USER_DOC, "f", 1, Wanted::Refuted),
    // a contradiction is refuted in one step
    (USER_DOC, "aa!&", 1, Wanted::Refuted),
    // `a` is `b` and isn't: two cases take a few steps
    (USER_DOC, "ab=ab!=&", 8, Wanted::Refuted),
    (USER_DOC, "ab=ab!=&", 1, Wanted::Spent(1)),
    (USER_DOC, "a", 100, Wanted::WithA),
    (USER_USER, "t", 100, Wanted::WithManagers),
];

#[test]
fn goals(rt: HostRuntime) -> Result<(), Fail> {
    for &(place, goal, budget, wanted) in GOALS {
        let so = is_so(rt.alloc(), place, goal, &Finds { budget, wanted });
        assert!(rt; so, "{goal} with {budget}");
    }
    Ok(())
}

// ---- rules

/// Whether the first defining clause is an instance of all rules and has one literal, and values of
/// no atom falsify none.
#[derive(Drop)]
struct HaveDefinitions;

/// The word of the number 1.
fn words(alloc: Global) -> Result<Seq<Word>, AllocError> {
    let mut words = Seq::new(alloc);
    words.push(Word::Number(1))?;
    Ok(words)
}

/// The defining clause of number 1, as an instance.
fn first_instance(alloc: Global) -> Result<Instance, AllocError> {
    let rule = Text::from_str(alloc, "")?;
    let words = words(alloc)?;
    Ok(Instance { rule, words })
}

/// Whether this is an instance whose clause has one literal.
fn has_one_literal(
    alloc: Global,
    problem: &Problem<'_>,
    instance: &Instance,
) -> Result<bool, AllocError> {
    let rules = Rules::new();
    if !rules.accepts(alloc, problem, instance)? {
        return Ok(false);
    }
    let clause = rules.clause(alloc, problem, instance)?;
    Ok(clause.len() == 1)
}

fn have_first_clause(alloc: Global, problem: &Problem<'_>) -> Result<bool, AllocError> {
    let instance = first_instance(alloc)?;
    has_one_literal(alloc, problem, &instance)
}

/// Whether an assignment falsifies no instance.
fn falsifies_none(
    alloc: Global,
    problem: &Problem<'_>,
    m: &Assignment,
) -> Result<bool, AllocError> {
    let found = Rules::new().violated(alloc, problem, m)?;
    Ok(found.is_none())
}

fn falsify_nothing(alloc: Global, problem: &Problem<'_>) -> Result<bool, AllocError> {
    let m = Assignment::from_values(Seq::new(alloc));
    falsifies_none(alloc, problem, &m)
}

impl Question for HaveDefinitions {
    fn ask(&self, alloc: Global, problem: &Problem<'_>) -> Result<bool, AllocError> {
        let first = have_first_clause(alloc, problem)?;
        let nothing = falsify_nothing(alloc, problem)?;
        Ok(first && nothing)
    }
}

#[test]
fn rules_have_the_clauses_that_define_a_problem(rt: HostRuntime) -> Result<(), Fail> {
    let so = is_so(rt.alloc(), USER_DOC, "f", &HaveDefinitions);
    assert!(rt; so);
    Ok(())
}
