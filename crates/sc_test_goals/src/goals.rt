//! Whether a number of a table stands for a goal.
ghost use Rattle.std.specs.Prelude.{◌≡◌, ◌<◌, [], Contains, length, IfOk, IsTrue};
ghost use Rattle.sc_schema.specs.Declarations.{environments};
ghost use Rattle.sc_terms.specs.Tables.{tree};
ghost use Rattle.sc_closure_rules.specs.Goals.{IsGoal};
ghost use Rattle.sc_test_goals.specs.Plain.{IsPlain};
ghost use Rattle.sc_test_goals.specs.Known.{AreKnown, is_action as action_test, is_known_node as known_node};

use sc_closure::is_bool;
use sc_names::{Lits, Uid};
use sc_schema::{Env, Schema, action_ancestors};
use sc_sorts::{BinaryOp, Leaf, Literal, Node};
use sc_term_laws::is_term;
use sc_terms::Terms;
use std::alloc::{AllocError, Global};

/// Whether an entity is a declared action.
fn is_action(schema: &Schema, uid: &Uid) -> bool
    ensures { result ≡ action_test schema.now uid.now }
{
    action_ancestors(schema, uid).is_some()
}

fn is_known_node(schema: &Schema, node: &Node) -> bool
    ensures { result ≡ known_node schema.now node.now }
{
    match node {
        Node::Leaf(Leaf::Literal(Literal::Entity(uid, _))) => is_action(schema, uid),
        Node::Two(BinaryOp::DifferencePick, _, _) => false,
        Node::Two(BinaryOp::CommonPick, _, _) => false,
        _ => true,
    }
}

/// Whether the terms of a table write declared actions alone, and none picks a member.
fn are_known(schema: &Schema, terms: &Terms) -> bool
    ensures { IsTrue result → AreKnown schema.now terms.now (length terms.now) }
{
    for n in 0..terms.len() {
        if !is_known_node(schema, terms.node(n)) {
            return false;
        }
    }
    true
}

/// Whether a number stands for a goal, and no term of its table picks a member or writes an entity that
/// isn't a declared action.
#[tactic(auto, using(crate::proofs::KnownLaws::known_goal))]
pub fn is_goal(
    alloc: Global,
    schema: &Schema,
    env: &Env,
    literals: &Lits,
    terms: &Terms,
    n: u64,
) -> Result<bool, AllocError>
    requires environment { Contains (environments schema.now) env.now }
    requires none { literals.now ≡ [] }
    requires within { n < length terms.now }
    ensures { IfOk result (λ b. IsTrue b → IsGoal schema.now env.now literals.now (tree terms.now n)) }
{
    if !are_known(schema, terms) {
        return Ok(false);
    }
    if !is_bool(terms, n) {
        return Ok(false);
    }
    is_term(alloc, schema, env, literals, terms, n)
}

/// Whether a number that stands for a plain term stands for a goal.
#[tactic(auto, using(crate::proofs::GoalLaws::plain_goal))]
pub fn is_plain_goal(
    alloc: Global,
    schema: &Schema,
    env: &Env,
    literals: &Lits,
    terms: &Terms,
    n: u64,
) -> Result<bool, AllocError>
    requires environment { Contains (environments schema.now) env.now }
    requires none { literals.now ≡ [] }
    requires plain { IsPlain terms.now n }
    ensures { IfOk result (λ b. IsTrue b → IsGoal schema.now env.now literals.now (tree terms.now n)) }
{
    if !is_bool(terms, n) {
        return Ok(false);
    }
    is_term(alloc, schema, env, literals, terms, n)
}
