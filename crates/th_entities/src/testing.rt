//! Tests that are taken before many instances are looked at.
ghost use Rattle.std.specs.Prelude.{◌≡◌, ◌&&◌, true, is_some, IfSome, IfNone};
ghost use Rattle.sc_footprint.specs.Problems.{term_of};
ghost use Rattle.sc_rule_instances.specs.Instances.{entity_said};
ghost use Rattle.sc_rule_instances.specs.Known.{is_falsified as falsified_of};
ghost use Rattle.sc_rule_instances.specs.Saying.{count_of};
ghost use Rattle.th_entities.specs.Free.{IsFree, is_head_out as head_test, is_out as out_test, is_stored as stored_test};

use sc_clauses::{Assignment, Lit, is_false, is_same};
use sc_footprint::Problem;
use sc_rule_instances::{EntityRule, Saying, TRUE, is_falsified};
use sc_sorts::{Node, UnaryOp};
use th_entities_instances::Said;

/// Whether a literal is asked and false.
pub(crate) fn is_out(m: &Assignment, lit: Lit) -> bool
    ensures { result ≡ out_test m.now lit }
{
    lit.atom != 0 && !is_same(lit, TRUE) && is_false(m, lit)
}

/// Whether an instance is of its rule's form.
pub(crate) fn is_said(problem: &Problem<'_>, rule: EntityRule) -> bool
    ensures { result ≡ is_some (count_of (entity_said problem.now rule)) }
{
    let said = Said { problem, rule };
    match said.count() {
        Some(_) => true,
        None => false,
    }
}

/// Whether the first literal of an instance is asked and false.
pub(crate) fn is_head_out(problem: &Problem<'_>, m: &Assignment, rule: EntityRule) -> bool
    ensures { result ≡ head_test problem.now m.now (entity_said problem.now rule) }
{
    let said = Said { problem, rule };
    let Some(count) = said.count() else {
        return false;
    };
    if count == 0 {
        return false;
    }
    is_out(m, said.literal(0))
}

/// Whether a closed term is the ancestors of an entity, or the keys of its tags.
pub(crate) fn is_stored(problem: &Problem<'_>, s: u64) -> bool
    ensures { result ≡ stored_test (term_of problem.now s) }
{
    let Some(at) = problem.term(s) else {
        return false;
    };
    match problem.terms().node(at) {
        Node::One(UnaryOp::Ancestors(_), _) => true,
        Node::One(UnaryOp::Keys, _) => true,
        _ => false,
    }
}

/// The instance, if an assignment falsifies it.
pub(crate) fn if_falsified(
    problem: &Problem<'_>,
    m: &Assignment,
    rule: EntityRule,
) -> Option<EntityRule>
    ensures found { IfSome result (λ rule. falsified_of problem.now m.now (entity_said problem.now rule) ≡ true) }
    ensures none { IfNone result (IsFree problem.now m.now rule) }
{
    let said = Said { problem, rule };
    if is_falsified(&said, m) {
        Some(rule)
    } else {
        None
    }
}
