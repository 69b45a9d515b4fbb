//! What an instance says.
ghost use Rattle.std.specs.Prelude.{◌≡◌, ◌<◌, IsSomeAnd};
ghost use Rattle.sc_rule_instances.specs.declared.rule.EntityRule.TheVariants.{En1, En2, En3, En4, En5, En6, En7, En8, Eq9};
ghost use Rattle.sc_rule_instances.specs.Instances.{entity_said};
ghost use Rattle.sc_rule_instances.specs.Saying.{count_of, literal_of};
ghost use Rattle.th_entities_instances.specs.Rows.{IsRowIf};

use crate::alike::alike_of;
use crate::places::{entities_of, tags_of};
use crate::row::Row;
use crate::rows::{count, literal};
use sc_clauses::Lit;
use sc_footprint::Problem;
use sc_rule_instances::{EntityRule, NOWHERE, Saying, both, closed_of};

/// An instance of a rule on entities of a problem.
#[derive(Drop)]
pub struct Said<'a, 'b> {
    /// The problem.
    pub problem: &'a Problem<'b>,
    /// The instance.
    pub rule: EntityRule,
}

fn attributes(problem: &Problem<'_>, x: u64, y: u64, i: u64) -> Option<Row>
    ensures { IsRowIf problem.now (entity_said problem.now (En1 x y i)) result }
{
    let Some((a, b)) = both(problem, x, y) else {
        return None;
    };
    let Some(entities) = entities_of(problem, a.term, b.term) else {
        return None;
    };
    let Some(alike) = alike_of(problem, a.term, b.term, i) else {
        return None;
    };
    Some(Row::Attributes(entities, alike))
}

fn sets(problem: &Problem<'_>, x: u64, s: u64, z: u64) -> Option<Row>
    ensures { IsRowIf problem.now (entity_said problem.now (En2 x s z)) result }
{
    let Some((x, s)) = both(problem, x, s) else {
        return None;
    };
    let Some(z) = closed_of(problem, z) else {
        return None;
    };
    Some(Row::Sets(x, s, z))
}

fn tags(problem: &Problem<'_>, x: u64, y: u64, i: u64) -> Option<Row>
    ensures { IsRowIf problem.now (entity_said problem.now (En3 x y i)) result }
{
    let Some((a, b)) = both(problem, x, y) else {
        return None;
    };
    let Some(tags) = tags_of(problem, a.term, b.term) else {
        return None;
    };
    let Some(alike) = alike_of(problem, a.term, b.term, i) else {
        return None;
    };
    Some(Row::Tags(tags, alike))
}

fn own(problem: &Problem<'_>, e: u64) -> Option<Row>
    ensures { IsRowIf problem.now (entity_said problem.now (En4 e)) result }
{
    let Some(x) = closed_of(problem, e) else {
        return None;
    };
    Some(Row::Own(x))
}

fn through(problem: &Problem<'_>, e: u64, f: u64, x: u64, u: u64) -> Option<Row>
    ensures { IsRowIf problem.now (entity_said problem.now (En5 e f x u)) result }
{
    let Some((lower, upper)) = both(problem, e, f) else {
        return None;
    };
    let Some((top, above)) = both(problem, x, u) else {
        return None;
    };
    Some(Row::Through(lower, upper, top, above))
}

fn lacking(problem: &Problem<'_>, a: u64) -> Option<Row>
    ensures { IsRowIf problem.now (entity_said problem.now (En6 a)) result }
{
    let Some(x) = closed_of(problem, a) else {
        return None;
    };
    Some(Row::Lacking(x))
}

fn declared(problem: &Problem<'_>, s: u64, x: u64) -> Option<Row>
    ensures { IsRowIf problem.now (entity_said problem.now (En7 s x)) result }
{
    let Some((s, x)) = both(problem, s, x) else {
        return None;
    };
    Some(Row::Declared(s, x))
}

fn acting(problem: &Problem<'_>, x: u64) -> Option<Row>
    ensures { IsRowIf problem.now (entity_said problem.now (En8 x)) result }
{
    let Some(x) = closed_of(problem, x) else {
        return None;
    };
    Some(Row::Acting(x))
}

fn enumerated(problem: &Problem<'_>, x: u64) -> Option<Row>
    ensures { IsRowIf problem.now (entity_said problem.now (Eq9 x)) result }
{
    let Some(x) = closed_of(problem, x) else {
        return None;
    };
    Some(Row::Enumerated(x))
}

/// An instance by its closed terms. None exactly where a number is that of none.
fn row(problem: &Problem<'_>, rule: EntityRule) -> Option<Row>
    ensures { IsRowIf problem.now (entity_said problem.now rule) result }
{
    match rule {
        EntityRule::En1(x, y, i) => attributes(problem, x, y, i),
        EntityRule::En2(x, s, z) => sets(problem, x, s, z),
        EntityRule::En3(x, y, i) => tags(problem, x, y, i),
        EntityRule::En4(e) => own(problem, e),
        EntityRule::En5(e, f, x, u) => through(problem, e, f, x, u),
        EntityRule::En6(a) => lacking(problem, a),
        EntityRule::En7(s, x) => declared(problem, s, x),
        EntityRule::En8(x) => acting(problem, x),
        EntityRule::Eq9(x) => enumerated(problem, x),
    }
}

#[tactic(auto, using(crate::proofs::GivenLaws::row_count, crate::proofs::GivenLaws::none_count))]
fn rule_count(problem: &Problem<'_>, rule: EntityRule) -> Option<u128>
    ensures { result ≡ count_of (entity_said problem.now rule) }
{
    match row(problem, rule) {
        Some(row) => count(problem, row),
        None => None,
    }
}

fn rule_literal(problem: &Problem<'_>, rule: EntityRule, place: u128) -> Lit
    requires { IsSomeAnd (count_of (entity_said problem.now rule)) (λ n. place < n) }
    ensures { result ≡ literal_of problem.now (entity_said problem.now rule) place }
{
    match row(problem, rule) {
        Some(row) => literal(problem, row, place),
        None => NOWHERE,
    }
}

impl<'a, 'b> Saying for Said<'a, 'b> {
    ghost use Rattle.sc_rule_instances.specs.Instances.{entity_said};

    ghost posed = { λ s. s.problem.now };

    ghost said = { λ s. entity_said s.problem.now s.rule };

    fn count(&self) -> Option<u128> {
        rule_count(self.problem, self.rule)
    }

    fn literal(&self, place: u128) -> Lit {
        rule_literal(self.problem, self.rule, place)
    }
}
