//! What an instance says.
ghost use Rattle.std.specs.Prelude.{◌≡◌, ◌<◌, IsSomeAnd};
ghost use Rattle.sc_rule_instances.specs.declared.rule.EqualRule.TheVariants.{Eq1, Eq2, Eq3, Eq4, Eq5, Eq6, Eq7, Eq8};
ghost use Rattle.sc_rule_instances.specs.Instances.{equal_said};
ghost use Rattle.sc_rule_instances.specs.Saying.{count_of, literal_of};
ghost use Rattle.th_equal.specs.Rows.{IsRowIf};

use crate::row::Row;
use crate::rows::{count, literal};
use sc_clauses::Lit;
use sc_footprint::Problem;
use sc_rule_instances::{EqualRule, NOWHERE, Saying, both, closed_of};

/// An instance of a rule on equations of a problem.
#[derive(Drop)]
pub struct Said<'a, 'b> {
    /// The problem.
    pub problem: &'a Problem<'b>,
    /// The instance.
    pub rule: EqualRule,
}

fn chain(problem: &Problem<'_>, a: u64, b: u64, c: u64) -> Option<Row>
    ensures { IsRowIf problem.now (equal_said problem.now (Eq1 a b c)) result }
{
    let Some((x, y)) = both(problem, a, b) else {
        return None;
    };
    let Some(z) = closed_of(problem, c) else {
        return None;
    };
    Some(Row::Chain(x, y, z))
}

fn choice(problem: &Problem<'_>, x: u64, side: u64) -> Option<Row>
    ensures { IsRowIf problem.now (equal_said problem.now (Eq2 x side)) result }
{
    let Some(x) = closed_of(problem, x) else {
        return None;
    };
    Some(Row::Choice(x, side))
}

fn field(problem: &Problem<'_>, r: u64, s: u64, field: u64) -> Option<Row>
    ensures { IsRowIf problem.now (equal_said problem.now (Eq3 r s field)) result }
{
    let Some((x, y)) = both(problem, r, s) else {
        return None;
    };
    Some(Row::Field(x, y, field))
}

fn fields(problem: &Problem<'_>, r: u64, s: u64) -> Option<Row>
    ensures { IsRowIf problem.now (equal_said problem.now (Eq4 r s)) result }
{
    let Some((x, y)) = both(problem, r, s) else {
        return None;
    };
    Some(Row::Fields(x, y))
}

fn presence(problem: &Problem<'_>, o: u64, q: u64) -> Option<Row>
    ensures { IsRowIf problem.now (equal_said problem.now (Eq5 o q)) result }
{
    let Some((x, y)) = both(problem, o, q) else {
        return None;
    };
    Some(Row::Presence(x, y))
}

fn held(problem: &Problem<'_>, o: u64, q: u64) -> Option<Row>
    ensures { IsRowIf problem.now (equal_said problem.now (Eq6 o q)) result }
{
    let Some((x, y)) = both(problem, o, q) else {
        return None;
    };
    Some(Row::Held(x, y))
}

fn options(problem: &Problem<'_>, o: u64, q: u64, side: u64) -> Option<Row>
    ensures { IsRowIf problem.now (equal_said problem.now (Eq7 o q side)) result }
{
    let Some((x, y)) = both(problem, o, q) else {
        return None;
    };
    Some(Row::Options(x, y, side))
}

fn default(problem: &Problem<'_>, o: u64) -> Option<Row>
    ensures { IsRowIf problem.now (equal_said problem.now (Eq8 o)) result }
{
    let Some(x) = closed_of(problem, o) else {
        return None;
    };
    Some(Row::Default(x))
}

/// An instance by its closed terms. None exactly where a number is that of none.
fn row(problem: &Problem<'_>, rule: EqualRule) -> Option<Row>
    ensures { IsRowIf problem.now (equal_said problem.now rule) result }
{
    match rule {
        EqualRule::Eq1(a, b, c) => chain(problem, a, b, c),
        EqualRule::Eq2(x, side) => choice(problem, x, side),
        EqualRule::Eq3(r, s, i) => field(problem, r, s, i),
        EqualRule::Eq4(r, s) => fields(problem, r, s),
        EqualRule::Eq5(o, q) => presence(problem, o, q),
        EqualRule::Eq6(o, q) => held(problem, o, q),
        EqualRule::Eq7(o, q, side) => options(problem, o, q, side),
        EqualRule::Eq8(o) => default(problem, o),
    }
}

#[tactic(auto, using(crate::proofs::GivenLaws::row_count, crate::proofs::GivenLaws::none_count))]
fn rule_count(problem: &Problem<'_>, rule: EqualRule) -> Option<u128>
    ensures { result ≡ count_of (equal_said problem.now rule) }
{
    match row(problem, rule) {
        Some(row) => count(problem, row),
        None => None,
    }
}

fn rule_literal(problem: &Problem<'_>, rule: EqualRule, place: u128) -> Lit
    requires { IsSomeAnd (count_of (equal_said problem.now rule)) (λ n. place < n) }
    ensures { result ≡ literal_of problem.now (equal_said problem.now rule) place }
{
    match row(problem, rule) {
        Some(row) => literal(problem, row, place),
        None => NOWHERE,
    }
}

impl<'a, 'b> Saying for Said<'a, 'b> {
    ghost use Rattle.sc_rule_instances.specs.Instances.{equal_said};

    ghost posed = { λ s. s.problem.now };

    ghost said = { λ s. equal_said s.problem.now s.rule };

    fn count(&self) -> Option<u128> {
        rule_count(self.problem, self.rule)
    }

    fn literal(&self, place: u128) -> Lit {
        rule_literal(self.problem, self.rule, place)
    }
}
