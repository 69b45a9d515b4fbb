//! What tells that two places of one sort are alike.
ghost use Rattle.std.specs.Prelude.{◌≡◌, ◌<◌, ◌≤◌, ◌==◌, Some, None, length, nat_lt, get_or, option_map, if◌then◌else◌};
ghost use Rattle.sc_clauses.specs.Clauses.{positive};
ghost use Rattle.sc_footprint.specs.Problems.{literal_in};
ghost use Rattle.sc_rule_instances.specs.Clauses.{clause_for};
ghost use Rattle.sc_sorts.specs.declared.sort.Sort.{out-Sort};
ghost use Rattle.sc_terms.specs.Tables.{tree};
ghost use Rattle.sc_terms.specs.TreeSorts.{tree_sort};
ghost use Rattle.th_entities_instances.specs.declared.alike.Half.TheVariants.{Told};
ghost use Rattle.th_entities_instances.specs.declared.alike.Measure.TheVariants.{Bit, Member};
ghost use Rattle.th_entities_instances.specs.Alike.{IsAlikeIf, IsAlikeIn, IsMeasureIn, IsNoLiteral, alike_parts, half_at, half_size, told};

use sc_clauses::{Lit, negation};
use sc_footprint::Problem;
use sc_rule_instances::{bit, equal, member, present};
use sc_sorts::Sort;

/// What is asked of both places.
#[derive(Clone, Copy, Debug)]
pub(crate) enum Measure {
    /// Whether it's true.
    Truth,
    /// Whether it holds a value.
    Presence,
    /// The bit at a place.
    Bit(u64),
    /// Whether it has a member, by that one's number in the table.
    Member(u64),
}

/// One half of what tells that two places are alike; the other exchanges them.
#[derive(Clone, Copy, Debug)]
pub(crate) enum Half {
    /// They are equal.
    Equation,
    /// What is asked is so of the second if it is of the first.
    Told(Measure),
}

/// Two places and one half of what tells that they are alike, by their numbers in the table.
#[derive(Clone, Copy, Debug)]
pub(crate) struct Alike {
    pub(crate) first: u64,
    pub(crate) second: u64,
    pub(crate) half: Half,
}

// ---- which halves there are

/// Of what has one half alone that half, whose number is 0.
fn only(i: u64, half: Half) -> Option<Half>
    ensures { result ≡ (if i == 0 then Some half else None) }
{
    if i == 0 { Some(half) } else { None }
}

/// The bit of a number, of so many.
fn bit_below(count: u64, i: u64) -> Option<Half>
    ensures { result ≡ (if nat_lt i count then Some (Told (Bit i)) else None) }
{
    if i < count {
        Some(Half::Told(Measure::Bit(i)))
    } else {
        None
    }
}

/// The candidate, where there is one.
fn candidate(member: Option<u64>) -> Option<Half>
    ensures { result ≡ option_map (λ z. Told (Member z)) member }
{
    match member {
        Some(z) => Some(Half::Told(Measure::Member(z))),
        None => None,
    }
}

/// The half of a number, by the place's sort and by the closed term of that number.
fn half_of(problem: &Problem<'_>, x: u64, i: u64, member: Option<u64>) -> Option<Half>
    requires { x < length problem.now.nodes }
    ensures { result ≡ half_at (out-Sort (tree_sort (tree problem.now.nodes x))) i member }
{
    match problem.terms().sort(x) {
        Sort::Bool => only(i, Half::Told(Measure::Truth)),
        Sort::String => only(i, Half::Equation),
        Sort::Entity(_, _) => only(i, Half::Equation),
        Sort::Option(_) => only(i, Half::Told(Measure::Presence)),
        Sort::Long => bit_below(64, i),
        Sort::Decimal => bit_below(64, i),
        Sort::Ip => bit_below(257, i),
        Sort::Set(_) => candidate(member),
        Sort::Record(_) => None,
    }
}

/// Two places, with the half of a number. None exactly where there is none.
pub(crate) fn alike_of(problem: &Problem<'_>, x: u64, y: u64, i: u64) -> Option<Alike>
    requires x { x < length problem.now.nodes }
    requires y { y < length problem.now.nodes }
    requires x_other { IsNoLiteral (tree problem.now.nodes x) }
    requires y_other { IsNoLiteral (tree problem.now.nodes y) }
    ensures { IsAlikeIf problem.now x y i result }
{
    let Some(half) = half_of(problem, x, i, problem.term(i)) else {
        return None;
    };
    Some(Alike {
        first: x,
        second: y,
        half,
    })
}

// ---- their literals

/// How many literals a half has.
pub(crate) fn half_count(half: Half) -> u128
    ensures value { result ≡ half_size half }
    ensures small { result ≤ 2 }
{
    match half {
        Half::Equation => 1,
        Half::Told(_) => 2,
    }
}

/// The literal of what is asked of a place.
fn told_literal(problem: &Problem<'_>, measure: Measure, x: u64) -> Lit
    requires x { x < length problem.now.nodes }
    requires other { IsNoLiteral (tree problem.now.nodes x) }
    requires measure { IsMeasureIn problem.now measure }
    ensures { result ≡ literal_in problem.now (told problem.now measure (tree problem.now.nodes x)) }
{
    match measure {
        Measure::Truth => problem.literal(x),
        Measure::Presence => present(problem, x),
        Measure::Bit(i) => bit(problem, x, i),
        Measure::Member(z) => member(problem, z, x),
    }
}

/// The literal at a place.
#[tactic(auto, using(crate::proofs::AlikeLaws::equation_literal, crate::proofs::AlikeLaws::first_literal, crate::proofs::AlikeLaws::second_literal))]
pub(crate) fn alike_literal(problem: &Problem<'_>, alike: Alike, place: u128) -> Lit
    requires alike { IsAlikeIn problem.now alike }
    requires place { place < half_size alike.half }
    ensures { result ≡ get_or (clause_for problem.now (alike_parts problem.now alike)) place (positive 0) }
{
    match alike.half {
        Half::Equation => equal(problem, alike.first, alike.second),
        Half::Told(measure) => {
            if place == 0 {
                return negation(told_literal(problem, measure, alike.first));
            }
            told_literal(problem, measure, alike.second)
        }
    }
}
