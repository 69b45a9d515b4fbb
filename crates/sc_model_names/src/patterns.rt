//! The patterns that closed terms ask of strings.
ghost use Rattle.std.specs.Prelude.{◌≡◌, [], map, IfOk, OnOk};
ghost use Rattle.std.specs.List.{list_any};
ghost use Rattle.sc_model_names.specs.Numbers.{AreIn};
ghost use Rattle.sc_model_names.specs.Patterns.{same_part as same_part_test, same_pattern as same_pattern_test, put_pattern as put, put_patterns};
ghost use Rattle.sc_terms.specs.Tables.{tree};

use sc_footprint::Problem;
use sc_lists::Seq;
use sc_pattern::{Part, Pattern};
use sc_rule_instances::asked_at;
use std::alloc::{AllocError, Global};

fn same_part(a: &Part, b: &Part) -> bool
    ensures { result ≡ same_part_test a.now b.now }
{
    match (a, b) {
        (Part::Star, Part::Star) => true,
        (Part::Char(c), Part::Char(d)) => *c == *d,
        _ => false,
    }
}

fn same_pattern(pattern: &[Part], other: &[Part]) -> bool
    ensures { result ≡ same_pattern_test pattern.now other.now }
{
    let mut left = pattern;
    let mut right = other;
    while let Some((a, later)) = left.split_first() {
        let Some((b, others)) = right.split_first() else {
            return false;
        };
        if !same_part(a, b) {
            return false;
        }
        left = later;
        right = others;
    }
    right.is_empty()
}

fn is_there(patterns: &[Pattern], pattern: &Pattern) -> bool
    ensures { result ≡ list_any (same_pattern_test pattern.now) patterns.now }
{
    let mut rest = patterns;
    while let Some((other, later)) = rest.split_first() {
        if same_pattern(pattern.parts(), other.parts()) {
            return true;
        }
        rest = later;
    }
    false
}

fn put_pattern(
    alloc: Global,
    patterns: &mut Seq<Pattern>,
    pattern: &Pattern,
) -> Result<(), AllocError>
    ensures { OnOk result (patterns.new ≡ put patterns.old pattern.now) }
{
    if is_there(patterns.as_slice(), pattern) {
        return Ok(());
    }
    let own = pattern.try_clone(alloc)?;
    patterns.push(own)?;
    Ok(())
}

/// Those of some terms, each once.
#[tactic(auto, unfolding(crate::specs::Patterns::put_patterns))]
pub(crate) fn patterns_of(
    alloc: Global,
    problem: &Problem<'_>,
    numbers: &[u64],
) -> Result<Seq<Pattern>, AllocError>
    requires { AreIn problem.now.nodes numbers.now }
    ensures { IfOk result (λ qs. qs ≡ put_patterns [] (map (tree problem.now.nodes) numbers.now)) }
{
    let mut patterns = Seq::new(alloc);
    let mut rest = numbers;
    while let Some((n, later)) = rest.split_first() {
        if let Some(pattern) = asked_at(problem, *n) {
            put_pattern(alloc, &mut patterns, pattern)?;
        }
        rest = later;
    }
    Ok(patterns)
}
