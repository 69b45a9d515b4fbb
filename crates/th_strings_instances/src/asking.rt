//! The patterns of a problem: those that closed terms ask, each once, in the order of terms.
ghost use Rattle.std.specs.Prelude.{◌≡◌, ◌<◌, length, IfOk, OnOk};
ghost use Rattle.std.specs.List.{list_any};
ghost use Rattle.std.specs.Option.{option_copied};
ghost use Rattle.sc_pattern.specs.contracts.pattern.PatternPartialEq.TheImpl.{ghosts as same};
ghost use Rattle.th_strings_instances.specs.Patterns.{with_new, patterns as patterns_in};

use sc_footprint::Problem;
use sc_pattern::Pattern;
use sc_rule_instances::{asked_at, closed_at};
use std::alloc::{AllocError, Global};

/// Whether a pattern is one of some.
fn is_among(patterns: &[Pattern], pattern: &Pattern) -> bool
    ensures { result ≡ list_any (same.eq pattern.now) patterns.now }
{
    patterns.iter().any(|other| pattern == other)
}

/// Puts a pattern after the others, if it is a new one.
fn put_new(
    alloc: Global,
    patterns: &mut Vec<Pattern>,
    asked: Option<&Pattern>,
) -> Result<(), AllocError>
    ensures { OnOk result (patterns.new.items ≡ with_new patterns.old.items (option_copied asked.entry)) }
{
    let Some(pattern) = asked else {
        return Ok(());
    };
    if is_among(patterns.as_slice(), pattern) {
        return Ok(());
    }
    patterns.push(pattern.try_clone(alloc)?)?;
    Ok(())
}

/// The patterns of a problem.
#[tactic(auto, using(crate::proofs::PatternLaws::asked_more, crate::proofs::PatternLaws::asked_all))]
pub fn patterns(alloc: Global, problem: &Problem<'_>) -> Result<Vec<Pattern>, AllocError>
    ensures { IfOk result (λ v. v.items ≡ patterns_in problem.now) }
{
    let mut patterns = Vec::new(alloc);
    for place in 0..problem.closed_count() {
        let asked = asked_at(problem, closed_at(problem, place));
        put_new(alloc, &mut patterns, asked)?;
    }
    Ok(patterns)
}
