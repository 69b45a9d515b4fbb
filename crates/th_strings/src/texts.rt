//! The closed terms that may be strings of a rule: string terms, and constants.
ghost use Rattle.std.specs.Prelude.{◌≡◌, ◌<◌, ◌+◌, length, is_some, IfOk, OnOk};
ghost use Rattle.sc_terms.specs.Folds.{literal_of};
ghost use Rattle.sc_terms.specs.Tables.{tree};
ghost use Rattle.th_strings.specs.Texts.{AreTexts, AreTextsUpTo, is_text as text_test};

use sc_footprint::Problem;
use sc_rule_instances::closed_at;
use std::alloc::{AllocError, Global};
use th_strings_instances::is_sort_string;

/// Whether a term is a constant.
fn is_literal(problem: &Problem<'_>, n: u64) -> bool
    requires { n < length problem.now.nodes }
    ensures { result ≡ is_some (literal_of (tree problem.now.nodes n)) }
{
    problem.terms().literal_at(n).is_some()
}

/// Whether a term is a string or a constant.
fn is_text(problem: &Problem<'_>, n: u64) -> bool
    requires { n < length problem.now.nodes }
    ensures { result ≡ text_test (tree problem.now.nodes n) }
{
    let string = is_sort_string(problem, n);
    let literal = is_literal(problem, n);
    string || literal
}

/// Appends the number of a closed term, if that is a string or a constant.
fn put_if_text(problem: &Problem<'_>, place: u64, numbers: &mut Vec<u64>) -> Result<(), AllocError>
    requires place { place < length problem.now.closed }
    requires texts { AreTextsUpTo problem.now place numbers.old.items }
    ensures { OnOk result (AreTextsUpTo problem.now (place + 1) numbers.new.items) }
{
    problem.laws();
    if is_text(problem, closed_at(problem, place)) {
        numbers.push(place + 1)?;
        return Ok(());
    }
    Ok(())
}

/// The numbers of the strings and constants among the closed terms.
pub(crate) fn text_numbers(alloc: Global, problem: &Problem<'_>) -> Result<Vec<u64>, AllocError>
    ensures { IfOk result (λ v. AreTexts problem.now v.items) }
{
    let mut numbers = Vec::new(alloc);
    for place in 0..problem.closed_count() {
        put_if_text(problem, place, &mut numbers)?;
    }
    Ok(numbers)
}
