//! Which patterns strings match, where the assignment tells it.
ghost use Rattle.std.specs.Prelude.{◌≡◌, ◌<◌, length, map, slice_get, IfOk};
ghost use Rattle.sc_footprint.specs.Problems.{term_of};
ghost use Rattle.sc_terms.specs.Tables.{tree};
ghost use Rattle.th_strings.specs.Known.{row_at, row_of, sign_in, sign_of};

use sc_clauses::Assignment;
use sc_footprint::Problem;
use sc_lists::Seq;
use sc_pattern::Pattern;
use sc_rule_instances::known_literal;
use std::alloc::{AllocError, Global};
use th_strings_instances::like;

/// The signs of a term of the table: for each pattern whether the term matches it, where that is known.
pub(crate) fn row(
    alloc: Global,
    problem: &Problem<'_>,
    m: &Assignment,
    patterns: &[Pattern],
    term: u64,
) -> Result<Seq<Option<bool>>, AllocError>
    requires { term < length problem.now.nodes }
    ensures { IfOk result (λ v. v ≡ row_at problem.now m.now patterns.now (tree problem.now.nodes term)) }
{
    let mut row = Seq::new(alloc);
    let mut rest = patterns;
    while let Some((pattern, later)) = rest.split_first() {
        let literal = like(alloc, problem, term, pattern)?;
        row.push(known_literal(m, literal))?;
        rest = later;
    }
    Ok(row)
}

/// The signs of a closed term, by its number.
fn number_row(
    alloc: Global,
    problem: &Problem<'_>,
    m: &Assignment,
    patterns: &[Pattern],
    number: u64,
) -> Result<Seq<Option<bool>>, AllocError>
    ensures { IfOk result (λ v. v ≡ row_of problem.now m.now patterns.now (term_of problem.now number)) }
{
    match problem.term(number) {
        Some(term) => row(alloc, problem, m, patterns, term),
        None => Ok(Seq::new(alloc)),
    }
}

/// The signs of several closed terms, by their numbers.
pub(crate) fn rows(
    alloc: Global,
    problem: &Problem<'_>,
    m: &Assignment,
    patterns: &[Pattern],
    numbers: &[u64],
) -> Result<Vec<Seq<Option<bool>>>, AllocError>
    ensures { IfOk result (λ v. v.items ≡ map (λ n. row_of problem.now m.now patterns.now (term_of problem.now n))
        numbers.now) }
{
    let mut rows = Vec::new(alloc);
    let mut rest = numbers;
    while let Some((n, later)) = rest.split_first() {
        let row = number_row(alloc, problem, m, patterns, *n)?;
        rows.push(row)?;
        rest = later;
    }
    Ok(rows)
}

/// The sign at a place of a row; none behind its end.
fn sign_at(signs: &[Option<bool>], place: usize) -> Option<bool>
    ensures { result ≡ sign_in (slice_get signs.now place) }
{
    match signs.get(place) {
        None => None,
        Some(sign) => *sign,
    }
}

/// The sign of an item for a pattern, by their places among rows of signs.
pub(crate) fn sign(rows: &[Seq<Option<bool>>], item: usize, place: usize) -> Option<bool>
    ensures { result ≡ sign_of rows.now item place }
{
    match rows.get(item) {
        None => None,
        Some(row) => sign_at(row.as_slice(), place),
    }
}
