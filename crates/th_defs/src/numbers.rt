//! Numbers of defining clauses, told without making the clauses.
ghost use Rattle.std.specs.Prelude.{◌≡◌, ◌-◌, [], true, OnOk};
ghost use Rattle.std.specs.List.{slice_index_or};
ghost use Rattle.sc_footprint.specs.Definitions.{defining};
ghost use Rattle.th_defs.specs.Instances.{is_before_last};
ghost use Rattle.th_defs.specs.Numbers.{IsFalsifiedNumber};

use crate::clauses::{falsified_number, fill_kept, kept_count};
use crate::item::{item_at, item_count};
use sc_clauses::{Assignment, Lit};
use sc_footprint::{Problem, problem_laws};
use std::alloc::AllocError;

/// Whether a number is that of a defining clause but the last, which is the goal's.
pub(crate) fn is_number(problem: &Problem<'_>, number: u64) -> bool
    ensures { result ≡ is_before_last (defining problem.now) number }
{
    if number == 0 {
        return false;
    }
    problem.laws();
    problem_laws();
    let mut left = number;
    for place in 0..item_count(problem) {
        let count = kept_count(problem, item_at(problem, place));
        if left <= count {
            return true;
        }
        left -= count;
    }
    false
}

/// The number of the first defining clause but the last that an assignment falsifies.
pub(crate) fn first_falsified(problem: &Problem<'_>, m: &Assignment) -> Option<u64>
    ensures { IsFalsifiedNumber m.now (defining problem.now) result }
{
    problem.laws();
    problem_laws();
    let mut before = 0;
    for place in 0..item_count(problem) {
        let item = item_at(problem, place);
        if let Some(number) = falsified_number(problem, m, item) {
            return Some(before + number);
        }
        before += kept_count(problem, item);
    }
    None
}

/// Puts the literals of the defining clause of a number into an empty list.
pub(crate) fn fill_number(
    problem: &Problem<'_>,
    number: u64,
    literals: &mut Vec<Lit>,
) -> Result<(), AllocError>
    requires { is_before_last (defining problem.now) number ≡ true }
    ensures { OnOk result (literals.new.items ≡ slice_index_or (defining problem.now) (number - 1) []) }
{
    problem.laws();
    problem_laws();
    let mut left = number;
    for place in 0..item_count(problem) {
        let item = item_at(problem, place);
        let count = kept_count(problem, item);
        if left <= count {
            return fill_kept(problem, item, left, literals);
        }
        left -= count;
    }
    unreachable!()
}
