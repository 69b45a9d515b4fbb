//! Laws of consistent assignments, of accepted logs and of spent budgets.
ghost use Rattle.std.specs.Prelude.{◌≡◌, ◌<◌, ◌^◌, ℕ, List, length};
ghost use Rattle.sc_clauses.specs.declared.step.Step.{Step as AnyStep};
ghost use Rattle.sc_footprint.specs.Problems.{Posed, IsPosed, atoms, goal_term};
ghost use Rattle.sc_checker.specs.Streams.{IsAcceptedText};
ghost use Rattle.sc_solver.specs.Theories.{HasRule, rule_clause};
ghost use Rattle.sc_solver.specs.Rebuilding.{TruthsAreConsistent};
ghost use Rattle.sc_solver.specs.Solutions.{IsSpent};

use sc_footprint::problem_laws;
use th_defs::defining_laws;

/// The truths of the listed atoms in a well-formed world in which the goal is true are a consistent
/// assignment.
pub fn converse_law()
    ensures { TruthsAreConsistent }
{
    problem_laws();
    defining_laws();
}

/// A text that is that of an accepted log of a problem is one of each problem of the same goal: how the terms of a
/// problem are numbered in its table doesn't matter.
pub fn accepted_law()
    ensures { (p q : Posed) (text : List ℕ) → IsPosed p → IsPosed q → p.schema ≡ q.schema → p.env ≡ q.env
        → goal_term p ≡ goal_term q → IsAcceptedText (HasRule p) (rule_clause p) p text
        → IsAcceptedText (HasRule q) (rule_clause q) q text }
{
    problem_laws();
}

/// A problem that lists n atoms has fewer units than the n-th power of 3: no larger budget is spent.
pub fn unit_law()
    ensures { (p : Posed) (budget : ℕ) (log : List AnyStep) → IsSpent p budget log → budget < 3 ^ length (atoms p) }
{}
