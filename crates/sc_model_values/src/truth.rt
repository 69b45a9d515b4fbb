//! The truth that an assignment gives to terms.
ghost use Rattle.std.specs.Prelude.{◌≡◌, ◌<◌, false, length, None, IfSome, option_map, unwrap_or};
ghost use Rattle.sc_clauses.specs.Assignments.{value_of};
ghost use Rattle.sc_model_values.specs.Models.{truth_in};
ghost use Rattle.sc_model_laws.specs.Assignments.{lit};
ghost use Rattle.sc_terms.specs.Folds.{under_not as inside_not};
ghost use Rattle.sc_terms.specs.Tables.{tree};

use sc_clauses::{Assignment, Atom};
use sc_footprint::Problem;

/// The value of an atom, `false` where it has none.
fn atom_truth(m: &Assignment, atom: Atom) -> bool
    ensures { result ≡ unwrap_or (value_of m.now atom) false }
{
    match m.value(atom) {
        Some(value) => value,
        None => false,
    }
}

/// The truth of a term that is no negation.
fn plain_truth(problem: &Problem<'_>, m: &Assignment, term: u64) -> bool
    requires { term < length problem.now.nodes }
    ensures { None ≡ inside_not (tree problem.now.nodes term)
        → result ≡ lit (truth_in problem.now m.now) (tree problem.now.nodes term) }
{
    match problem.terms().constant(term) {
        Some(value) => value,
        None => atom_truth(m, problem.literal(term).atom),
    }
}

/// What a negation negates. None exactly of another term.
fn under_not(problem: &Problem<'_>, term: u64) -> Option<u64>
    requires { term < length problem.now.nodes }
    ensures smaller { IfSome result (λ part. part < term) }
    ensures inside { option_map (tree problem.now.nodes) result ≡ inside_not (tree problem.now.nodes term) }
{
    problem.terms().under_not(term)
}

/// The truth of a term.
#[tactic(auto, using(crate::proofs::TruthLaws::truth_step))]
pub(crate) fn truth(problem: &Problem<'_>, m: &Assignment, term: u64) -> bool
    requires { term < length problem.now.nodes }
    ensures { result ≡ lit (truth_in problem.now m.now) (tree problem.now.nodes term) }
{
    let mut at = term;
    let mut negated = false;
    while let Some(part) = under_not(problem, at) {
        at = part;
        negated = !negated;
    }
    let plain = plain_truth(problem, m, at);
    if negated { !plain } else { plain }
}
