//! The literal of whether a string matches a pattern.
ghost use Rattle.std.specs.Prelude.{◌≡◌, ◌<◌, length, IfOk, if◌then◌else◌};
ghost use Rattle.sc_clauses.specs.Clauses.{positive, negation as negated};
ghost use Rattle.sc_footprint.specs.Problems.{literal_in};
ghost use Rattle.sc_sorts.specs.declared.node.UnaryOp.TheVariants.{Like};
ghost use Rattle.sc_rule_laws.specs.Terms.{is_string};
ghost use Rattle.sc_terms.specs.Folds.{like_term};
ghost use Rattle.sc_terms.specs.Tables.{tree};
ghost use Rattle.sc_terms.specs.Trees.{one};

use sc_clauses::Lit;
use sc_footprint::Problem;
use sc_pattern::Pattern;
use sc_rule_instances::{FALSE, TRUE, find, literal_if};
use sc_sorts::{Node, Sort, UnaryOp, literal_like};
use std::alloc::{AllocError, Global};

/// Whether a term is a string.
pub fn is_sort_string(problem: &Problem<'_>, n: u64) -> bool
    requires { n < length problem.now.nodes }
    ensures { result ≡ is_string (tree problem.now.nodes n) }
{
    matches!(problem.terms().sort(n), Sort::String)
}

fn of_truth(truth: bool) -> Lit
    ensures { result ≡ (if truth then positive 1 else negated (positive 1)) }
{
    if truth { TRUE } else { FALSE }
}

/// The literal of a match that doesn't fold.
fn found_like(
    alloc: Global,
    problem: &Problem<'_>,
    text: u64,
    pattern: &Pattern,
) -> Result<Lit, AllocError>
    requires { text < length problem.now.nodes }
    ensures { IfOk result (λ l. l ≡ literal_in problem.now (one (Like pattern.now) (tree problem.now.nodes text))) }
{
    problem.laws();
    let node = Node::One(UnaryOp::Like(pattern.try_clone(alloc)?), text);
    Ok(literal_if(problem, find(problem, node)))
}

/// The literal of whether a string matches a pattern, whatever it folds to.
#[tactic(auto, using(sc_rule_instances::proofs::LiteralLaws::literal_truth), unfolding(sc_terms::specs::Folds::like_term))]
pub fn like(
    alloc: Global,
    problem: &Problem<'_>,
    text: u64,
    pattern: &Pattern,
) -> Result<Lit, AllocError>
    requires { text < length problem.now.nodes }
    ensures { IfOk result (λ l. l ≡ literal_in problem.now (like_term (tree problem.now.nodes text) pattern.now)) }
{
    problem.laws();
    match problem.terms().literal_at(text) {
        Some(literal) => Ok(of_truth(literal_like(literal, pattern))),
        None => found_like(alloc, problem, text, pattern),
    }
}
