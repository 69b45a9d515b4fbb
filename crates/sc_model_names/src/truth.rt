//! The truth that an assignment gives to terms.
ghost use Rattle.std.specs.Prelude.{◌≡◌, ◌<◌, length, IfOk};
ghost use Rattle.sc_model_values.specs.Models.{truth_in};
ghost use Rattle.sc_model_laws.specs.Assignments.{lit as truth_of};
ghost use Rattle.sc_model_laws.specs.Names.{are_equal};
ghost use Rattle.sc_model_names.specs.Truths.{atom_truth as atom_truth_in, literal_truth as literal_truth_in};
ghost use Rattle.sc_terms.specs.Folds.{like_term};
ghost use Rattle.sc_terms.specs.Tables.{tree};
ghost use Rattle.sc_terms.specs.Trees.{one};
ghost use Rattle.sc_sorts.specs.declared.node.UnaryOp.TheVariants.{Like as like_op};

use sc_clauses::{Assignment, Atom, Lit};
use sc_footprint::Problem;
use sc_pattern::Pattern;
use sc_rule_instances::{equal, find, literal_if};
use sc_sorts::{Node, UnaryOp, literal_like};
use std::alloc::{AllocError, Global};

/// The truth of an atom.
fn atom_truth(m: &Assignment, atom: Atom) -> bool
    ensures { result ≡ atom_truth_in m.now atom }
{
    if atom == 1 {
        return true;
    }
    match m.value(atom) {
        Some(value) => value,
        None => false,
    }
}

/// The truth of a literal.
fn literal_truth(m: &Assignment, lit: Lit) -> bool
    ensures { result ≡ literal_truth_in m.now lit }
{
    if lit.negated {
        !atom_truth(m, lit.atom)
    } else {
        atom_truth(m, lit.atom)
    }
}

/// Whether two terms are equal under an assignment.
pub fn is_equal(problem: &Problem<'_>, m: &Assignment, a: u64, b: u64) -> bool
    requires a_in { a < length problem.now.nodes }
    requires b_in { b < length problem.now.nodes }
    ensures { result ≡ are_equal (truth_in problem.now m.now) (tree problem.now.nodes a) (tree problem.now.nodes b) }
{
    problem.laws();
    literal_truth(m, equal(problem, a, b))
}

/// Whether what is no literal matches a pattern.
fn is_like_other(problem: &Problem<'_>, m: &Assignment, x: u64, pattern: Pattern) -> bool
    requires { x < length problem.now.nodes }
    ensures { result ≡ truth_of (truth_in problem.now m.now) (one (like_op pattern) (tree problem.now.nodes x)) }
{
    problem.laws();
    let node = Node::One(UnaryOp::Like(pattern), x);
    literal_truth(m, literal_if(problem, find(problem, node)))
}

/// Whether a string matches a pattern under an assignment.
#[tactic(auto, unfolding(sc_terms::specs::Folds::like_term, sc_model_laws::specs::Assignments::lit))]
pub(crate) fn is_like(
    alloc: Global,
    problem: &Problem<'_>,
    m: &Assignment,
    x: u64,
    pattern: &Pattern,
) -> Result<bool, AllocError>
    requires { x < length problem.now.nodes }
    ensures { IfOk result (λ b. b ≡ truth_of (truth_in problem.now m.now) (like_term (tree problem.now.nodes x)
        pattern.now)) }
{
    match problem.terms().literal_at(x) {
        Some(literal) => Ok(literal_like(literal, pattern)),
        None => {
            let own = pattern.try_clone(alloc)?;
            Ok(is_like_other(problem, m, x, own))
        }
    }
}
