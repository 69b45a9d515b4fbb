//! The literals of the terms that rules speak of, found in a problem's table without memory. A term
//! that isn't in the table has a literal of atom 0, which no instance has.
ghost use Rattle.std.specs.Prelude.{◌≡◌, ◌<◌, None, is_some, length, IfSome, if◌then◌else◌};
ghost use Rattle.sc_clauses.specs.Clauses.{positive, negation as negated};
ghost use Rattle.sc_footprint.specs.Problems.{literal_in};
ghost use Rattle.sc_terms.specs.Finding.{IsFound};
ghost use Rattle.sc_terms.specs.Tables.{tree, node_tree, PartsAreBelow};
ghost use Rattle.sc_terms.specs.Folds.{equal_term, other_equal, equation as equation_of, literals_same, literal_of, absent, present_term, bit_term};
ghost use Rattle.sc_terms.specs.Order.{tree_eq, tree_cmp};
ghost use Rattle.std.specs.Ordering.{is_gt};
ghost use Rattle.sc_terms.specs.Trees.{two};
ghost use Rattle.sc_rule_laws.specs.Terms as term;

use sc_clauses::{Lit, negation};
use sc_footprint::Problem;
use sc_sorts::{BinaryOp, Node, UnaryOp, same_entity};

/// The literal `true`.
pub const TRUE: Lit = Lit {
    atom: 1,
    negated: false,
};

/// The literal `false`.
pub const FALSE: Lit = Lit {
    atom: 1,
    negated: true,
};

/// The literal of a term that isn't in the table.
pub const NOWHERE: Lit = Lit {
    atom: 0,
    negated: false,
};

/// A literal, or its negation where the term is said to be false.
pub fn negated_if(said: bool, lit: Lit) -> Lit
    ensures { result ≡ (if said then lit else negated lit) }
{
    if said { lit } else { negation(lit) }
}

fn of_truth(truth: bool) -> Lit
    ensures { result ≡ (if truth then positive 1 else negated (positive 1)) }
{
    if truth { TRUE } else { FALSE }
}

/// The literal of a term of the table, and that of atom 0 where there is none.
pub fn literal_if(problem: &Problem<'_>, term: Option<u64>) -> Lit
    requires { IfSome term (λ n. n < length problem.now.nodes) }
    ensures some { IfSome term (λ n. result ≡ literal_in problem.now (tree problem.now.nodes n)) }
    ensures none { term ≡ None → result ≡ positive 0 }
{
    match term {
        Some(n) => problem.literal(n),
        None => NOWHERE,
    }
}

/// The number of the term of a node, or none where no term has it.
pub fn find(problem: &Problem<'_>, node: Node) -> Option<u64>
    requires { PartsAreBelow (length problem.now.nodes) node }
    ensures { IsFound problem.now.nodes (node_tree problem.now.nodes node) result }
{
    let found = problem.terms().find(&node);
    drop(node);
    found
}

/// The literal of an operator on two terms, which doesn't fold.
fn of_two(problem: &Problem<'_>, op: BinaryOp, a: u64, b: u64) -> Lit
    requires a_in { a < length problem.now.nodes }
    requires b_in { b < length problem.now.nodes }
    ensures { result ≡ literal_in problem.now (two op (tree problem.now.nodes a) (tree problem.now.nodes b)) }
{
    problem.laws();
    literal_if(problem, find(problem, Node::Two(op, a, b)))
}

/// The literal of `member`: whether a set has a member.
pub fn member(problem: &Problem<'_>, x: u64, set: u64) -> Lit
    requires x_in { x < length problem.now.nodes }
    requires set_in { set < length problem.now.nodes }
    ensures { result ≡ literal_in problem.now (term.member (tree problem.now.nodes x) (tree problem.now.nodes set)) }
{
    of_two(problem, BinaryOp::Member, x, set)
}

/// The literal of `subset`.
pub fn subset(problem: &Problem<'_>, s: u64, t: u64) -> Lit
    requires s_in { s < length problem.now.nodes }
    requires t_in { t < length problem.now.nodes }
    ensures { result ≡ literal_in problem.now (term.subset (tree problem.now.nodes s) (tree problem.now.nodes t)) }
{
    of_two(problem, BinaryOp::Subset, s, t)
}

/// The literal of `common`: whether two sets have a member in common.
pub fn common(problem: &Problem<'_>, s: u64, t: u64) -> Lit
    requires s_in { s < length problem.now.nodes }
    requires t_in { t < length problem.now.nodes }
    ensures { result ≡ literal_in problem.now (term.common (tree problem.now.nodes s) (tree problem.now.nodes t)) }
{
    of_two(problem, BinaryOp::Common, s, t)
}

/// The literal of an equation of two terms that are no constants, and no one term.
fn ordered(problem: &Problem<'_>, a: u64, b: u64) -> Lit
    requires a_in { a < length problem.now.nodes }
    requires b_in { b < length problem.now.nodes }
    ensures { result ≡ literal_in problem.now (equation_of (is_gt (tree_cmp (tree problem.now.nodes a)
        (tree problem.now.nodes b))) (tree problem.now.nodes a) (tree problem.now.nodes b)) }
{
    if problem.terms().compare(a, b).is_gt() {
        of_two(problem, BinaryOp::Equal, b, a)
    } else {
        of_two(problem, BinaryOp::Equal, a, b)
    }
}

/// Whether two different literals have one value. None exactly where one is no literal.
fn same_literals(problem: &Problem<'_>, a: u64, b: u64) -> Option<bool>
    requires a_in { a < length problem.now.nodes }
    requires b_in { b < length problem.now.nodes }
    ensures { result ≡ literals_same (literal_of (tree problem.now.nodes a)) (literal_of (tree problem.now.nodes b)) }
{
    let l = problem.terms().literal_at(a)?;
    let m = problem.terms().literal_at(b)?;
    Some(same_entity(l, m))
}

/// The literal of an equation of two terms that are no truth values of their own.
#[tactic(auto, using(crate::proofs::LiteralLaws::literal_truth))]
fn equation(problem: &Problem<'_>, a: u64, b: u64) -> Lit
    requires a_in { a < length problem.now.nodes }
    requires b_in { b < length problem.now.nodes }
    ensures { result ≡ literal_in problem.now (other_equal (tree_eq (tree problem.now.nodes a)
        (tree problem.now.nodes b)) (literals_same (literal_of (tree problem.now.nodes a)) (literal_of
        (tree problem.now.nodes b))) (tree problem.now.nodes a) (tree problem.now.nodes b)) }
{
    problem.laws();
    if problem.terms().is_same(a, b) {
        return of_truth(true);
    }
    match same_literals(problem, a, b) {
        Some(same) => of_truth(same),
        None => ordered(problem, a, b),
    }
}

/// The literal of an equation, whatever it folds to.
#[tactic(auto, using(crate::proofs::LiteralLaws::literal_not), unfolding(sc_terms::specs::Folds::equal_term))]
pub fn equal(problem: &Problem<'_>, a: u64, b: u64) -> Lit
    requires a_in { a < length problem.now.nodes }
    requires b_in { b < length problem.now.nodes }
    ensures { result ≡ literal_in problem.now (equal_term (tree problem.now.nodes a) (tree problem.now.nodes b)) }
{
    problem.laws();
    let terms = problem.terms();
    match (terms.constant(a), terms.constant(b)) {
        (Some(true), _) => problem.literal(b),
        (Some(false), _) => negation(problem.literal(b)),
        (None, Some(true)) => problem.literal(a),
        (None, Some(false)) => negation(problem.literal(a)),
        (None, None) => equation(problem, a, b),
    }
}

/// Whether a term is an absent option.
fn is_absent(problem: &Problem<'_>, option: u64) -> bool
    requires { option < length problem.now.nodes }
    ensures { result ≡ is_some (absent (tree problem.now.nodes option)) }
{
    match problem.terms().absent(option) {
        Some(_) => true,
        None => false,
    }
}

/// The literal of `present`: whether an option holds a value.
pub fn present(problem: &Problem<'_>, option: u64) -> Lit
    requires { option < length problem.now.nodes }
    ensures { result ≡ literal_in problem.now (present_term (tree problem.now.nodes option)) }
{
    problem.laws();
    if is_absent(problem, option) {
        return of_truth(false);
    }
    literal_if(problem, find(problem, Node::One(UnaryOp::Present, option)))
}

/// The literal of a bit of a term that is no literal.
pub fn bit(problem: &Problem<'_>, n: u64, place: u64) -> Lit
    requires within { n < length problem.now.nodes }
    requires other { literal_of (tree problem.now.nodes n) ≡ None }
    ensures { result ≡ literal_in problem.now (bit_term (tree problem.now.nodes n) place) }
{
    problem.laws();
    literal_if(problem, find(problem, Node::One(UnaryOp::Bit(place), n)))
}
