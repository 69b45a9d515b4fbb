//! What two terms are places of, as far as they are got by the same steps, and which sets are linked.
ghost use Rattle.std.specs.Prelude.{◌≡◌, ◌<◌, Some, None, length, if◌then◌else◌};
ghost use Rattle.sc_terms.specs.Tables.{tree};
ghost use Rattle.sc_rule_laws.specs.Places.{same_step};
ghost use Rattle.sc_rule_laws.specs.Terms.{one_sort};
ghost use Rattle.sc_closure_rules.specs.Linking.{node_step, AreRoots, same_own, are_tags as both_tags, own_nodes};
ghost use Rattle.sc_closure_rules.specs.Closure as closing;

use sc_sorts::{BinaryOp, Node, UnaryOp};
use sc_terms::Terms;

/// Whether two operators are one step: into the field of a name, or into what an option holds.
fn is_same_step(o: &UnaryOp, q: &UnaryOp) -> bool
    ensures { result ≡ same_step o.now q.now }
{
    match o {
        UnaryOp::Field(m) => match q {
            UnaryOp::Field(n) => m.as_str() == n.as_str(),
            _ => false,
        },
        UnaryOp::Held => matches!(q, UnaryOp::Held),
        _ => false,
    }
}

/// The parts of two nodes that are one step.
fn step_of(x: &Node, y: &Node) -> Option<(u64, u64)>
    ensures { result ≡ node_step x.now y.now }
{
    match x {
        Node::One(o, a) => match y {
            Node::One(q, b) => {
                if is_same_step(o, q) {
                    Some((*a, *b))
                } else {
                    None
                }
            }
            _ => None,
        },
        _ => None,
    }
}

/// What two terms are places of, as far as they are got by the same steps.
#[tactic(auto, using(crate::proofs::LinkingLaws::reached_first, crate::proofs::LinkingLaws::reached_next, crate::proofs::LinkingLaws::reached_last, crate::proofs::LinkingLaws::less_first))]
pub fn roots(terms: &Terms, x: u64, y: u64) -> (u64, u64)
    requires x { x < length terms.now }
    requires y { y < length terms.now }
    ensures { AreRoots terms.now x y result.0 result.1 }
{
    let mut first = x;
    let mut second = y;
    while let Some((a, b)) = step_of(terms.node(first), terms.node(second)) {
        first = a;
        second = b;
    }
    (first, second)
}

/// Whether two operators give the same of an entity: its attributes, its ancestors, or its keys.
fn is_same_own(o: &UnaryOp, q: &UnaryOp) -> bool
    ensures { result ≡ same_own o.now q.now }
{
    match o {
        UnaryOp::Attributes(_) => matches!(q, UnaryOp::Attributes(_)),
        UnaryOp::Ancestors(_) => matches!(q, UnaryOp::Ancestors(_)),
        UnaryOp::Keys => matches!(q, UnaryOp::Keys),
        _ => false,
    }
}

fn are_tags(o: &BinaryOp, q: &BinaryOp) -> bool
    ensures { result ≡ both_tags o.now q.now }
{
    match o {
        BinaryOp::Tag(_) => matches!(q, BinaryOp::Tag(_)),
        _ => false,
    }
}

fn pair_if(test: bool, first: u64, second: u64) -> Option<(u64, u64)>
    ensures { result ≡ (if test then Some (first, second) else None) }
{
    if test { Some((first, second)) } else { None }
}

/// The entities of two nodes that are both attributes, ancestors, keys or tags.
fn owners_of(x: &Node, y: &Node) -> Option<(u64, u64)>
    ensures { result ≡ own_nodes x.now y.now }
{
    match x {
        Node::One(o, e) => match y {
            Node::One(q, f) => pair_if(is_same_own(o, q), *e, *f),
            _ => None,
        },
        Node::Two(o, e, _) => match y {
            Node::Two(q, f, _) => pair_if(are_tags(o, q), *e, *f),
            _ => None,
        },
        _ => None,
    }
}

fn is_one_sort(terms: &Terms, a: u64, b: u64) -> bool
    requires a_in { a < length terms.now }
    requires b_in { b < length terms.now }
    ensures { result ≡ one_sort (tree terms.now a) (tree terms.now b) }
{
    terms.sort(a) == terms.sort(b)
}

/// Whether two terms are of one entity, of its attributes, its ancestors, its keys or its tags, where
/// two entities of one type are equal.
fn are_own(terms: &Terms, a: u64, b: u64) -> bool
    requires a_in { a < length terms.now }
    requires b_in { b < length terms.now }
    ensures { result ≡ closing.own_sets (tree terms.now a) (tree terms.now b) }
{
    match owners_of(terms.node(a), terms.node(b)) {
        Some((e, f)) => is_one_sort(terms, e, f),
        None => false,
    }
}

/// Whether two sets are one where their entities are, and keys of tags.
pub fn are_linked(terms: &Terms, s: u64, t: u64) -> bool
    requires s { s < length terms.now }
    requires t { t < length terms.now }
    ensures { result ≡ closing.are_linked (tree terms.now s) (tree terms.now t) }
{
    if !is_one_sort(terms, s, t) {
        return false;
    }
    let (first, second) = roots(terms, s, t);
    are_own(terms, first, second)
}
