//! The terms of what is stored of entities, and their literals.
ghost use Rattle.std.specs.Prelude.{◌≡◌, ◌<◌, length};
ghost use Rattle.sc_terms.specs.Tables.{tree};
ghost use Rattle.sc_terms.specs.Folds.{equal_term};
ghost use Rattle.sc_footprint.specs.Problems.{literal_in};
ghost use Rattle.sc_rule_instances.specs.Clauses.{literal_for};
ghost use Rattle.sc_rule_laws.specs.Entities.{same_sets};
ghost use Rattle.sc_rule_laws.specs.Terms as term;
ghost use Rattle.th_entities_instances.specs.Rows.{are_ancestors_of as ancestors_test, are_same_sets as sets_test, is_tag as tag_test, moved, owner as owner_of, tag_entity as entity_of, tag_key as key_of};

use sc_clauses::Lit;
use sc_footprint::{Problem, problem_laws};
use sc_rule_instances::{NOWHERE, above, equal, keys, member, negated_if};
use sc_sorts::{BinaryOp, Node, Sort, UnaryOp};

// ---- sets

/// Whether two operators give the same of an entity: its ancestors of one type, or its keys.
fn is_same_set(o: &UnaryOp, q: &UnaryOp) -> bool
    ensures { result ≡ same_sets o.now q.now }
{
    match o {
        UnaryOp::Ancestors(k) => match q {
            UnaryOp::Ancestors(l) => *k == *l,
            _ => false,
        },
        UnaryOp::Keys => matches!(q, UnaryOp::Keys),
        _ => false,
    }
}

/// Whether two sets are stored of entities, and are of one kind.
pub(crate) fn are_same_sets(problem: &Problem<'_>, s: u64, z: u64) -> bool
    requires s { s < length problem.now.nodes }
    requires z { z < length problem.now.nodes }
    ensures { result ≡ sets_test (tree problem.now.nodes s) (tree problem.now.nodes z) }
{
    match problem.terms().node(s) {
        Node::One(o, _) => match problem.terms().node(z) {
            Node::One(q, _) => is_same_set(o, q),
            _ => false,
        },
        _ => false,
    }
}

/// The entity that a set is stored of.
pub(crate) fn owner(problem: &Problem<'_>, s: u64) -> u64
    requires { s < length problem.now.nodes }
    ensures within { result < length problem.now.nodes }
    ensures value { tree problem.now.nodes result ≡ owner_of (tree problem.now.nodes s) }
{
    match problem.terms().node(s) {
        Node::One(_, e) => *e,
        _ => s,
    }
}

/// Whether a term is the ancestors of an entity.
pub(crate) fn are_ancestors_of(problem: &Problem<'_>, f: u64, s: u64) -> bool
    requires f { f < length problem.now.nodes }
    requires s { s < length problem.now.nodes }
    ensures { result ≡ ancestors_test (tree problem.now.nodes f) (tree problem.now.nodes s) }
{
    match problem.terms().node(s) {
        Node::One(UnaryOp::Ancestors(_), g) => problem.terms().is_same(f, *g),
        _ => false,
    }
}

// ---- tags

pub(crate) fn is_tag(problem: &Problem<'_>, a: u64) -> bool
    requires { a < length problem.now.nodes }
    ensures { result ≡ tag_test (tree problem.now.nodes a) }
{
    match problem.terms().node(a) {
        Node::Two(BinaryOp::Tag(_), _, _) => true,
        _ => false,
    }
}

/// The entity of a tag.
pub(crate) fn tag_entity(problem: &Problem<'_>, a: u64) -> u64
    requires { a < length problem.now.nodes }
    ensures within { result < length problem.now.nodes }
    ensures value { tree problem.now.nodes result ≡ entity_of (tree problem.now.nodes a) }
{
    match problem.terms().node(a) {
        Node::Two(BinaryOp::Tag(_), e, _) => *e,
        _ => a,
    }
}

/// The key of a tag.
pub(crate) fn tag_key(problem: &Problem<'_>, a: u64) -> u64
    requires { a < length problem.now.nodes }
    ensures within { result < length problem.now.nodes }
    ensures value { tree problem.now.nodes result ≡ key_of (tree problem.now.nodes a) }
{
    match problem.terms().node(a) {
        Node::Two(BinaryOp::Tag(_), _, k) => *k,
        _ => a,
    }
}

// ---- literals

/// The literal of the equation of two terms, or its negation where it is said to be false.
pub(crate) fn pair_equal(problem: &Problem<'_>, x: u64, y: u64, said: bool) -> Lit
    requires x { x < length problem.now.nodes }
    requires y { y < length problem.now.nodes }
    ensures { result ≡ literal_for problem.now
        (said, equal_term (tree problem.now.nodes x) (tree problem.now.nodes y)) }
{
    negated_if(said, equal(problem, x, y))
}

/// The literal whether a set has a member, or its negation.
pub(crate) fn pair_member(problem: &Problem<'_>, x: u64, set: u64, said: bool) -> Lit
    requires x { x < length problem.now.nodes }
    requires set { set < length problem.now.nodes }
    ensures { result ≡ literal_for problem.now
        (said, term.member (tree problem.now.nodes x) (tree problem.now.nodes set)) }
{
    negated_if(said, member(problem, x, set))
}

/// The literal of a term being an ancestor, of a sort, of an entity.
pub(crate) fn above_literal(problem: &Problem<'_>, x: u64, sort: &Sort, e: u64) -> Lit
    requires x { x < length problem.now.nodes }
    requires e { e < length problem.now.nodes }
    ensures { result ≡ literal_in problem.now (term.member (tree problem.now.nodes x) (term.above sort.now
        (tree problem.now.nodes e))) }
{
    problem.laws();
    problem_laws();
    match above(problem, sort, e) {
        Some(set) => member(problem, x, set),
        None => NOWHERE,
    }
}

/// The literal of a term being a key of an entity's tags.
pub(crate) fn key_literal(problem: &Problem<'_>, key: u64, e: u64) -> Lit
    requires key { key < length problem.now.nodes }
    requires e { e < length problem.now.nodes }
    ensures { result ≡ literal_in problem.now (term.member (tree problem.now.nodes key) (term.keys
        (tree problem.now.nodes e))) }
{
    problem.laws();
    problem_laws();
    match keys(problem, e) {
        Some(set) => member(problem, key, set),
        None => NOWHERE,
    }
}

/// The literal of a term being an ancestor of an entity, of the sort of other ancestors.
pub(crate) fn moved_literal(problem: &Problem<'_>, x: u64, s: u64, e: u64) -> Lit
    requires x { x < length problem.now.nodes }
    requires s { s < length problem.now.nodes }
    requires e { e < length problem.now.nodes }
    ensures { result ≡ literal_in problem.now (term.member (tree problem.now.nodes x) (moved (tree problem.now.nodes s)
        (tree problem.now.nodes e))) }
{
    match problem.terms().node(s) {
        Node::One(UnaryOp::Ancestors(sort), _) => above_literal(problem, x, sort, e),
        _ => member(problem, x, s),
    }
}
