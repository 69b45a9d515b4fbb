//! EN7, EN8 and EQ9: declared actions, choices, and the literals of their equations with a term.
ghost use Rattle.std.specs.Prelude.{◌≡◌, ◌<◌, ◌^◌, ◌∷◌, [], None, IfNone, IfSome, if◌then◌else◌, length, option_map, slice_get};
ghost use Rattle.std.specs.Option.{option_copied};
ghost use Rattle.std.specs.Str.{bytes_eq};
ghost use Rattle.sc_footprint.specs.Problems.{literal_in};
ghost use Rattle.sc_rule_laws.specs.Entities.{is_acting as acting_test, is_literal_of as one_of_test, is_uid_in};
ghost use Rattle.sc_rule_laws.specs.Terms.{choices_in, entity as entity_term};
ghost use Rattle.sc_sorts.specs.Entities.{of_type_name};
ghost use Rattle.sc_terms.specs.Tables.{tree};
ghost use Rattle.sc_terms.specs.Folds.{equal_term, literal_of as literal_in_tree};
ghost use Rattle.th_entities_instances.specs.Rows.{above_name as name_of, declared_above as above_of, declared_in, literal_equal};

use sc_clauses::Lit;
use sc_footprint::{Problem, problem_laws};
use sc_names::Uid;
use sc_rule_instances::{FALSE, NOWHERE, TRUE, entity, equal, negated_if};
use sc_schema::{action_ancestors, is_action_type};
use sc_sorts::{Leaf, Literal, Node, Sort, UnaryOp};

// ---- equations with an entity

/// The literal of the equation of a literal with an entity.
fn literal_literal(literal: &Literal, uid: &Uid) -> Lit
    ensures { result ≡ literal_equal literal.now uid.now }
{
    match literal {
        Literal::Bool(truth) => negated_if(*truth, NOWHERE),
        Literal::Entity(other, _) => negated_if(other.cmp(uid).is_eq(), TRUE),
        _ => FALSE,
    }
}

/// The literal of the equation of a term that is no literal with an entity.
fn other_literal(problem: &Problem<'_>, x: u64, uid: &Uid) -> Lit
    requires x { x < length problem.now.nodes }
    requires other { literal_in_tree (tree problem.now.nodes x) ≡ None }
    ensures { result ≡ literal_in problem.now (equal_term (tree problem.now.nodes x) (entity_term problem.now.schema
        uid.now)) }
{
    problem.laws();
    problem_laws();
    match entity(problem, uid) {
        Some(found) => equal(problem, x, found),
        None => NOWHERE,
    }
}

/// The literal of a term's equation with an entity, which needn't be closed where the term is a
/// literal.
pub(crate) fn entity_equal(problem: &Problem<'_>, x: u64, uid: &Uid) -> Lit
    requires { x < length problem.now.nodes }
    ensures { result ≡ literal_in problem.now (equal_term (tree problem.now.nodes x) (entity_term problem.now.schema
        uid.now)) }
{
    problem.laws();
    problem_laws();
    match problem.terms().literal_at(x) {
        Some(literal) => literal_literal(literal, uid),
        None => other_literal(problem, x, uid),
    }
}

// ---- the entities that a term may be

/// The entities that a term's sort lists.
pub(crate) fn choices_of<'a>(problem: &'a Problem<'_>, x: u64) -> &'a [Uid]
    requires { x < length problem.now.nodes }
    ensures { result.now ≡ choices_in (tree problem.now.nodes x) }
{
    match problem.terms().sort(x) {
        Sort::Entity(_, choices) => choices.as_slice(),
        _ => &[],
    }
}

/// Whether a term's type is one of actions.
pub(crate) fn is_acting(problem: &Problem<'_>, x: u64) -> bool
    requires { x < length problem.now.nodes }
    ensures { result ≡ acting_test problem.now.schema (tree problem.now.nodes x) }
{
    match problem.terms().sort(x) {
        Sort::Entity(name, _) => is_action_type(problem.schema(), name),
        _ => false,
    }
}

/// The uid at a place.
pub(crate) fn uid_at<'a>(uids: &'a [Uid], place: u128) -> Option<&'a Uid>
    ensures { place < length uids.now → option_copied result ≡ slice_get uids.now place }
{
    if place >= uids.len() as u128 {
        return None;
    }
    uids.get(place as usize)
}

// ---- declared ancestors

/// Whether a uid is of a type.
fn is_of_type(name: &str, uid: &Uid) -> bool
    ensures { result ≡ bytes_eq name.now uid.now.type_name }
{
    name == uid.type_name.as_str()
}

/// The first uid of a type, and those after it.
fn next_of_type<'a>(name: &str, uids: &'a [Uid]) -> Option<(&'a Uid, &'a [Uid])>
    ensures some { IfSome result (λ x. of_type_name name.now uids.now ≡ x.0.now ∷ of_type_name name.now x.1.now) }
    ensures none { IfNone result (of_type_name name.now uids.now ≡ []) }
{
    let mut rest = uids;
    while let Some((uid, later)) = rest.split_first() {
        if is_of_type(name, uid) {
            return Some((uid, later));
        }
        rest = later;
    }
    None
}

fn one_if(test: bool) -> u128
    ensures { result ≡ (if test then 1 else 0) }
{
    if test { 1 } else { 0 }
}

/// How many uids are of a type.
pub(crate) fn count_of_type(name: &str, uids: &[Uid]) -> u128
    ensures value { result ≡ length (of_type_name name.now uids.now) }
    ensures small { result < 2 ^ 64 }
{
    let _most = uids.len();
    let mut count = 0;
    let mut rest = uids;
    while let Some((uid, later)) = rest.split_first() {
        count += one_if(is_of_type(name, uid));
        rest = later;
    }
    count
}

/// The uid of a type at a place.
pub(crate) fn of_type_at<'a>(name: &str, uids: &'a [Uid], place: u128) -> Option<&'a Uid>
    ensures { option_copied result ≡ slice_get (of_type_name name.now uids.now) place }
{
    let mut left = place;
    let mut rest = uids;
    while let Some((uid, later)) = next_of_type(name, rest) {
        if left == 0 {
            return Some(uid);
        }
        left -= 1;
        rest = later;
    }
    None
}

/// Whether a uid is one of those of a type.
fn is_among(uid: &Uid, name: &str, uids: &[Uid]) -> bool
    ensures { result ≡ is_uid_in (of_type_name name.now uids.now) uid.now }
{
    let mut rest = uids;
    while let Some((other, later)) = next_of_type(name, rest) {
        if uid.cmp(other).is_eq() {
            return true;
        }
        rest = later;
    }
    false
}

/// Whether a term is the literal of a uid of a type.
pub(crate) fn is_one_of(problem: &Problem<'_>, x: u64, name: &str, uids: &[Uid]) -> bool
    requires { x < length problem.now.nodes }
    ensures { result ≡ one_of_test (of_type_name name.now uids.now) (tree problem.now.nodes x) }
{
    match problem.terms().node(x) {
        Node::Leaf(Leaf::Literal(Literal::Entity(uid, _))) => is_among(uid, name, uids),
        _ => false,
    }
}

/// The declared ancestors of an action that a term is the literal of.
fn declared_of<'a>(problem: &'a Problem<'_>, e: u64) -> Option<&'a [Uid]>
    requires { e < length problem.now.nodes }
    ensures { option_map (λ us. us.now) result ≡ declared_in problem.now.schema (tree problem.now.nodes e) }
{
    match problem.terms().node(e) {
        Node::Leaf(Leaf::Literal(Literal::Entity(uid, _))) => {
            action_ancestors(problem.schema(), uid)
        }
        _ => None,
    }
}

/// The declared ancestors of the action that ancestors are of.
pub(crate) fn declared_above<'a>(problem: &'a Problem<'_>, s: u64) -> Option<&'a [Uid]>
    requires { s < length problem.now.nodes }
    ensures { option_map (λ us. us.now) result ≡ above_of problem.now.schema (tree problem.now.nodes s) }
{
    match problem.terms().node(s) {
        Node::One(UnaryOp::Ancestors(_), e) => declared_of(problem, *e),
        _ => None,
    }
}

/// The type of ancestors.
pub(crate) fn above_name<'a>(problem: &'a Problem<'_>, s: u64) -> &'a str
    requires { s < length problem.now.nodes }
    ensures { result.now ≡ name_of (tree problem.now.nodes s) }
{
    match problem.terms().node(s) {
        Node::One(UnaryOp::Ancestors(Sort::Entity(name, _)), _) => name.as_str(),
        _ => "",
    }
}
