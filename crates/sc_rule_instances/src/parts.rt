//! The terms that rules speak of, by their numbers in the table, found without memory.
ghost use Rattle.std.specs.Prelude.{◌≡◌, ◌<◌, ◌+◌, Some, length, find, map, option_map};
ghost use Rattle.std.specs.List.{AllByRecursion};
ghost use Rattle.std.specs.Option.{option_copied};
ghost use Rattle.sc_footprint.specs.Problems.{closed_terms, numbered};
ghost use Rattle.sc_terms.specs.Tables.{tree};
ghost use Rattle.sc_rule_instances.specs.EntityLiterals.{is_entity_literal};
ghost use Rattle.sc_rule_instances.specs.Lookups.{IsClosedFound, IsFoundAmong, IsMembers, IsNumberAmong, is_above as above_test};
ghost use Rattle.sc_rule_laws.specs.Strings.{asked_of};
ghost use Rattle.sc_rule_laws.specs.Terms as term;

use crate::literals::find as find_number;
use sc_footprint::{Kind, Problem};
use sc_lists::Text;
use sc_names::Uid;
use sc_pattern::Pattern;
use sc_sorts::{Leaf, Literal, ManyOp, Node, Sort, UnaryOp};

// ---- sorts

/// Whether two terms are of one sort.
pub fn is_one_sort(problem: &Problem<'_>, a: u64, b: u64) -> bool
    requires a_in { a < length problem.now.nodes }
    requires b_in { b < length problem.now.nodes }
    ensures { result ≡ term.one_sort (tree problem.now.nodes a) (tree problem.now.nodes b) }
{
    problem.terms().sort(a) == problem.terms().sort(b)
}

/// Whether a term is a string or an entity.
pub fn is_sort_named(problem: &Problem<'_>, n: u64) -> bool
    requires { n < length problem.now.nodes }
    ensures { result ≡ term.is_named (tree problem.now.nodes n) }
{
    matches!(problem.terms().sort(n), Sort::String | Sort::Entity(_, _))
}

/// Whether a term is an option.
pub fn is_sort_option(problem: &Problem<'_>, n: u64) -> bool
    requires { n < length problem.now.nodes }
    ensures { result ≡ term.is_option (tree problem.now.nodes n) }
{
    matches!(problem.terms().sort(n), Sort::Option(_))
}

/// Whether a term is a set.
pub fn is_sort_set(problem: &Problem<'_>, n: u64) -> bool
    requires { n < length problem.now.nodes }
    ensures { result ≡ term.is_set (tree problem.now.nodes n) }
{
    matches!(problem.terms().sort(n), Sort::Set(_))
}

/// How many fields a record has. None exactly of another term.
pub fn field_count(problem: &Problem<'_>, n: u64) -> Option<u64>
    requires { n < length problem.now.nodes }
    ensures { result ≡ option_map (λ fs. length fs) (term.fields_of (tree problem.now.nodes n)) }
{
    match problem.terms().sort(n) {
        Sort::Record(fields) => Some(fields.len() as u64),
        _ => None,
    }
}

/// The members of a set term. None exactly of another term.
pub fn members<'a>(problem: &'a Problem<'_>, n: u64) -> Option<&'a [(Text, u64)]>
    requires { n < length problem.now.nodes }
    ensures { IsMembers problem.now.nodes (tree problem.now.nodes n) (option_map (λ ps. ps.now) result) }
{
    match problem.terms().node(n) {
        Node::Many(ManyOp::Set(_), parts) => Some(parts.as_slice()),
        _ => None,
    }
}

// ---- entities

fn is_above(problem: &Problem<'_>, sort: &Sort, entity: u64, n: u64) -> bool
    requires entity_in { entity < length problem.now.nodes }
    requires n_in { n < length problem.now.nodes }
    ensures { result ≡ above_test sort.now (tree problem.now.nodes entity) (tree problem.now.nodes n) }
{
    match problem.terms().node(n) {
        Node::One(UnaryOp::Ancestors(own), of) => {
            *sort == *own && problem.terms().is_same(entity, *of)
        }
        _ => false,
    }
}

/// The first of some terms that is an entity's ancestors of a sort.
fn above_among(problem: &Problem<'_>, sort: &Sort, entity: u64, terms: &[u64]) -> Option<u64>
    requires entity_in { entity < length problem.now.nodes }
    requires terms_in { AllByRecursion (λ t. t < length problem.now.nodes) terms.now }
    ensures { IsNumberAmong problem.now.nodes (find (above_test sort.now (tree problem.now.nodes entity))
        (map (tree problem.now.nodes) terms.now)) result }
{
    let mut rest = terms;
    while let Some((n, later)) = rest.split_first() {
        if is_above(problem, sort, entity, *n) {
            return Some(*n);
        }
        rest = later;
    }
    None
}

/// The closed term that is an entity's ancestors of a sort.
pub fn above(problem: &Problem<'_>, sort: &Sort, entity: u64) -> Option<u64>
    requires { entity < length problem.now.nodes }
    ensures { IsClosedFound problem.now (term.above sort.now (tree problem.now.nodes entity)) result }
{
    above_among(
        problem,
        sort,
        entity,
        problem.shelf(Kind::Ancestors, entity),
    )
}

/// The term of the table that is the keys of an entity's tags.
#[tactic(auto, using(crate::proofs::PartLaws::found_closed))]
pub fn keys(problem: &Problem<'_>, entity: u64) -> Option<u64>
    requires { entity < length problem.now.nodes }
    ensures { IsClosedFound problem.now (term.keys (tree problem.now.nodes entity)) result }
{
    problem.laws();
    find_number(problem, Node::One(UnaryOp::Keys, entity))
}

fn is_literal_of(problem: &Problem<'_>, n: u64, uid: &Uid) -> bool
    requires { n < length problem.now.nodes }
    ensures { result ≡ is_entity_literal uid.now (tree problem.now.nodes n) }
{
    match problem.terms().node(n) {
        Node::Leaf(Leaf::Literal(Literal::Entity(other, _))) => uid.cmp(other).is_eq(),
        _ => false,
    }
}

/// The closed term of a place, counted from 0, by its number in the table.
pub fn closed_at(problem: &Problem<'_>, place: u64) -> u64
    requires { place < length problem.now.closed }
    ensures within { result < length problem.now.nodes }
    ensures number { numbered problem.now.closed (place + 1) ≡ Some result }
{
    problem.laws();
    match problem.term(place + 1) {
        Some(n) => n,
        None => unreachable!(),
    }
}

/// The closed term that is an entity's literal.
pub fn entity(problem: &Problem<'_>, uid: &Uid) -> Option<u64>
    ensures { IsFoundAmong problem.now (find (is_entity_literal uid.now) (closed_terms problem.now)) result }
{
    for place in 0..problem.closed_count() {
        let n = closed_at(problem, place);
        if is_literal_of(problem, n, uid) {
            return Some(n);
        }
    }
    None
}

// ---- patterns

/// The pattern of which a term asks whether a string matches it. None exactly of another term.
pub fn asked_at<'a>(problem: &'a Problem<'_>, n: u64) -> Option<&'a Pattern>
    requires { n < length problem.now.nodes }
    ensures { option_copied result ≡ asked_of (tree problem.now.nodes n) }
{
    match problem.terms().node(n) {
        Node::One(UnaryOp::Like(pattern), _) => Some(pattern),
        _ => None,
    }
}
