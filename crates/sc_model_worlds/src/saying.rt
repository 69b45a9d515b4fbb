//! Which closed term says what is sought.
ghost use Rattle.std.specs.Prelude.{◌≡◌, ◌<◌, length, IfSome};
ghost use Rattle.sc_model_worlds.specs.Listed.{AreListed, IsListed};
ghost use Rattle.sc_model_worlds.specs.Saying.{are_attributes as attributes_test, first_saying, is_context as context_test, is_principal as principal_test, is_resource as resource_test, is_tag as tag_test, says as saying_test, uid_in};
ghost use Rattle.sc_schema.specs.Declarations.{uid_eq};
ghost use Rattle.sc_term_laws.specs.Tests.{name_of};
ghost use Rattle.sc_terms.specs.Tables.{tree};
ghost use Rattle.sc_terms.specs.TreeSorts.{tree_sort};

use crate::sought::Sought;
use sc_footprint::Problem;
use sc_lists::Text;
use sc_model_values::name_at;
use sc_names::Uid;
use sc_sorts::{BinaryOp, Leaf, Node, Sort, UnaryOp};

/// The name of an entity's type; of another term the empty one.
fn type_name<'a>(problem: &'a Problem<'_>, term: u64) -> &'a str
    requires { term < length problem.now.nodes }
    ensures { result.now ≡ name_of (tree_sort (tree problem.now.nodes term)) }
{
    match problem.terms().sort(term) {
        Sort::Entity(name, _) => name.as_str(),
        _ => "",
    }
}

/// Whether a term is of this entity.
pub(crate) fn is_of(problem: &Problem<'_>, names: &[Text], term: u64, uid: &Uid) -> bool
    requires { term < length problem.now.nodes }
    ensures { result ≡ uid_eq (uid_in problem.now names.now (tree problem.now.nodes term)) uid.now }
{
    let is_of_type = type_name(problem, term) == uid.type_name.as_str();
    let is_named = name_at(problem, names, term) == uid.id.as_str();
    is_of_type && is_named
}

fn is_principal(problem: &Problem<'_>, term: u64) -> bool
    requires { term < length problem.now.nodes }
    ensures { result ≡ principal_test (tree problem.now.nodes term) }
{
    match problem.terms().node(term) {
        Node::Leaf(Leaf::Principal(_)) => true,
        _ => false,
    }
}

fn is_resource(problem: &Problem<'_>, term: u64) -> bool
    requires { term < length problem.now.nodes }
    ensures { result ≡ resource_test (tree problem.now.nodes term) }
{
    match problem.terms().node(term) {
        Node::Leaf(Leaf::Resource(_)) => true,
        _ => false,
    }
}

fn is_context(problem: &Problem<'_>, term: u64) -> bool
    requires { term < length problem.now.nodes }
    ensures { result ≡ context_test (tree problem.now.nodes term) }
{
    match problem.terms().node(term) {
        Node::Leaf(Leaf::Context(_)) => true,
        _ => false,
    }
}

/// Whether a term is the attributes of a term of this entity.
fn are_attributes(problem: &Problem<'_>, names: &[Text], uid: &Uid, term: u64) -> bool
    requires { term < length problem.now.nodes }
    ensures { result ≡ attributes_test problem.now names.now uid.now (tree problem.now.nodes term) }
{
    match problem.terms().node(term) {
        Node::One(UnaryOp::Attributes(_), entity) => is_of(problem, names, *entity, uid),
        _ => false,
    }
}

/// Whether a term is the tag of a term of this entity under a term of this key.
fn is_tag(problem: &Problem<'_>, names: &[Text], uid: &Uid, key: &Text, term: u64) -> bool
    requires { term < length problem.now.nodes }
    ensures { result ≡ tag_test problem.now names.now uid.now key.now (tree problem.now.nodes term) }
{
    match problem.terms().node(term) {
        Node::Two(BinaryOp::Tag(_), entity, at) => {
            let is_its = is_of(problem, names, *entity, uid);
            let is_there = name_at(problem, names, *at) == key.as_str();
            is_its && is_there
        }
        _ => false,
    }
}

/// Whether a term says what is sought.
fn says(problem: &Problem<'_>, names: &[Text], sought: &Sought, term: u64) -> bool
    requires { term < length problem.now.nodes }
    ensures { result ≡ saying_test problem.now names.now sought.now (tree problem.now.nodes term) }
{
    match sought {
        Sought::Principal => is_principal(problem, term),
        Sought::Resource => is_resource(problem, term),
        Sought::Context => is_context(problem, term),
        Sought::Attributes(uid) => are_attributes(problem, names, uid, term),
        Sought::Tag(uid, key) => is_tag(problem, names, uid, key, term),
    }
}

/// The first of some closed terms that says what is sought.
pub(crate) fn first(
    problem: &Problem<'_>,
    names: &[Text],
    sought: &Sought,
    terms: &[u64],
) -> Option<u64>
    requires { AreListed problem.now terms.now }
    ensures value { result ≡ first_saying problem.now names.now sought.now terms.now }
    ensures listed { IfSome result (IsListed problem.now) }
{
    let mut rest = terms;
    while let Some((term, later)) = rest.split_first() {
        if says(problem, names, sought, *term) {
            return Some(*term);
        }
        rest = later;
    }
    None
}
