//! The terms that go with a term, by their numbers.
ghost use Rattle.std.specs.Prelude.{◌≡◌, ◌<◌, ◌++◌, [], ◌∷◌, length, map, IfOk, OnOk};
ghost use Rattle.std.specs.List.{AllByRecursion};
ghost use Rattle.sc_sorts.specs.declared.node.BinaryOp.TheVariants as binary;
ghost use Rattle.sc_sorts.specs.declared.node.UnaryOp.TheVariants as unary;
ghost use Rattle.sc_terms.specs.Trees.{one, two};
ghost use Rattle.sc_terms.specs.TreeSorts.{tree_sort};
ghost use Rattle.sc_terms.specs.Tables.{tree, node_parts, AreBelow, Keeps, StandsFor};
ghost use Rattle.sc_terms.specs.Folds.{equal_term, default_term};
ghost use Rattle.sc_term_definitions.specs.Making.{IsSomeTerm, Puts, stood};
ghost use Rattle.sc_closure_rules.specs.Closure as closing;
ghost use Rattle.sc_closure_rules.specs.Beside.{IsBesideOf, rule};

use crate::ancestors::{put_ancestors, put_choices};
use crate::equations::{put_branches, put_equations};
use crate::inside::{is_default, put_inside, put_three};
use crate::sets::{put_common, put_standing, put_within};
use sc_lists::Text;
use sc_schema::Schema;
use sc_sorts::{BinaryOp, Node, UnaryOp, try_clone};
use sc_term_definitions::put_inputs;
use sc_terms::Terms;
use std::alloc::{AllocError, Global};

/// Puts the parts of a term.
fn put_parts(terms: &Terms, n: u64, numbers: &mut Vec<u64>) -> Result<(), AllocError>
    requires { n < length terms.now }
    ensures { OnOk result (Puts terms.now terms.now numbers.old.items numbers.new.items (closing.parts
        (tree terms.now n))) }
{
    match terms.node(n) {
        Node::Leaf(_) => Ok(()),
        Node::One(_, a) => put_these(terms, &[*a], numbers),
        Node::Two(_, a, b) => put_these(terms, &[*a, *b], numbers),
        Node::Choice(c, a, b) => put_these(terms, &[*c, *a, *b], numbers),
        Node::Many(_, parts) => put_labelled(terms, parts.as_slice(), numbers),
    }
}

/// Puts numbers of the table.
#[tactic(auto, using(crate::proofs::FollowLaws::puts_stood))]
fn put_these(terms: &Terms, more: &[u64], numbers: &mut Vec<u64>) -> Result<(), AllocError>
    requires { AllByRecursion (λ n. n < length terms.now) more.now }
    ensures { OnOk result (Puts terms.now terms.now numbers.old.items numbers.new.items (stood terms.now more.now)) }
{
    let _ = terms;
    numbers.extend_from_slice(more)?;
    Ok(())
}

/// Puts parts that have labels.
#[tactic(auto, using(crate::proofs::FollowLaws::labelled_put))]
fn put_labelled(
    terms: &Terms,
    parts: &[(Text, u64)],
    numbers: &mut Vec<u64>,
) -> Result<(), AllocError>
    requires { AreBelow (length terms.now) parts.now }
    ensures { OnOk result (Puts terms.now terms.now numbers.old.items numbers.new.items (closing.trees_in (node_parts
        terms.now parts.now))) }
{
    let _ = terms;
    push_parts(parts, numbers)?;
    Ok(())
}

/// Puts the numbers of parts.
fn push_parts(parts: &[(Text, u64)], numbers: &mut Vec<u64>) -> Result<(), AllocError>
    ensures { OnOk result (numbers.new.items ≡ numbers.old.items ++ map (λ p. p.1) parts.now) }
{
    for part in parts {
        numbers.push(part.1)?;
    }
    Ok(())
}

/// The number of the equation of a term with the default of its sort.
fn is_own_default(alloc: Global, terms: &mut Terms, n: u64) -> Result<u64, AllocError>
    requires { n < length terms.old }
    ensures ok { IfOk result (λ m. StandsFor terms.new m (equal_term (tree terms.old n) (default_term (tree_sort
        (tree terms.old n))))) }
    ensures kept { Keeps terms.old terms.new }
{
    let sort = try_clone(alloc, terms.sort(n))?;
    let outcome = is_default(terms, n, &sort);
    drop(sort);
    outcome
}

/// Puts what goes with a tag: the keys, whether its key is one, and whether it is the default.
#[tactic(auto, using(sc_term_definitions::proofs::MakingLaws::puts_three))]
fn put_tag(
    alloc: Global,
    terms: &mut Terms,
    n: u64,
    entity: u64,
    key: u64,
    numbers: &mut Vec<u64>,
) -> Result<(), AllocError>
    requires n_in { n < length terms.old }
    requires entity_in { entity < length terms.old }
    requires key_in { key < length terms.old }
    ensures ok { OnOk result (Puts terms.old terms.new numbers.old.items numbers.new.items (one unary.Keys
        (tree terms.old entity) ∷ two binary.Member (tree terms.old key) (one unary.Keys (tree terms.old entity))
        ∷ equal_term (tree terms.old n) (default_term (tree_sort (tree terms.old n))) ∷ [])) }
    ensures kept { Keeps terms.old terms.new }
{
    let keys = terms.keys(entity)?;
    let is_key = terms.member(key, keys)?;
    let equation = is_own_default(alloc, terms, n)?;
    put_three(keys, is_key, equation, numbers)?;
    Ok(())
}

/// Which rule brings terms in by a term's row, with the numbers that it speaks of.
#[derive(Clone, Copy)]
enum Beside {
    /// None.
    Nothing,
    /// Of a choice.
    Branches(u64, u64),
    /// Of an entity's ancestors.
    Ancestors(u64),
    /// Of an equation.
    Equations(u64, u64),
    /// Of an entity's tag under a key.
    Tag(u64, u64),
    /// Of whether a term is a member of a set.
    Membership(u64, u64),
    /// Of whether a set is within another.
    Inclusion(u64, u64),
    /// Of whether sets have a member in common.
    Intersection(u64, u64),
}

/// The rule of a node.
fn rule_of(node: &Node) -> Beside
    ensures { result ≡ rule node.now }
{
    match node {
        Node::Choice(_, a, b) => Beside::Branches(*a, *b),
        Node::One(UnaryOp::Ancestors(_), entity) => Beside::Ancestors(*entity),
        Node::Two(BinaryOp::Equal, a, b) => Beside::Equations(*a, *b),
        Node::Two(BinaryOp::Tag(_), entity, key) => Beside::Tag(*entity, *key),
        Node::Two(BinaryOp::Member, x, set) => Beside::Membership(*x, *set),
        Node::Two(BinaryOp::Subset, a, b) => Beside::Inclusion(*a, *b),
        Node::Two(BinaryOp::Common, a, b) => Beside::Intersection(*a, *b),
        _ => Beside::Nothing,
    }
}

/// The rule of a term.
fn rule_at(terms: &Terms, n: u64) -> Beside
    requires { n < length terms.now }
    ensures { IsBesideOf terms.now n result }
{
    rule_of(terms.node(n))
}

/// Puts what goes with a term by its row.
fn put_beside(
    alloc: Global,
    schema: &Schema,
    terms: &mut Terms,
    n: u64,
    numbers: &mut Vec<u64>,
) -> Result<(), AllocError>
    requires { n < length terms.old }
    ensures ok { OnOk result (Puts terms.old terms.new numbers.old.items numbers.new.items (closing.beside schema.now
        (tree terms.old n))) }
    ensures kept { Keeps terms.old terms.new }
{
    match rule_at(terms, n) {
        Beside::Nothing => Ok(()),
        Beside::Branches(a, b) => put_branches(terms, n, a, b, numbers),
        Beside::Ancestors(entity) => put_ancestors(alloc, schema, terms, n, entity, numbers),
        Beside::Equations(a, b) => put_equations(alloc, terms, a, b, numbers),
        Beside::Tag(entity, key) => put_tag(alloc, terms, n, entity, key, numbers),
        Beside::Membership(x, set) => put_standing(alloc, terms, x, set, numbers),
        Beside::Inclusion(a, b) => put_within(alloc, terms, a, b, numbers),
        Beside::Intersection(a, b) => put_common(alloc, terms, a, b, numbers),
    }
}

/// Puts the terms that go with a term, in the order in which they are numbered.
pub fn put_following(
    alloc: Global,
    schema: &Schema,
    terms: &mut Terms,
    n: u64,
    numbers: &mut Vec<u64>,
) -> Result<(), AllocError>
    requires within { n < length terms.old }
    requires term { IsSomeTerm (tree terms.old n) }
    ensures ok { OnOk result (Puts terms.old terms.new numbers.old.items numbers.new.items (closing.follow schema.now
        (tree terms.old n))) }
    ensures kept { Keeps terms.old terms.new }
{
    put_inputs(terms, n, numbers)?;
    put_inside(alloc, terms, n, numbers)?;
    put_choices(alloc, terms, n, numbers)?;
    put_beside(alloc, schema, terms, n, numbers)?;
    put_parts(terms, n, numbers)?;
    Ok(())
}
