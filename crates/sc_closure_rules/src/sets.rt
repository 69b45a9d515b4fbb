//! What goes with what is asked of sets: of a set term by those that stand there, of other sets by a
//! member that is picked.
ghost use Rattle.std.specs.Prelude.{◌≡◌, ◌<◌, ◌++◌, [], ◌∷◌, length, map, Some, None, option_map, IfOk, IfSome, OnOk};
ghost use Rattle.std.specs.List.{AllByRecursion};
ghost use Rattle.std.specs.Option.{option_copied};
ghost use Rattle.sc_sorts.specs.declared.node.BinaryOp.TheVariants as binary;
ghost use Rattle.sc_terms.specs.Trees.{two};
ghost use Rattle.sc_terms.specs.Tables.{tree, Keeps};
ghost use Rattle.sc_terms.specs.Folds.{equal_term};
ghost use Rattle.sc_term_definitions.specs.Making.{Puts, stood};
ghost use Rattle.sc_rule_laws.specs.Terms.{written};
ghost use Rattle.sc_closure_rules.specs.Closure as closing;
ghost use Rattle.sc_closure_rules.specs.Beside.{set_parts as parts_of_set};

use sc_lists::Seq;
use sc_sorts::{ManyOp, Node, Parts};
use sc_terms::Terms;
use std::alloc::{AllocError, Global};

/// The parts of a set term's node.
fn set_parts(node: &Node) -> Option<&Parts>
    ensures { option_copied result ≡ parts_of_set node.now }
{
    match node {
        Node::Many(ManyOp::Set(_), parts) => Some(parts),
        _ => None,
    }
}

/// The numbers of parts.
fn part_numbers(alloc: Global, parts: &Parts) -> Result<Seq<u64>, AllocError>
    ensures { IfOk result (λ ms. ms ≡ map (λ p. p.1) parts.now) }
{
    let mut members = Seq::new(alloc);
    for part in parts.as_slice() {
        members.push(part.1)?;
    }
    Ok(members)
}

/// The numbers of the parts of a set term.
fn standing_in(alloc: Global, parts: &Parts) -> Result<Option<Seq<u64>>, AllocError>
    ensures { IfOk result (λ o. o ≡ Some (map (λ p. p.1) parts.now)) }
{
    let members = part_numbers(alloc, parts)?;
    Ok(Some(members))
}

/// The numbers of the terms that stand in a set term, if a term is one.
fn standing(alloc: Global, terms: &Terms, n: u64) -> Result<Option<Seq<u64>>, AllocError>
    requires { n < length terms.now }
    ensures within { IfOk result (λ o. IfSome o (AllByRecursion (λ m. m < length terms.now))) }
    ensures ok { IfOk result (λ o. option_map (stood terms.now) o ≡ written (tree terms.now n)) }
{
    match set_parts(terms.node(n)) {
        Some(parts) => standing_in(alloc, parts),
        None => Ok(None),
    }
}

/// Puts the equations of a term with each of these.
fn put_equal_to_each(
    terms: &mut Terms,
    n: u64,
    others: &[u64],
    numbers: &mut Vec<u64>,
) -> Result<(), AllocError>
    requires n_in { n < length terms.old }
    requires others_in { AllByRecursion (λ m. m < length terms.old) others.now }
    ensures ok { OnOk result (Puts terms.old terms.new numbers.old.items numbers.new.items (map (equal_term
        (tree terms.old n)) (stood terms.old others.now))) }
    ensures kept { Keeps terms.old terms.new }
{
    for other in others {
        let m = terms.equal(n, *other)?;
        numbers.push(m)?;
    }
    Ok(())
}

/// Puts whether each of these is a member of a set.
fn put_memberships(
    terms: &mut Terms,
    others: &[u64],
    set: u64,
    numbers: &mut Vec<u64>,
) -> Result<(), AllocError>
    requires others_in { AllByRecursion (λ m. m < length terms.old) others.now }
    requires set_in { set < length terms.old }
    ensures ok { OnOk result (Puts terms.old terms.new numbers.old.items numbers.new.items (closing.memberships (stood
        terms.old others.now) (tree terms.old set))) }
    ensures kept { Keeps terms.old terms.new }
{
    for other in others {
        let m = terms.member(*other, set)?;
        numbers.push(m)?;
    }
    Ok(())
}

/// Puts the equations of a term with those that stand in a set term, if there are any.
#[tactic(auto, using(sc_term_definitions::proofs::MakingLaws::puts_nothing))]
fn put_standing_if(
    terms: &mut Terms,
    n: u64,
    members: &Option<Seq<u64>>,
    numbers: &mut Vec<u64>,
) -> Result<(), AllocError>
    requires n_in { n < length terms.old }
    requires members_in { IfSome members.now (AllByRecursion (λ m. m < length terms.old)) }
    ensures ok { OnOk result (Puts terms.old terms.new numbers.old.items numbers.new.items (closing.standing_by
        (option_map (stood terms.old) members.now) (tree terms.old n))) }
    ensures kept { Keeps terms.old terms.new }
{
    match members {
        Some(standing) => put_equal_to_each(terms, n, standing.as_slice(), numbers),
        None => Ok(()),
    }
}

/// Puts what goes with whether a term is a member of a set.
pub(crate) fn put_standing(
    alloc: Global,
    terms: &mut Terms,
    n: u64,
    set: u64,
    numbers: &mut Vec<u64>,
) -> Result<(), AllocError>
    requires n_in { n < length terms.old }
    requires set_in { set < length terms.old }
    ensures ok { OnOk result (Puts terms.old terms.new numbers.old.items numbers.new.items (closing.standing_by (written
        (tree terms.old set)) (tree terms.old n))) }
    ensures kept { Keeps terms.old terms.new }
{
    let members = standing(alloc, terms, set)?;
    let outcome = put_standing_if(terms, n, &members, numbers);
    drop(members);
    outcome
}

/// Puts a member that is picked, and whether it is one of each of two sets.
#[tactic(auto, using(sc_term_definitions::proofs::MakingLaws::puts_three))]
fn put_picked(
    terms: &mut Terms,
    pick: u64,
    a: u64,
    b: u64,
    numbers: &mut Vec<u64>,
) -> Result<(), AllocError>
    requires pick_in { pick < length terms.old }
    requires a_in { a < length terms.old }
    requires b_in { b < length terms.old }
    ensures ok { OnOk result (Puts terms.old terms.new numbers.old.items numbers.new.items (closing.picked
        (tree terms.old pick) (tree terms.old a) (tree terms.old b))) }
    ensures kept { Keeps terms.old terms.new }
{
    let first = terms.member(pick, a)?;
    let second = terms.member(pick, b)?;
    numbers.extend_from_slice(&[pick, first, second])?;
    Ok(())
}

/// Puts what tells whether a set that is no set term is within another.
fn put_difference(
    terms: &mut Terms,
    a: u64,
    b: u64,
    numbers: &mut Vec<u64>,
) -> Result<(), AllocError>
    requires a_in { a < length terms.old }
    requires b_in { b < length terms.old }
    ensures ok { OnOk result (Puts terms.old terms.new numbers.old.items numbers.new.items (closing.within_by None
        (tree terms.old a) (tree terms.old b))) }
    ensures kept { Keeps terms.old terms.new }
{
    let pick = terms.difference_pick(a, b)?;
    put_picked(terms, pick, a, b, numbers)
}

/// Puts what tells whether two sets that are no set terms have a member in common.
fn put_intersection(
    terms: &mut Terms,
    a: u64,
    b: u64,
    numbers: &mut Vec<u64>,
) -> Result<(), AllocError>
    requires a_in { a < length terms.old }
    requires b_in { b < length terms.old }
    ensures ok { OnOk result (Puts terms.old terms.new numbers.old.items numbers.new.items (closing.common_by None None
        (tree terms.old a) (tree terms.old b))) }
    ensures kept { Keeps terms.old terms.new }
{
    let pick = terms.common_pick(a, b)?;
    put_picked(terms, pick, a, b, numbers)
}

/// Puts what tells whether a set, in which these stand if it is a set term, is within another.
fn put_within_if(
    terms: &mut Terms,
    a: u64,
    b: u64,
    members: &Option<Seq<u64>>,
    numbers: &mut Vec<u64>,
) -> Result<(), AllocError>
    requires a_in { a < length terms.old }
    requires b_in { b < length terms.old }
    requires members_in { IfSome members.now (AllByRecursion (λ m. m < length terms.old)) }
    ensures ok { OnOk result (Puts terms.old terms.new numbers.old.items numbers.new.items (closing.within_by
        (option_map (stood terms.old) members.now) (tree terms.old a) (tree terms.old b))) }
    ensures kept { Keeps terms.old terms.new }
{
    match members {
        Some(standing) => put_memberships(terms, standing.as_slice(), b, numbers),
        None => put_difference(terms, a, b, numbers),
    }
}

/// Puts what goes with whether a set is within another.
pub(crate) fn put_within(
    alloc: Global,
    terms: &mut Terms,
    a: u64,
    b: u64,
    numbers: &mut Vec<u64>,
) -> Result<(), AllocError>
    requires a_in { a < length terms.old }
    requires b_in { b < length terms.old }
    ensures ok { OnOk result (Puts terms.old terms.new numbers.old.items numbers.new.items (closing.within_by (written
        (tree terms.old a)) (tree terms.old a) (tree terms.old b))) }
    ensures kept { Keeps terms.old terms.new }
{
    let members = standing(alloc, terms, a)?;
    let outcome = put_within_if(terms, a, b, &members, numbers);
    drop(members);
    outcome
}

/// Puts what tells whether a set that is no set term has a member in common with another.
fn put_common_with(
    terms: &mut Terms,
    a: u64,
    b: u64,
    second: &Option<Seq<u64>>,
    numbers: &mut Vec<u64>,
) -> Result<(), AllocError>
    requires a_in { a < length terms.old }
    requires b_in { b < length terms.old }
    requires second_in { IfSome second.now (AllByRecursion (λ m. m < length terms.old)) }
    ensures ok { OnOk result (Puts terms.old terms.new numbers.old.items numbers.new.items (closing.common_by None
        (option_map (stood terms.old) second.now) (tree terms.old a) (tree terms.old b))) }
    ensures kept { Keeps terms.old terms.new }
{
    match second {
        Some(standing) => put_memberships(terms, standing.as_slice(), a, numbers),
        None => put_intersection(terms, a, b, numbers),
    }
}

/// Puts what tells whether two sets, in which these stand if they are set terms, have a member in
/// common.
fn put_common_if(
    terms: &mut Terms,
    a: u64,
    b: u64,
    first: &Option<Seq<u64>>,
    second: &Option<Seq<u64>>,
    numbers: &mut Vec<u64>,
) -> Result<(), AllocError>
    requires a_in { a < length terms.old }
    requires b_in { b < length terms.old }
    requires first_in { IfSome first.now (AllByRecursion (λ m. m < length terms.old)) }
    requires second_in { IfSome second.now (AllByRecursion (λ m. m < length terms.old)) }
    ensures ok { OnOk result (Puts terms.old terms.new numbers.old.items numbers.new.items (closing.common_by
        (option_map (stood terms.old) first.now) (option_map (stood terms.old) second.now) (tree terms.old a)
        (tree terms.old b))) }
    ensures kept { Keeps terms.old terms.new }
{
    match first {
        Some(standing) => put_memberships(terms, standing.as_slice(), b, numbers),
        None => put_common_with(terms, a, b, second, numbers),
    }
}

/// Puts what goes with whether two sets have a member in common.
pub(crate) fn put_common(
    alloc: Global,
    terms: &mut Terms,
    a: u64,
    b: u64,
    numbers: &mut Vec<u64>,
) -> Result<(), AllocError>
    requires a_in { a < length terms.old }
    requires b_in { b < length terms.old }
    ensures ok { OnOk result (Puts terms.old terms.new numbers.old.items numbers.new.items (closing.common_by (written
        (tree terms.old a)) (written (tree terms.old b)) (tree terms.old a) (tree terms.old b))) }
    ensures kept { Keeps terms.old terms.new }
{
    let first = standing(alloc, terms, a)?;
    let second = standing(alloc, terms, b)?;
    let outcome = put_common_if(terms, a, b, &first, &second, numbers);
    drop(first);
    drop(second);
    outcome
}
