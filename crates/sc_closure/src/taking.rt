//! Takes in the roles of a closed term, and puts what goes with them and the roles so far.
ghost use Rattle.std.specs.Prelude.{◌≡◌, ◌<◌, [], ◌∷◌, length, OnOk};
ghost use Rattle.sc_sorts.specs.declared.sort.Sort.{out-Sort};
ghost use Rattle.sc_terms.specs.TreeSorts.{tree_sort};
ghost use Rattle.sc_terms.specs.Tables.{tree, Keeps};
ghost use Rattle.sc_rule_laws.specs.Terms.{written};
ghost use Rattle.sc_closure_rules.specs.Closure.{roles as roles_of, roles_in, roles_by, unless_written, named, candidate, set, flow, pattern};
ghost use Rattle.sc_candidates.specs.Ancestors.{IsAbove};
ghost use Rattle.sc_candidates.specs.Kins.{HasKin};
ghost use Rattle.sc_closure.specs.Following.{AreRoles, IsPartOf, Takes, set_node, part_in, is_written as written_set, flow_role, common_role, pattern_in, place_in as place_of_sort};

use crate::equations::equate_groups;
use crate::roles::{Meeting, Roles, is_pattern_known, join, meet_groups, meet_patterns};
use sc_candidates::{
    is_known, join_candidate, join_kin, join_target, meet_above, meet_crowds, meet_entity,
    meet_flow, meet_linked, meet_set,
};
use sc_closure_rules::order_laws;
use sc_sorts::{BinaryOp, ManyOp, Node, Sort, UnaryOp};
use sc_terms::Terms;
use std::alloc::{AllocError, Global};

/// A text or an entity: whether it is another of its sort, and of a text whether it matches each
/// pattern.
fn take_named(
    alloc: Global,
    terms: &mut Terms,
    roles: &mut Roles,
    n: u64,
    numbers: &mut Vec<u64>,
) -> Result<(), AllocError>
    requires within { n < length terms.old }
    requires are { AreRoles terms.old roles.old }
    ensures ok { OnOk result (Takes terms.old terms.new roles.old roles.new (named (tree terms.old n) ∷ [])
        numbers.old.items numbers.new.items) }
    ensures kept { Keeps terms.old terms.new }
{
    order_laws();
    join(alloc, terms, &mut roles.named, n)?;
    equate_groups(terms, &roles.named, n, numbers)?;
    meet_patterns(alloc, terms, roles.patterns.as_slice(), n, numbers)?;
    Ok(())
}

/// A candidate of a set that is one of another whose candidates are the same, so that all is told but
/// whether it is each other one of the set, and whether it is a member of the sets to which that flows.
fn take_known(
    alloc: Global,
    terms: &mut Terms,
    roles: &mut Roles,
    n: u64,
    in_set: u64,
    numbers: &mut Vec<u64>,
) -> Result<(), AllocError>
    requires within { n < length terms.old }
    requires set_within { in_set < length terms.old }
    requires are { AreRoles terms.old roles.old }
    requires known { HasKin terms.old roles.old.kins.items (tree terms.old n) (tree terms.old in_set) }
    ensures ok { OnOk result (Takes terms.old terms.new roles.old roles.new (candidate (tree terms.old n) (tree
        terms.old in_set) ∷ []) numbers.old.items numbers.new.items) }
    ensures kept { Keeps terms.old terms.new }
{
    order_laws();
    join_candidate(alloc, terms, &mut roles.crowds, in_set, n)?;
    meet_crowds(terms, &roles.crowds, in_set, n, numbers)?;
    Ok(())
}

/// A candidate of a set: whether it is each other one, and whether it is a member of the sets to which
/// the set flows or with which it is linked, and, of an entity's ancestors, of those of other entities.
fn take_new(
    alloc: Global,
    terms: &mut Terms,
    roles: &mut Roles,
    n: u64,
    in_set: u64,
    numbers: &mut Vec<u64>,
) -> Result<(), AllocError>
    requires within { n < length terms.old }
    requires set_within { in_set < length terms.old }
    requires are { AreRoles terms.old roles.old }
    ensures ok { OnOk result (Takes terms.old terms.new roles.old roles.new (candidate (tree terms.old n) (tree
        terms.old in_set) ∷ []) numbers.old.items numbers.new.items) }
    ensures kept { Keeps terms.old terms.new }
{
    order_laws();
    join_candidate(alloc, terms, &mut roles.crowds, in_set, n)?;
    join_kin(alloc, terms, &mut roles.kins, in_set, n)?;
    meet_crowds(terms, &roles.crowds, in_set, n, numbers)?;
    meet_linked(terms, roles.sets.as_slice(), in_set, n, numbers)?;
    meet_above(alloc, terms, roles.above.as_slice(), in_set, n, numbers)?;
    Ok(())
}

/// A candidate of a set.
fn take_candidate(
    alloc: Global,
    terms: &mut Terms,
    roles: &mut Roles,
    n: u64,
    in_set: u64,
    numbers: &mut Vec<u64>,
) -> Result<(), AllocError>
    requires within { n < length terms.old }
    requires set_within { in_set < length terms.old }
    requires are { AreRoles terms.old roles.old }
    ensures ok { OnOk result (Takes terms.old terms.new roles.old roles.new (candidate (tree terms.old n) (tree
        terms.old in_set) ∷ []) numbers.old.items numbers.new.items) }
    ensures kept { Keeps terms.old terms.new }
{
    if is_known(terms, &roles.kins, in_set, n) {
        take_known(alloc, terms, roles, n, in_set, numbers)
    } else {
        take_new(alloc, terms, roles, n, in_set, numbers)
    }
}

/// A set: whether the candidates of each linked one are its members.
fn take_set(
    terms: &mut Terms,
    roles: &mut Roles,
    n: u64,
    numbers: &mut Vec<u64>,
) -> Result<(), AllocError>
    requires within { n < length terms.old }
    requires are { AreRoles terms.old roles.old }
    ensures ok { OnOk result (Takes terms.old terms.new roles.old roles.new (set (tree terms.old n) ∷ [])
        numbers.old.items numbers.new.items) }
    ensures kept { Keeps terms.old terms.new }
{
    roles.sets.push(n)?;
    meet_set(terms, &roles.kins, n, numbers)?;
    Ok(())
}

/// A set that flows to another: whether its candidates are members of that.
fn take_flow(
    alloc: Global,
    terms: &mut Terms,
    roles: &mut Roles,
    from: u64,
    to: u64,
    numbers: &mut Vec<u64>,
) -> Result<(), AllocError>
    requires from_within { from < length terms.old }
    requires to_within { to < length terms.old }
    requires are { AreRoles terms.old roles.old }
    ensures ok { OnOk result (Takes terms.old terms.new roles.old roles.new (flow (tree terms.old from) (tree terms.old
        to) ∷ []) numbers.old.items numbers.new.items) }
    ensures kept { Keeps terms.old terms.new }
{
    join_target(alloc, terms, &mut roles.crowds, from, to)?;
    meet_flow(terms, &roles.crowds, from, to, numbers)?;
    Ok(())
}

/// The ancestors of an entity: whether each entity may be one, and whose it is one.
fn take_above(
    alloc: Global,
    terms: &mut Terms,
    roles: &mut Roles,
    n: u64,
    numbers: &mut Vec<u64>,
) -> Result<(), AllocError>
    requires within { n < length terms.old }
    requires is { IsAbove (tree terms.old n) }
    requires are { AreRoles terms.old roles.old }
    ensures ok { OnOk result (Takes terms.old terms.new roles.old roles.new (roles_in (tree terms.old n))
        numbers.old.items numbers.new.items) }
    ensures kept { Keeps terms.old terms.new }
{
    roles.above.push(n)?;
    meet_entity(
        alloc,
        terms,
        roles.above.as_slice(),
        &roles.kins,
        n,
        numbers,
    )?;
    Ok(())
}

/// A new pattern: whether each text matches it.
fn take_new_pattern(
    alloc: Global,
    terms: &mut Terms,
    roles: &mut Roles,
    asking: u64,
    numbers: &mut Vec<u64>,
) -> Result<(), AllocError>
    requires within { asking < length terms.old }
    requires are { AreRoles terms.old roles.old }
    ensures ok { OnOk result (Takes terms.old terms.new roles.old roles.new (pattern (pattern_in
        (tree terms.old asking)) ∷ []) numbers.old.items numbers.new.items) }
    ensures kept { Keeps terms.old terms.new }
{
    roles.patterns.push(asking)?;
    meet_groups(alloc, terms, Meeting::Texts, &roles.named, asking, numbers)?;
    Ok(())
}

/// A pattern, if it is a new one.
fn take_pattern(
    alloc: Global,
    terms: &mut Terms,
    roles: &mut Roles,
    asking: u64,
    numbers: &mut Vec<u64>,
) -> Result<(), AllocError>
    requires within { asking < length terms.old }
    requires are { AreRoles terms.old roles.old }
    ensures ok { OnOk result (Takes terms.old terms.new roles.old roles.new (pattern (pattern_in
        (tree terms.old asking)) ∷ []) numbers.old.items numbers.new.items) }
    ensures kept { Keeps terms.old terms.new }
{
    if is_pattern_known(terms, roles.patterns.as_slice(), asking) {
        return Ok(());
    }
    take_new_pattern(alloc, terms, roles, asking, numbers)
}

/// Whether a node is a set term.
fn is_set_term(node: &Node) -> bool
    ensures { result ≡ set_node node.now }
{
    matches!(node, Node::Many(ManyOp::Set(_), _))
}

/// Whether a set is written as a set term.
#[tactic(auto, using(crate::proofs::TakesLaws::written_told))]
fn is_written(terms: &Terms, set: u64) -> bool
    requires { set < length terms.now }
    ensures { result ≡ written_set (tree terms.now set) }
{
    is_set_term(terms.node(set))
}

/// A membership: its first term is a candidate of the set, unless that is a set term.
fn take_member(
    alloc: Global,
    terms: &mut Terms,
    roles: &mut Roles,
    n: u64,
    in_set: u64,
    numbers: &mut Vec<u64>,
) -> Result<(), AllocError>
    requires within { n < length terms.old }
    requires set_within { in_set < length terms.old }
    requires are { AreRoles terms.old roles.old }
    ensures ok { OnOk result (Takes terms.old terms.new roles.old roles.new (unless_written (written (tree terms.old
        in_set)) (candidate (tree terms.old n) (tree terms.old in_set))) numbers.old.items numbers.new.items) }
    ensures kept { Keeps terms.old terms.new }
{
    if is_written(terms, in_set) {
        return Ok(());
    }
    take_candidate(alloc, terms, roles, n, in_set, numbers)
}

/// Whether a set is within another: the one flows to the other, unless it is a set term.
fn take_subset(
    alloc: Global,
    terms: &mut Terms,
    roles: &mut Roles,
    from: u64,
    to: u64,
    numbers: &mut Vec<u64>,
) -> Result<(), AllocError>
    requires from_within { from < length terms.old }
    requires to_within { to < length terms.old }
    requires are { AreRoles terms.old roles.old }
    ensures ok { OnOk result (Takes terms.old terms.new roles.old roles.new (flow_role (tree terms.old from)
        (tree terms.old to)) numbers.old.items numbers.new.items) }
    ensures kept { Keeps terms.old terms.new }
{
    if is_written(terms, from) {
        return Ok(());
    }
    take_flow(alloc, terms, roles, from, to, numbers)
}

/// Whether two sets have a member in common: the one flows to the other, unless one of them is a set
/// term.
fn take_common(
    alloc: Global,
    terms: &mut Terms,
    roles: &mut Roles,
    from: u64,
    to: u64,
    numbers: &mut Vec<u64>,
) -> Result<(), AllocError>
    requires from_within { from < length terms.old }
    requires to_within { to < length terms.old }
    requires are { AreRoles terms.old roles.old }
    ensures ok { OnOk result (Takes terms.old terms.new roles.old roles.new (common_role (tree terms.old from)
        (tree terms.old to)) numbers.old.items numbers.new.items) }
    ensures kept { Keeps terms.old terms.new }
{
    if is_written(terms, to) {
        return Ok(());
    }
    take_subset(alloc, terms, roles, from, to, numbers)
}

/// What a term is by its row, with the numbers that it speaks of.
#[derive(Clone, Copy)]
enum Part {
    /// Nothing that has a role.
    Nothing,
    /// Whether a term is a member of a set.
    Candidate(u64, u64),
    /// Whether a set is within another.
    Subset(u64, u64),
    /// Whether two sets have a member in common.
    Common(u64, u64),
    /// The ancestors of an entity.
    Above,
    /// Whether a text matches a pattern.
    Pattern,
}

/// What the term of a node is by its row.
fn part_at(node: &Node) -> Part
    ensures { result ≡ part_in node.now }
{
    match node {
        Node::Two(BinaryOp::Member, a, s) => Part::Candidate(*a, *s),
        Node::Two(BinaryOp::Subset, s, t) => Part::Subset(*s, *t),
        Node::Two(BinaryOp::Common, s, t) => Part::Common(*s, *t),
        Node::One(UnaryOp::Ancestors(_), _) => Part::Above,
        Node::One(UnaryOp::Like(_), _) => Part::Pattern,
        _ => Part::Nothing,
    }
}

/// What a term is by its row.
fn part_of(terms: &Terms, n: u64) -> Part
    requires { n < length terms.now }
    ensures { IsPartOf terms.now n result }
{
    part_at(terms.node(n))
}

/// Takes in the role that a term has by its row.
fn take_part(
    alloc: Global,
    terms: &mut Terms,
    roles: &mut Roles,
    n: u64,
    numbers: &mut Vec<u64>,
) -> Result<(), AllocError>
    requires within { n < length terms.old }
    requires are { AreRoles terms.old roles.old }
    ensures ok { OnOk result (Takes terms.old terms.new roles.old roles.new (roles_in (tree terms.old n))
        numbers.old.items numbers.new.items) }
    ensures kept { Keeps terms.old terms.new }
{
    match part_of(terms, n) {
        Part::Nothing => Ok(()),
        Part::Candidate(a, s) => take_member(alloc, terms, roles, a, s, numbers),
        Part::Subset(s, t) => take_subset(alloc, terms, roles, s, t, numbers),
        Part::Common(s, t) => take_common(alloc, terms, roles, s, t, numbers),
        Part::Above => take_above(alloc, terms, roles, n, numbers),
        Part::Pattern => take_pattern(alloc, terms, roles, n, numbers),
    }
}

/// What a term is by its sort.
#[derive(Clone, Copy)]
enum Place {
    /// A text or an entity.
    Named,
    /// A set.
    Set,
    /// Neither.
    Neither,
}

fn place_of(sort: &Sort) -> Place
    ensures { result ≡ place_of_sort (out-Sort sort.now) }
{
    match sort {
        Sort::String => Place::Named,
        Sort::Entity(_, _) => Place::Named,
        Sort::Set(_) => Place::Set,
        _ => Place::Neither,
    }
}

/// Takes in the role that a term has by its sort.
fn take_place(
    alloc: Global,
    terms: &mut Terms,
    roles: &mut Roles,
    n: u64,
    numbers: &mut Vec<u64>,
) -> Result<(), AllocError>
    requires within { n < length terms.old }
    requires are { AreRoles terms.old roles.old }
    ensures ok { OnOk result (Takes terms.old terms.new roles.old roles.new (roles_by (out-Sort (tree_sort
        (tree terms.old n))) (tree terms.old n)) numbers.old.items numbers.new.items) }
    ensures kept { Keeps terms.old terms.new }
{
    match place_of(terms.sort(n)) {
        Place::Named => take_named(alloc, terms, roles, n, numbers),
        Place::Set => take_set(terms, roles, n, numbers),
        Place::Neither => Ok(()),
    }
}

/// Takes in the roles of a closed term.
pub(crate) fn take_roles(
    alloc: Global,
    terms: &mut Terms,
    roles: &mut Roles,
    n: u64,
    numbers: &mut Vec<u64>,
) -> Result<(), AllocError>
    requires within { n < length terms.old }
    requires are { AreRoles terms.old roles.old }
    ensures ok { OnOk result (Takes terms.old terms.new roles.old roles.new (roles_of (tree terms.old n))
        numbers.old.items numbers.new.items) }
    ensures kept { Keeps terms.old terms.new }
{
    take_place(alloc, terms, roles, n, numbers)?;
    take_part(alloc, terms, roles, n, numbers)?;
    Ok(())
}
