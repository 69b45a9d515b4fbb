//! The roles of closed terms, in groups of one sort, and the terms that go with two of them. A role
//! meets just the groups of its own sort, so that each pair of terms is looked at only where a term
//! goes with it.
ghost use Rattle.std.specs.Prelude.{◌≡◌, ◌<◌, ◌++◌, [], ◌∷◌, true, Some, List, length, map, get_or, slice_set, IfOk, IfSome, OnOk, IsTrue};
ghost use Rattle.std.specs.List.{AllByRecursion};
ghost use Rattle.std.specs.Option.{option_copied};
ghost use Rattle.sc_lists.specs.Members.{Has};
ghost use Rattle.sc_sorts.specs.declared.sort.Sort.{out-Sort};
ghost use Rattle.sc_sorts.specs.declared.node.Node.{Node as AnyNode};
ghost use Rattle.sc_terms.specs.Folds.{like_term};
ghost use Rattle.sc_terms.specs.TreeSorts.{tree_sort};
ghost use Rattle.sc_terms.specs.Tables.{tree, Keeps, StandsFor};
ghost use Rattle.sc_closure_rules.specs.Making.{Puts, stood};
ghost use Rattle.sc_closure_rules.specs.Closure.{Role};
ghost use Rattle.sc_rule_laws.specs.Terms.{one_sort};
ghost use Rattle.sc_closure.specs.Following.{AreRoles, Held, IsGroupWithin, Joins, no_group, with_member, group_with, is_met as meets, met_term, met_terms, met_in, met_among, met_patterns, is_text as text, operator_in, asked, pattern_in};

use sc_candidates::{Crowd, is_value};
use sc_lists::Seq;
use sc_pattern::{Pattern, pattern_of};
use sc_sorts::{Node, Sort, UnaryOp};
use sc_terms::Terms;
use std::alloc::{AllocError, Global};

/// Terms of one sort.
#[derive(Drop)]
pub(crate) struct Group {
    /// The first of them, which tells their sort.
    pub(crate) first: u64,
    /// The terms.
    pub(crate) members: Seq<u64>,
    /// Those of them that aren't values that are written out.
    pub(crate) others: Seq<u64>,
}

impl Group {
    /// Puts a term behind the others.
    fn put(&mut self, term: u64, is_value: bool) -> Result<(), AllocError>
        ensures { OnOk result (self.new ≡ with_member is_value self.old term) }
    {
        self.members.push(term)?;
        if !is_value {
            self.others.push(term)?;
        }
        Ok(())
    }
}

/// The roles of the closed terms that have been followed.
#[derive(Drop)]
pub(crate) struct Roles {
    pub(crate) named: Vec<Group>,
    /// The candidates of sets that are no set terms.
    pub(crate) crowds: Vec<Crowd>,
    /// The same, each once for all sets whose candidates are one another's.
    pub(crate) kins: Vec<Crowd>,
    /// The sets.
    pub(crate) sets: Seq<u64>,
    /// The ancestors of entities.
    pub(crate) above: Seq<u64>,
    /// One term for each pattern that is asked.
    pub(crate) patterns: Seq<u64>,
}

impl Roles {
    /// No roles.
    #[tactic(auto, using(sc_candidates::proofs::KinLaws::no_kins))]
    pub(crate) fn new(alloc: Global) -> Roles
        ensures none { (xs : List AnyNode) (p : Role) → Held xs result p → ⊥ }
        ensures are { (xs : List AnyNode) → AreRoles xs result }
    {
        Roles {
            named: Vec::new(alloc),
            crowds: Vec::new(alloc),
            kins: Vec::new(alloc),
            sets: Seq::new(alloc),
            above: Seq::new(alloc),
            patterns: Seq::new(alloc),
        }
    }
}

/// What goes with a term and each of a group.
#[derive(Clone, Copy)]
pub(crate) enum Meeting {
    /// Their equation.
    Equation,
    /// Whether each text matches the pattern that the term asks.
    Texts,
    /// Whether the term matches the pattern that each asks.
    Patterns,
}

/// Whether two terms are of one sort.
fn is_one_sort(terms: &Terms, a: u64, b: u64) -> bool
    requires a_in { a < length terms.now }
    requires b_in { b < length terms.now }
    ensures { result ≡ one_sort (tree terms.now a) (tree terms.now b) }
{
    terms.sort(a) == terms.sort(b)
}

fn is_text(sort: &Sort) -> bool
    ensures { result ≡ text (out-Sort sort.now) }
{
    matches!(sort, Sort::String)
}

/// Whether something goes with a term and those of a group, whose first this is.
pub(crate) fn is_met(terms: &Terms, meeting: Meeting, first: u64, term: u64) -> bool
    requires first_in { first < length terms.now }
    requires term_in { term < length terms.now }
    ensures { result ≡ meets meeting (tree_sort (tree terms.now first)) (tree_sort (tree terms.now term)) }
{
    match meeting {
        Meeting::Equation => is_one_sort(terms, first, term),
        Meeting::Texts => is_text(terms.sort(first)),
        Meeting::Patterns => is_text(terms.sort(term)),
    }
}

/// The place of the group of a term's sort, if there is one.
fn group_of(terms: &Terms, groups: &[Group], term: u64) -> Option<usize>
    requires groups_in { AllByRecursion (IsGroupWithin (length terms.now)) groups.now }
    requires term_in { term < length terms.now }
    ensures within { IfSome result (λ p. p < length groups.now) }
    ensures alike { IfSome result (λ p. one_sort (tree terms.now (get_or groups.now p no_group).first) (tree terms.now
        term) ≡ true) }
{
    for place in 0..groups.len() {
        if is_one_sort(terms, groups[place].first, term) {
            return Some(place);
        }
    }
    None
}

/// Puts a term into the group at a place.
fn put_into(
    groups: &mut Vec<Group>,
    place: usize,
    term: u64,
    is_value: bool,
) -> Result<(), AllocError>
    requires { place < length groups.old.items }
    ensures { OnOk result (groups.new.items ≡ slice_set groups.old.items place (with_member is_value (get_or
        groups.old.items place no_group) term)) }
{
    groups[place].put(term, is_value)?;
    Ok(())
}

/// Puts a term into the group of its sort, which is made where there is none.
pub(crate) fn join(
    alloc: Global,
    terms: &Terms,
    groups: &mut Vec<Group>,
    term: u64,
) -> Result<(), AllocError>
    requires groups_in { AllByRecursion (IsGroupWithin (length terms.now)) groups.old.items }
    requires term_in { term < length terms.now }
    ensures { OnOk result (Joins terms.now groups.old.items groups.new.items term) }
{
    let value = is_value(terms, term);
    match group_of(terms, groups, term) {
        Some(place) => put_into(groups, place, term, value),
        None => add_group(alloc, groups, term, value),
    }
}

/// Puts a group of one term behind the others.
fn add_group(
    alloc: Global,
    groups: &mut Vec<Group>,
    term: u64,
    is_value: bool,
) -> Result<(), AllocError>
    ensures { OnOk result (groups.new.items ≡ groups.old.items ++ group_with is_value term ∷ []) }
{
    let mut group = Group {
        first: term,
        members: Seq::new(alloc),
        others: Seq::new(alloc),
    };
    group.put(term, is_value)?;
    groups.push(group)?;
    Ok(())
}

/// The pattern that a term asks.
fn pattern_at(terms: &Terms, n: u64) -> Option<&Pattern>
    requires { n < length terms.now }
    ensures { option_copied result ≡ asked (tree terms.now n) }
{
    match terms.node(n) {
        Node::One(UnaryOp::Like(pattern), _) => Some(pattern),
        _ => None,
    }
}

/// A copy of the pattern that a term asks, and of another term the pattern of no parts.
fn pattern_of_term(alloc: Global, terms: &Terms, n: u64) -> Result<Pattern, AllocError>
    requires { n < length terms.now }
    ensures { IfOk result (λ p. p ≡ pattern_in (tree terms.now n)) }
{
    match pattern_at(terms, n) {
        Some(pattern) => pattern.try_clone(alloc),
        None => pattern_of(alloc, &[]),
    }
}

/// The number of whether a text matches the pattern that a term asks.
fn matched(alloc: Global, terms: &mut Terms, text: u64, asking: u64) -> Result<u64, AllocError>
    requires text_in { text < length terms.old }
    requires asking_in { asking < length terms.old }
    ensures ok { IfOk result (λ n. StandsFor terms.new n (like_term (tree terms.old text) (pattern_in
        (tree terms.old asking)))) }
    ensures kept { Keeps terms.old terms.new }
{
    let pattern = pattern_of_term(alloc, terms, asking)?;
    terms.like(text, pattern)
}

/// The number of what goes with a term and another.
fn met(
    alloc: Global,
    terms: &mut Terms,
    meeting: Meeting,
    other: u64,
    term: u64,
) -> Result<u64, AllocError>
    requires other_in { other < length terms.old }
    requires term_in { term < length terms.old }
    ensures ok { IfOk result (λ n. StandsFor terms.new n (met_term meeting (tree terms.old other)
        (tree terms.old term))) }
    ensures kept { Keeps terms.old terms.new }
{
    match meeting {
        Meeting::Equation => terms.equal(other, term),
        Meeting::Texts => matched(alloc, terms, other, term),
        Meeting::Patterns => matched(alloc, terms, term, other),
    }
}

/// Puts what goes with a term and each of these, one after the other.
fn put_each(
    alloc: Global,
    terms: &mut Terms,
    meeting: Meeting,
    members: &[u64],
    term: u64,
    numbers: &mut Vec<u64>,
) -> Result<(), AllocError>
    requires members_in { AllByRecursion (λ n. n < length terms.old) members.now }
    requires term_in { term < length terms.old }
    ensures ok { OnOk result (Puts terms.old terms.new numbers.old.items numbers.new.items (met_terms meeting (stood
        terms.old members.now) (tree terms.old term))) }
    ensures kept { Keeps terms.old terms.new }
{
    for member in members {
        let m = met(alloc, terms, meeting, *member, term)?;
        numbers.push(m)?;
    }
    Ok(())
}

/// Puts what goes with a term and each of a group.
fn put_group(
    alloc: Global,
    terms: &mut Terms,
    meeting: Meeting,
    group: &Group,
    term: u64,
    numbers: &mut Vec<u64>,
) -> Result<(), AllocError>
    requires group_in { IsGroupWithin (length terms.old) group.now }
    requires term_in { term < length terms.old }
    ensures ok { OnOk result (Puts terms.old terms.new numbers.old.items numbers.new.items (met_in meeting
        (tree terms.old group.now.first) (stood terms.old group.now.members) (tree terms.old term))) }
    ensures kept { Keeps terms.old terms.new }
{
    if is_met(terms, meeting, group.first, term) {
        put_each(
            alloc,
            terms,
            meeting,
            group.members.as_slice(),
            term,
            numbers,
        )
    } else {
        Ok(())
    }
}

/// Puts what goes with a term and each of these groups.
pub(crate) fn meet_groups(
    alloc: Global,
    terms: &mut Terms,
    meeting: Meeting,
    groups: &[Group],
    term: u64,
    numbers: &mut Vec<u64>,
) -> Result<(), AllocError>
    requires groups_in { AllByRecursion (IsGroupWithin (length terms.old)) groups.now }
    requires term_in { term < length terms.old }
    ensures ok { OnOk result (Puts terms.old terms.new numbers.old.items numbers.new.items (met_among meeting terms.old
        groups.now (tree terms.old term))) }
    ensures kept { Keeps terms.old terms.new }
{
    for group in groups {
        put_group(alloc, terms, meeting, group, term, numbers)?;
    }
    Ok(())
}

/// Puts whether a term matches each of these patterns, if it is a text.
pub(crate) fn meet_patterns(
    alloc: Global,
    terms: &mut Terms,
    patterns: &[u64],
    term: u64,
    numbers: &mut Vec<u64>,
) -> Result<(), AllocError>
    requires patterns_in { AllByRecursion (λ n. n < length terms.old) patterns.now }
    requires term_in { term < length terms.old }
    ensures ok { OnOk result (Puts terms.old terms.new numbers.old.items numbers.new.items (met_patterns terms.old
        patterns.now (tree terms.old term))) }
    ensures kept { Keeps terms.old terms.new }
{
    if is_text(terms.sort(term)) {
        put_each(alloc, terms, Meeting::Patterns, patterns, term, numbers)
    } else {
        Ok(())
    }
}

/// Whether one of these terms asks the pattern of another.
pub(crate) fn is_pattern_known(terms: &Terms, patterns: &[u64], asking: u64) -> bool
    requires patterns_in { AllByRecursion (λ n. n < length terms.now) patterns.now }
    requires asking_in { asking < length terms.now }
    ensures { IsTrue result → Has (map pattern_in (stood terms.now patterns.now)) (pattern_in (tree terms.now asking)) }
{
    for n in patterns {
        if is_one_pattern(terms, *n, asking) {
            return true;
        }
    }
    false
}

/// Whether a node is this operator on a term.
fn is_operator(node: &Node, op: &UnaryOp) -> bool
    ensures { IsTrue result → operator_in node.now ≡ Some op.now }
{
    match node {
        Node::One(other, _) => other == op,
        _ => false,
    }
}

/// Whether two terms ask one pattern.
fn is_one_pattern(terms: &Terms, a: u64, b: u64) -> bool
    requires a_in { a < length terms.now }
    requires b_in { b < length terms.now }
    ensures { IsTrue result → pattern_in (tree terms.now a) ≡ pattern_in (tree terms.now b) }
{
    match terms.node(a) {
        Node::One(op, _) => is_operator(terms.node(b), op),
        _ => false,
    }
}
