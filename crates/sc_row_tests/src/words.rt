//! Terms in reverse Polish notation: a word puts a term, or makes one of the terms before it.
ghost use Rattle.std.specs.Prelude.{◌<◌, ◌≤◌, length, IfOk};

use crate::kinds::{Kind, actions, sort, uid};
use sc_decimal::Decimal;
use sc_ip::Ip;
use sc_lists::{Seq, Text};
use sc_names::Uid;
use sc_pattern::{Part, pattern_of};
use sc_sorts::{Literal, Parts};
use sc_terms::Terms;
use std::alloc::{AllocError, Global};
use std::cmp::Ordering;

/// What puts a term.
#[derive(Clone, Copy)]
pub(crate) enum Leaf {
    True,
    False,
    Number(i64),
    Chars(&'static str),
    /// A decimal number, in ten-thousandths.
    Price(i64),
    /// An address of version 4 and its prefix.
    Address(u32, u8),
    /// A user of this id.
    User(&'static str),
    /// An action of this id.
    Action(&'static str),
    /// The absent option of what is of this kind.
    Absent(Kind),
    Principal(Kind),
    Resource(Kind),
    Context(Kind),
    /// The field of this name of the context, which is a person.
    My(&'static str),
    /// The set without members of this kind.
    Empty(Kind),
    /// The default of what is of this kind.
    Default(Kind),
}

/// What makes a term of the one before it.
#[derive(Clone, Copy)]
pub(crate) enum One {
    Not,
    /// The bit at this place.
    Bit(u64),
    CarryIn(u64),
    ProductRow(u64, u64),
    ProductCarry(u64, u64),
    Attributes(Kind),
    Ancestors(Kind),
    Keys,
    Field(&'static str),
    /// The record of a field of this name.
    RecordOf(&'static str),
    /// The set of one member of this kind.
    SetOf(Kind),
    Present,
    Held,
    Like(&'static [Part]),
}

/// What makes a term of the two before it.
#[derive(Clone, Copy)]
pub(crate) enum Two {
    And,
    Or,
    Equal,
    Sum,
    Difference,
    Product,
    SumOverflows,
    DifferenceOverflows,
    ProductOverflows,
    Less,
    InRange,
    Low(u64),
    Tag(Kind),
    /// The record of fields of these names.
    RecordOfBoth(&'static str, &'static str),
    /// The set of two members of this kind.
    SetOfBoth(Kind),
    Member,
    Subset,
    Common,
    DifferencePick,
    CommonPick,
}

/// A word of a term.
#[derive(Clone, Copy)]
pub(crate) enum Word {
    Leaf(Leaf),
    One(One),
    Two(Two),
    /// The second term where the first is true, and else the third.
    Choice,
}

// ---- leaves

fn text(alloc: Global, terms: &mut Terms, text: &str) -> Result<u64, AllocError>
    ensures within { IfOk result (λ n. n < length terms.new) }
    ensures longer { length terms.old ≤ length terms.new }
{
    terms.literal(Literal::String(Text::from_str(alloc, text)?))
}

/// An entity, where these of its type are listed.
fn entity(
    alloc: Global,
    terms: &mut Terms,
    type_name: &str,
    id: &str,
    listed: Seq<Uid>,
) -> Result<u64, AllocError>
    ensures within { IfOk result (λ n. n < length terms.new) }
    ensures longer { length terms.old ≤ length terms.new }
{
    let uid = uid(alloc, type_name, id)?;
    terms.literal(Literal::Entity(uid, listed))
}

/// The field of a name of the context, which is a person.
fn mine(alloc: Global, terms: &mut Terms, name: &str) -> Result<u64, AllocError>
    ensures within { IfOk result (λ n. n < length terms.new) }
    ensures longer { length terms.old ≤ length terms.new }
{
    let context = terms.context(sort(alloc, Kind::Person)?)?;
    terms.field(context, Text::from_str(alloc, name)?)
}

fn put(alloc: Global, terms: &mut Terms, leaf: Leaf) -> Result<u64, AllocError>
    ensures within { IfOk result (λ n. n < length terms.new) }
    ensures longer { length terms.old ≤ length terms.new }
{
    match leaf {
        Leaf::True => terms.truth(true),
        Leaf::False => terms.truth(false),
        Leaf::Number(n) => terms.literal(Literal::Long(n)),
        Leaf::Chars(chars) => text(alloc, terms, chars),
        Leaf::Price(n) => terms.literal(Literal::Decimal(Decimal::from_ten_thousandths(n))),
        Leaf::Address(address, prefix) => terms.literal(Literal::Ip(Ip::V4 { address, prefix })),
        Leaf::User(id) => entity(alloc, terms, "User", id, Seq::new(alloc)),
        Leaf::Action(id) => entity(alloc, terms, "Action", id, actions(alloc)?),
        Leaf::Absent(kind) => terms.none(sort(alloc, kind)?),
        Leaf::Principal(kind) => terms.principal(sort(alloc, kind)?),
        Leaf::Resource(kind) => terms.resource(sort(alloc, kind)?),
        Leaf::Context(kind) => terms.context(sort(alloc, kind)?),
        Leaf::My(name) => mine(alloc, terms, name),
        Leaf::Empty(kind) => terms.set(sort(alloc, kind)?, &[]),
        Leaf::Default(kind) => terms.default(&sort(alloc, kind)?),
    }
}

// ---- what is made of one term

/// The bit at a place below 64.
#[tactic(auto, using(crate::proofs::PlaceLaws::place_of))]
fn bit(terms: &mut Terms, a: u64, place: u64) -> Result<u64, AllocError>
    requires { a < length terms.old }
    ensures within { IfOk result (λ n. n < length terms.new) }
    ensures longer { length terms.old ≤ length terms.new }
{
    if place < 64 {
        terms.bit(a, place)
    } else {
        Ok(a)
    }
}

fn record(alloc: Global, terms: &mut Terms, name: &str, a: u64) -> Result<u64, AllocError>
    requires { a < length terms.old }
    ensures within { IfOk result (λ n. n < length terms.new) }
    ensures longer { length terms.old ≤ length terms.new }
{
    let mut parts: Parts = Seq::new(alloc);
    parts.push((Text::from_str(alloc, name)?, a))?;
    terms.record(parts)
}

fn made_of_one(alloc: Global, terms: &mut Terms, one: One, a: u64) -> Result<u64, AllocError>
    requires { a < length terms.old }
    ensures within { IfOk result (λ n. n < length terms.new) }
    ensures longer { length terms.old ≤ length terms.new }
{
    match one {
        One::Not => terms.not(a),
        One::Bit(place) => bit(terms, a, place),
        One::CarryIn(place) => terms.carry_in(a, place),
        One::ProductRow(added, place) => terms.product_row(a, added, place),
        One::ProductCarry(number, place) => terms.product_carry(a, number, place),
        One::Attributes(kind) => terms.attributes(a, sort(alloc, kind)?),
        One::Ancestors(kind) => terms.ancestors(a, sort(alloc, kind)?),
        One::Keys => terms.keys(a),
        One::Field(name) => terms.field(a, Text::from_str(alloc, name)?),
        One::RecordOf(name) => record(alloc, terms, name, a),
        One::SetOf(kind) => terms.set(sort(alloc, kind)?, &[a]),
        One::Present => terms.present(a),
        One::Held => terms.held(a),
        One::Like(parts) => terms.like(a, pattern_of(alloc, parts)?),
    }
}

// ---- what is made of two terms

fn record_of_both(
    alloc: Global,
    terms: &mut Terms,
    first: (&str, u64),
    second: (&str, u64),
) -> Result<u64, AllocError>
    requires first_in { first.1 < length terms.old }
    requires second_in { second.1 < length terms.old }
    ensures within { IfOk result (λ n. n < length terms.new) }
    ensures longer { length terms.old ≤ length terms.new }
{
    let mut parts: Parts = Seq::new(alloc);
    parts.push((Text::from_str(alloc, first.0)?, first.1))?;
    parts.push((Text::from_str(alloc, second.0)?, second.1))?;
    terms.record(parts)
}

fn made_of_two(
    alloc: Global,
    terms: &mut Terms,
    two: Two,
    a: u64,
    b: u64,
) -> Result<u64, AllocError>
    requires a_in { a < length terms.old }
    requires b_in { b < length terms.old }
    ensures within { IfOk result (λ n. n < length terms.new) }
    ensures longer { length terms.old ≤ length terms.new }
{
    match two {
        Two::And => terms.and(a, b),
        Two::Or => terms.or(a, b),
        Two::Equal => terms.equal(a, b),
        Two::Sum => terms.sum(a, b),
        Two::Difference => terms.difference(a, b),
        Two::Product => terms.product(a, b),
        Two::SumOverflows => terms.sum_overflows(a, b),
        Two::DifferenceOverflows => terms.difference_overflows(a, b),
        Two::ProductOverflows => terms.product_overflows(a, b),
        Two::Less => terms.less(a, b),
        Two::InRange => terms.in_range(a, b),
        Two::Low(count) => terms.low(a, b, count),
        Two::Tag(kind) => terms.tag(a, b, sort(alloc, kind)?),
        Two::RecordOfBoth(m, n) => record_of_both(alloc, terms, (m, a), (n, b)),
        Two::SetOfBoth(kind) => terms.set(sort(alloc, kind)?, &[a, b]),
        Two::Member => terms.member(a, b),
        Two::Subset => terms.subset(a, b),
        Two::Common => terms.common(a, b),
        Two::DifferencePick => terms.difference_pick(a, b),
        Two::CommonPick => terms.common_pick(a, b),
    }
}

// ---- terms

/// The last three terms, after a word. Where there are fewer, one stands twice.
fn after(
    alloc: Global,
    terms: &mut Terms,
    last: (u64, u64, u64),
    word: Word,
) -> Result<(u64, u64, u64), AllocError>
    requires first_in { last.0 < length terms.old }
    requires second_in { last.1 < length terms.old }
    requires third_in { last.2 < length terms.old }
    ensures first { IfOk result (λ x. x.0 < length terms.new) }
    ensures second { IfOk result (λ x. x.1 < length terms.new) }
    ensures third { IfOk result (λ x. x.2 < length terms.new) }
    ensures longer { length terms.old ≤ length terms.new }
{
    let (a, b, c) = last;
    match word {
        Word::Leaf(leaf) => Ok((b, c, put(alloc, terms, leaf)?)),
        Word::One(one) => Ok((a, b, made_of_one(alloc, terms, one, c)?)),
        Word::Two(two) => Ok((a, a, made_of_two(alloc, terms, two, b, c)?)),
        Word::Choice => Ok((a, a, terms.choice(a, b, c)?)),
    }
}

/// The number of a term that is written.
pub(crate) fn number_of(alloc: Global, terms: &mut Terms, words: &[Word]) -> Result<u64, AllocError>
    ensures within { IfOk result (λ n. n < length terms.new) }
    ensures longer { length terms.old ≤ length terms.new }
{
    let yes = terms.truth(true)?;
    let mut last = (yes, yes, yes);
    for word in words {
        last = after(alloc, terms, last, *word)?;
    }
    Ok(last.2)
}

/// The numbers of two terms that are written.
fn numbers_of(
    alloc: Global,
    terms: &mut Terms,
    left: &[Word],
    right: &[Word],
) -> Result<(u64, u64), AllocError>
    ensures left { IfOk result (λ x. x.0 < length terms.new) }
    ensures right { IfOk result (λ x. x.1 < length terms.new) }
{
    let left = number_of(alloc, terms, left)?;
    let right = number_of(alloc, terms, right)?;
    Ok((left, right))
}

/// How the first of two terms compares with the second, and the second with the first.
pub(crate) fn orders(
    alloc: Global,
    left: &[Word],
    right: &[Word],
) -> Result<(Ordering, Ordering), AllocError> {
    let mut terms = Terms::new(alloc)?;
    let (left, right) = numbers_of(alloc, &mut terms, left, right)?;
    Ok((terms.compare(left, right), terms.compare(right, left)))
}

/// Whether two terms that are written are one.
pub(crate) fn are_one(alloc: Global, left: &[Word], right: &[Word]) -> Result<bool, AllocError> {
    let mut terms = Terms::new(alloc)?;
    let (left, right) = numbers_of(alloc, &mut terms, left, right)?;
    Ok(terms.is_same(left, right))
}
