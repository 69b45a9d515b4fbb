//! Which terms are folded into one, their order, and their sorts. Terms are written in reverse
//! Polish notation: `t` and `f` are truth values, `p` and `r` are principal and resource, and `x`,
//! `y` and `z` attributes of the context; `!` negates the term before it, `&`, `|` and `=` join two,
//! and `?` chooses by the first of three between the others.
ghost use Rattle.std.specs.Prelude.{◌<◌, ◌≤◌, length, IfOk};

use sc_lists::{Seq, Text};
use sc_names::Name;
use sc_sorts::Sort;
use sc_terms::Terms;
use std::alloc::{AllocError, Global};

fn users(alloc: Global) -> Result<Sort, AllocError> {
    let name = Name::from_text(Text::from_str(alloc, "User")?);
    Ok(Sort::Entity(name, Seq::new(alloc)))
}

/// An attribute of the context, a truth value. What else the context has doesn't matter here.
fn attribute(alloc: Global, terms: &mut Terms, name: &str) -> Result<u64, AllocError>
    ensures within { IfOk result (λ n. n < length terms.new) }
    ensures longer { length terms.old ≤ length terms.new }
{
    let context = terms.context(Sort::Record(Seq::new(alloc)))?;
    terms.field(context, Text::from_str(alloc, name)?)
}

/// The term of a letter.
fn leaf(alloc: Global, terms: &mut Terms, letter: u8) -> Result<u64, AllocError>
    ensures within { IfOk result (λ n. n < length terms.new) }
    ensures longer { length terms.old ≤ length terms.new }
{
    match letter {
        b't' => terms.truth(true),
        b'f' => terms.truth(false),
        b'p' => terms.principal(users(alloc)?),
        b'r' => terms.resource(users(alloc)?),
        b'x' => attribute(alloc, terms, "x"),
        b'y' => attribute(alloc, terms, "y"),
        _ => attribute(alloc, terms, "z"),
    }
}

/// Two terms, joined by a sign.
fn joined(terms: &mut Terms, sign: u8, left: u64, right: u64) -> Result<u64, AllocError>
    requires left { left < length terms.old }
    requires right { right < length terms.old }
    ensures within { IfOk result (λ n. n < length terms.new) }
    ensures longer { length terms.old ≤ length terms.new }
{
    match sign {
        b'&' => terms.and(left, right),
        b'|' => terms.or(left, right),
        _ => terms.equal(left, right),
    }
}

/// The last three terms, after a letter or a sign. Where there are fewer, one stands twice.
fn after(
    alloc: Global,
    terms: &mut Terms,
    last: (u64, u64, u64),
    letter: u8,
) -> Result<(u64, u64, u64), AllocError>
    requires first_in { last.0 < length terms.old }
    requires second_in { last.1 < length terms.old }
    requires third_in { last.2 < length terms.old }
    ensures first { IfOk result (λ x. x.0 < length terms.new) }
    ensures second { IfOk result (λ x. x.1 < length terms.new) }
    ensures third { IfOk result (λ x. x.2 < length terms.new) }
    ensures longer { length terms.old ≤ length terms.new }
{
    let (a, b, c) = last;
    match letter {
        b'!' => Ok((a, b, terms.not(c)?)),
        b'&' | b'|' | b'=' => Ok((a, a, joined(terms, letter, b, c)?)),
        b'?' => Ok((a, a, terms.choice(a, b, c)?)),
        _ => Ok((b, c, leaf(alloc, terms, letter)?)),
    }
}

/// The number of a term that is written.
fn number_of(alloc: Global, terms: &mut Terms, text: &str) -> Result<u64, AllocError>
    ensures within { IfOk result (λ n. n < length terms.new) }
    ensures longer { length terms.old ≤ length terms.new }
{
    let yes = terms.truth(true)?;
    let mut last = (yes, yes, yes);
    for letter in text.as_bytes() {
        last = after(alloc, terms, last, *letter)?;
    }
    Ok(last.2)
}

// ---- folds

/// Terms that are one.
const FOLDS: &[(&str, &str)] = &[
    // the lesser side of an equation stands first
    ("pr=", "rp="),
    // negations cancel
    ("pr=!!", "pr="),
    // what is true is left out of `&`, and what is false out of `|`
    ("tx&", "x"),
    ("xf|", "x"),
    // one of equal terms stays
    ("xx|", "x"),
    ("xx&", "x"),
    ("xyy?", "y"),
    // an equation with a truth value
    ("xf=", "x!"),
    ("tx=", "x"),
];

fn is_one_in(
    alloc: Global,
    terms: &mut Terms,
    left: &str,
    right: &str,
) -> Result<bool, AllocError> {
    let left = number_of(alloc, terms, left)?;
    let right = number_of(alloc, terms, right)?;
    Ok(left == right)
}

/// Whether two terms that are written have one number.
fn is_one(alloc: Global, left: &str, right: &str) -> Result<bool, AllocError> {
    let mut terms = Terms::new(alloc)?;
    is_one_in(alloc, &mut terms, left, right)
}

#[test]
fn folds(rt: HostRuntime) {
    for &(left, right) in FOLDS {
        assert!(rt;
            is_one(rt.alloc(), left, right) == Ok(true),
            "{left} is {right}"
        );
    }
    assert!(rt; is_one(rt.alloc(), "pr=!", "pr=") == Ok(false));
}

// ---- lists

/// Whether all or any of three attributes are true.
fn of_three(alloc: Global, terms: &mut Terms, all: bool) -> Result<u64, AllocError>
    ensures within { IfOk result (λ n. n < length terms.new) }
    ensures longer { length terms.old ≤ length terms.new }
{
    let x = attribute(alloc, terms, "x")?;
    let y = attribute(alloc, terms, "y")?;
    let z = attribute(alloc, terms, "z")?;
    if all {
        terms.all_of(&[x, y, z])
    } else {
        terms.any_of(&[x, y, z])
    }
}

/// Whether all or any of no terms are true.
fn of_none(terms: &mut Terms, all: bool) -> Result<u64, AllocError>
    ensures within { IfOk result (λ n. n < length terms.new) }
{
    if all {
        terms.all_of(&[])
    } else {
        terms.any_of(&[])
    }
}

fn are_joined_in(
    alloc: Global,
    terms: &mut Terms,
    all: bool,
    text: &str,
) -> Result<bool, AllocError> {
    let three = of_three(alloc, terms, all)?;
    let written = number_of(alloc, terms, text)?;
    let none = of_none(terms, all)?;
    Ok(three == written && terms.constant(none) == Some(all))
}

/// Whether three attributes are joined as it is written, and no terms are a truth value.
fn are_joined(alloc: Global, all: bool, text: &str) -> Result<bool, AllocError> {
    let mut terms = Terms::new(alloc)?;
    are_joined_in(alloc, &mut terms, all, text)
}

#[test]
fn first_half_is_rounded_down(rt: HostRuntime) {
    assert!(rt; are_joined(rt.alloc(), true, "xyz&&") == Ok(true));
    assert!(rt; are_joined(rt.alloc(), false, "xyz||") == Ok(true));
}

// ---- order

fn is_before_in(
    alloc: Global,
    terms: &mut Terms,
    left: &str,
    right: &str,
) -> Result<bool, AllocError> {
    let left = number_of(alloc, terms, left)?;
    let right = number_of(alloc, terms, right)?;
    Ok(terms.compare(left, right).is_lt() && terms.compare(right, left).is_gt())
}

/// Whether the first of two terms comes before the second, and the second after the first.
fn is_before(alloc: Global, left: &str, right: &str) -> Result<bool, AllocError> {
    let mut terms = Terms::new(alloc)?;
    is_before_in(alloc, &mut terms, left, right)
}

#[test]
fn terms_by_rows(rt: HostRuntime) {
    assert!(rt; is_before(rt.alloc(), "t", "f") == Ok(true));
    assert!(rt; is_before(rt.alloc(), "f", "p") == Ok(true));
    assert!(rt; is_before(rt.alloc(), "r", "pr=") == Ok(true));
}

// ---- sorts

fn is_of_users(sort: &Sort) -> bool {
    match sort {
        Sort::Entity(name, uids) => name.as_str() == "User" && uids.is_empty(),
        _ => false,
    }
}

fn is_user_in(alloc: Global, terms: &mut Terms, text: &str) -> Result<bool, AllocError> {
    let number = number_of(alloc, terms, text)?;
    Ok(is_of_users(terms.sort(number)))
}

/// Whether the sort of a term is that of users.
fn is_user(alloc: Global, text: &str) -> Result<bool, AllocError> {
    let mut terms = Terms::new(alloc)?;
    is_user_in(alloc, &mut terms, text)
}

#[test]
fn choices_have_the_sort_of_their_branches(rt: HostRuntime) {
    assert!(rt; is_user(rt.alloc(), "p") == Ok(true));
    assert!(rt; is_user(rt.alloc(), "xpr?") == Ok(true));
    assert!(rt; is_user(rt.alloc(), "x") == Ok(false));
    assert!(rt; is_user(rt.alloc(), "xyz?") == Ok(false));
}
