//! Which terms are folded: one row for each fold, and one for each term that stays as it is written.
use crate::kinds::Kind;
use crate::words::Leaf::{
    Absent, Action, Address, Chars, Default, Empty, False, My, Number, Price, Principal, Resource,
    True, User,
};
use crate::words::One::{Bit, Field, Held, Like, Not, Present, RecordOf, SetOf};
use crate::words::Two::{
    And, Common, Difference, DifferencePick, Equal, InRange, Less, Member, Or, RecordOfBoth,
    SetOfBoth, Subset, Sum, SumOverflows,
};
use crate::words::Word::{self, Choice, Leaf, One, Two};
use crate::words::{are_one, number_of};
use sc_pattern::Part::{Char, Star};
use sc_sorts::row;
use sc_terms::Terms;
use std::alloc::{AllocError, Global};

/// A term that is written, and the one that it is.
type Fold = (&'static [Word], &'static [Word]);

/// The place of the first term that isn't the one beside it.
fn first_other(alloc: Global, folds: &[Fold]) -> Option<usize> {
    for (place, row) in folds.iter().enumerate() {
        if are_one(alloc, row.0, row.1) != Ok(true) {
            return Some(place);
        }
    }
    None
}

const CONNECTIVES: &[Fold] = &[
    // negations of truth values and of negations
    (&[Leaf(True), One(Not)], &[Leaf(False)]),
    (&[Leaf(False), One(Not)], &[Leaf(True)]),
    (&[Leaf(My("on")), One(Not), One(Not)], &[Leaf(My("on"))]),
    // truth values on either side, and equal sides
    (&[Leaf(True), Leaf(My("on")), Two(And)], &[Leaf(My("on"))]),
    (&[Leaf(My("on")), Leaf(True), Two(And)], &[Leaf(My("on"))]),
    (&[Leaf(False), Leaf(My("on")), Two(And)], &[Leaf(False)]),
    (&[Leaf(My("on")), Leaf(False), Two(And)], &[Leaf(False)]),
    (
        &[Leaf(My("on")), Leaf(My("on")), Two(And)],
        &[Leaf(My("on"))],
    ),
    (&[Leaf(True), Leaf(My("on")), Two(Or)], &[Leaf(True)]),
    (&[Leaf(My("on")), Leaf(True), Two(Or)], &[Leaf(True)]),
    (&[Leaf(False), Leaf(My("on")), Two(Or)], &[Leaf(My("on"))]),
    (&[Leaf(My("on")), Leaf(False), Two(Or)], &[Leaf(My("on"))]),
    (
        &[Leaf(My("on")), Leaf(My("on")), Two(Or)],
        &[Leaf(My("on"))],
    ),
    // a known condition, and equal branches
    (
        &[Leaf(True), Leaf(Number(1)), Leaf(Number(2)), Choice],
        &[Leaf(Number(1))],
    ),
    (
        &[Leaf(False), Leaf(Number(1)), Leaf(Number(2)), Choice],
        &[Leaf(Number(2))],
    ),
    (
        &[Leaf(My("on")), Leaf(Number(1)), Leaf(Number(1)), Choice],
        &[Leaf(Number(1))],
    ),
];

const EQUATIONS: &[Fold] = &[
    // equal sides, of any kind
    (&[Leaf(My("on")), Leaf(My("on")), Two(Equal)], &[Leaf(True)]),
    (
        &[Leaf(Empty(Kind::Long)), Leaf(Empty(Kind::Long)), Two(Equal)],
        &[Leaf(True)],
    ),
    // a truth value on either side
    (&[Leaf(True), Leaf(My("on")), Two(Equal)], &[Leaf(My("on"))]),
    (&[Leaf(My("on")), Leaf(True), Two(Equal)], &[Leaf(My("on"))]),
    (
        &[Leaf(False), Leaf(My("on")), Two(Equal)],
        &[Leaf(My("on")), One(Not)],
    ),
    (
        &[Leaf(My("on")), One(Not), Leaf(False), Two(Equal)],
        &[Leaf(My("on"))],
    ),
    // literals, by their values
    (&[Leaf(True), Leaf(False), Two(Equal)], &[Leaf(False)]),
    (
        &[Leaf(Number(1)), Leaf(Number(2)), Two(Equal)],
        &[Leaf(False)],
    ),
    (
        &[Leaf(Number(2)), Leaf(Number(2)), Two(Equal)],
        &[Leaf(True)],
    ),
    (
        &[Leaf(Chars("a")), Leaf(Chars("b")), Two(Equal)],
        &[Leaf(False)],
    ),
    (
        &[Leaf(Price(1)), Leaf(Price(2)), Two(Equal)],
        &[Leaf(False)],
    ),
    (
        &[Leaf(Address(1, 32)), Leaf(Address(1, 31)), Two(Equal)],
        &[Leaf(False)],
    ),
    (
        &[Leaf(User("a")), Leaf(User("b")), Two(Equal)],
        &[Leaf(False)],
    ),
    (
        &[Leaf(User("a")), Leaf(User("a")), Two(Equal)],
        &[Leaf(True)],
    ),
    // the lesser side stands first
    (
        &[
            Leaf(Resource(Kind::User)),
            Leaf(Principal(Kind::User)),
            Two(Equal),
        ],
        &[
            Leaf(Principal(Kind::User)),
            Leaf(Resource(Kind::User)),
            Two(Equal),
        ],
    ),
    (
        &[Leaf(My("level")), Leaf(Number(1)), Two(Equal)],
        &[Leaf(Number(1)), Leaf(My("level")), Two(Equal)],
    ),
];

const PARTS: &[Fold] = &[
    // components of a record
    (
        &[Leaf(Number(1)), One(RecordOf("a")), One(Field("a"))],
        &[Leaf(Number(1))],
    ),
    (
        &[
            Leaf(Number(1)),
            Leaf(My("on")),
            Two(RecordOfBoth("a", "b")),
            One(Field("b")),
        ],
        &[Leaf(My("on"))],
    ),
    (
        &[Leaf(Default(Kind::Person)), One(Field("level"))],
        &[Leaf(Number(0))],
    ),
    (
        &[Leaf(Default(Kind::Person)), One(Field("nick"))],
        &[Leaf(Absent(Kind::String))],
    ),
    // absent options
    (&[Leaf(Absent(Kind::Long)), One(Present)], &[Leaf(False)]),
    (&[Leaf(Absent(Kind::Long)), One(Held)], &[Leaf(Number(0))]),
    (
        &[Leaf(Absent(Kind::Person)), One(Held)],
        &[Leaf(Default(Kind::Person))],
    ),
    // bits of literals
    (&[Leaf(Number(5)), One(Bit(0))], &[Leaf(True)]),
    (&[Leaf(Number(5)), One(Bit(1))], &[Leaf(False)]),
    (&[Leaf(Number(-1)), One(Bit(63))], &[Leaf(True)]),
    (&[Leaf(Price(4)), One(Bit(2))], &[Leaf(True)]),
    (&[Leaf(Address(1, 8)), One(Bit(0))], &[Leaf(False)]),
    (&[Leaf(Address(1, 8)), One(Bit(8))], &[Leaf(True)]),
    (&[Leaf(Address(1, 8)), One(Bit(9))], &[Leaf(False)]),
    // texts that are written
    (
        &[Leaf(Chars("abc")), One(Like(&[Char('a'), Star]))],
        &[Leaf(True)],
    ),
    (
        &[Leaf(Chars("abc")), One(Like(&[Star, Char('a')]))],
        &[Leaf(False)],
    ),
    (
        &[Leaf(Chars("a*")), One(Like(&[Char('a'), Char('*')]))],
        &[Leaf(True)],
    ),
];

/// The default of each kind.
const DEFAULTS: &[Fold] = &[
    (&[Leaf(Default(Kind::Bool))], &[Leaf(False)]),
    (&[Leaf(Default(Kind::Long))], &[Leaf(Number(0))]),
    (&[Leaf(Default(Kind::String))], &[Leaf(Chars(""))]),
    (&[Leaf(Default(Kind::Decimal))], &[Leaf(Price(0))]),
    (&[Leaf(Default(Kind::Ip))], &[Leaf(Address(0, 32))]),
    (&[Leaf(Default(Kind::User))], &[Leaf(User(""))]),
    // the least that is listed
    (&[Leaf(Default(Kind::Action))], &[Leaf(Action("buy"))]),
    (&[Leaf(Default(Kind::Longs))], &[Leaf(Empty(Kind::Long))]),
    (
        &[Leaf(Default(Kind::Record))],
        &[Leaf(Number(0)), One(RecordOf("a"))],
    ),
    (&[Leaf(Default(Kind::Nick))], &[Leaf(Absent(Kind::String))]),
];

#[test]
fn connectives(rt: HostRuntime) {
    assert!(rt; first_other(rt.alloc(), CONNECTIVES).is_none());
}

#[test]
fn equations(rt: HostRuntime) {
    assert!(rt; first_other(rt.alloc(), EQUATIONS).is_none());
}

#[test]
fn parts(rt: HostRuntime) {
    assert!(rt; first_other(rt.alloc(), PARTS).is_none());
}

#[test]
fn defaults(rt: HostRuntime) {
    assert!(rt; first_other(rt.alloc(), DEFAULTS).is_none());
}

// ---- what isn't folded

/// The row of what a word makes, and 0 where none of the terms below ends in it.
fn row_of(word: &Word) -> u8 {
    match word {
        One(Not) => 11,
        Two(And) => 12,
        Two(Or) => 13,
        Choice => 14,
        Two(Equal) => 15,
        Two(Sum) => 16,
        Two(Difference) => 17,
        Two(SumOverflows) => 19,
        Two(Less) => 22,
        One(Bit(_)) => 23,
        Two(InRange) => 24,
        One(Field(_)) => 33,
        One(Present) => 36,
        One(Held) => 37,
        Two(Member) => 38,
        Two(Subset) => 39,
        Two(Common) => 40,
        Two(DifferencePick) => 41,
        One(Like(_)) => 43,
        _ => 0,
    }
}

/// Terms that stay as they are written, each of the row of its last word.
const KEPT: &[&[Word]] = &[
    // a term beside its negation, and beside a term that holds it
    &[Leaf(My("on")), Leaf(My("on")), One(Not), Two(And)],
    &[Leaf(My("on")), Leaf(My("on")), One(Not), Two(Or)],
    &[Leaf(My("on")), Leaf(My("on")), One(Not), Two(Equal)],
    &[
        Leaf(My("on")),
        Leaf(My("on")),
        Leaf(My("up")),
        Two(And),
        Two(Or),
    ],
    &[Leaf(My("on")), Leaf(My("up")), Two(And), One(Not)],
    // a choice of truth values, or by a negation
    &[Leaf(My("on")), Leaf(True), Leaf(False), Choice],
    &[
        Leaf(My("on")),
        One(Not),
        Leaf(Number(1)),
        Leaf(Number(2)),
        Choice,
    ],
    // equations of what is made of literals, and isn't one
    &[
        Leaf(Number(1)),
        One(RecordOf("a")),
        Leaf(Number(2)),
        One(RecordOf("a")),
        Two(Equal),
    ],
    &[
        Leaf(Empty(Kind::Long)),
        Leaf(Number(2)),
        One(SetOf(Kind::Long)),
        Two(Equal),
    ],
    &[
        Leaf(Number(1)),
        One(SetOf(Kind::Long)),
        Leaf(Number(1)),
        Leaf(Number(1)),
        Two(SetOfBoth(Kind::Long)),
        Two(Equal),
    ],
    &[Leaf(Absent(Kind::String)), Leaf(My("nick")), Two(Equal)],
    // numbers and addresses that are written
    &[Leaf(Number(1)), Leaf(Number(2)), Two(Sum)],
    &[Leaf(Number(0)), Leaf(My("level")), Two(Difference)],
    &[Leaf(Number(1)), Leaf(Number(2)), Two(SumOverflows)],
    &[Leaf(Number(1)), Leaf(Number(2)), Two(Less)],
    &[Leaf(My("level")), Leaf(My("level")), Two(Less)],
    &[Leaf(Address(1, 8)), Leaf(Address(1, 8)), Two(InRange)],
    // what isn't a literal, a record term or an absent option
    &[Leaf(My("level")), One(Bit(0))],
    &[Leaf(Number(1)), Leaf(Number(2)), Two(Sum), One(Bit(0))],
    &[Leaf(My("name")), One(Like(&[Star]))],
    &[Leaf(My("nick")), One(Present)],
    &[Leaf(My("nick")), One(Held)],
    &[Leaf(Number(1)), One(RecordOf("a")), One(Field("b"))],
    // sets
    &[Leaf(Number(1)), Leaf(Empty(Kind::Long)), Two(Member)],
    &[Leaf(My("friends")), Leaf(My("friends")), Two(Subset)],
    &[Leaf(My("friends")), Leaf(Empty(Kind::User)), Two(Common)],
    &[
        Leaf(Empty(Kind::Long)),
        Leaf(Empty(Kind::Long)),
        Two(DifferencePick),
    ],
];

/// Whether a term is of the row of its last word.
fn stays(alloc: Global, words: &[Word]) -> Result<bool, AllocError> {
    let Some(last) = words.last() else {
        return Ok(false);
    };
    let mut terms = Terms::new(alloc)?;
    let number = number_of(alloc, &mut terms, words)?;
    Ok(row(terms.node(number)) == row_of(last))
}

/// The place of the first term that isn't of its row, counted from 0.
fn first_folded(alloc: Global, kept: &[&[Word]]) -> Option<usize> {
    for (place, &words) in kept.iter().enumerate() {
        if stays(alloc, words) != Ok(true) {
            return Some(place);
        }
    }
    None
}

#[test]
fn nothing_else(rt: HostRuntime) {
    let folded = first_folded(rt.alloc(), KEPT);
    assert!(rt; folded.is_none(), "{folded:?}");
}
