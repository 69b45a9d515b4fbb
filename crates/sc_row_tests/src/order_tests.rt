//! The order of terms of one row: by their parts from left to right, and then by what else they hold.
use crate::kinds::Kind;
use crate::words::Leaf::{
    Absent, Action, Address, Chars, Default, Empty, My, Number, Price, Principal, User,
};
use crate::words::One::{
    Ancestors, Attributes, Bit, Field, Like, Not, ProductRow, RecordOf, SetOf,
};
use crate::words::Two::{And, Equal, Low, Product, RecordOfBoth, SetOfBoth, Tag};
use crate::words::Word::{self, Choice, Leaf, One, Two};
use crate::words::{are_one, orders};
use sc_pattern::Part::{Char, Star};
use std::alloc::Global;
use std::cmp::Ordering::{self, Greater, Less};

/// Two terms, and how the first compares with the second.
type Pair = (&'static [Word], &'static [Word], Ordering);

/// Whether the first term compares so with the second, and the second the other way round with the first.
fn are_ordered(alloc: Global, left: &[Word], right: &[Word], order: Ordering) -> bool {
    orders(alloc, left, right) == Ok((order, order.reverse()))
}

/// The place of the first pair whose terms don't compare so, or not the other way round.
fn first_other(alloc: Global, pairs: &[Pair]) -> Option<usize> {
    for (place, pair) in pairs.iter().enumerate() {
        if !are_ordered(alloc, pair.0, pair.1, pair.2) {
            return Some(place);
        }
    }
    None
}

const LITERALS: &[Pair] = &[
    (&[Leaf(Number(-1))], &[Leaf(Number(0))], Less),
    (&[Leaf(Number(2))], &[Leaf(Number(10))], Less),
    (&[Leaf(Number(2))], &[Leaf(Number(2))], Ordering::Equal),
    // of texts a proper prefix first, and then by bytes
    (&[Leaf(Chars("a"))], &[Leaf(Chars("ab"))], Less),
    (&[Leaf(Chars("b"))], &[Leaf(Chars("ab"))], Greater),
    (&[Leaf(Chars("z"))], &[Leaf(Chars("ä"))], Less),
    (&[Leaf(Price(-5))], &[Leaf(Price(5))], Less),
    // by address, then prefix
    (&[Leaf(Address(1, 32))], &[Leaf(Address(2, 8))], Less),
    (&[Leaf(Address(1, 32))], &[Leaf(Address(1, 8))], Greater),
    // by type, then id
    (&[Leaf(Action("view"))], &[Leaf(User("a"))], Less),
    (&[Leaf(User("b"))], &[Leaf(User("a"))], Greater),
];

/// Two kinds, and how the absent option of the first compares with that of the second: by kinds in their order, and
/// then by what is inside them.
const ABSENT: &[(Kind, Kind, Ordering)] = &[
    (Kind::Bool, Kind::Long, Less),
    (Kind::String, Kind::Long, Greater),
    (Kind::Ip, Kind::Decimal, Greater),
    (Kind::Ip, Kind::User, Less),
    (Kind::Longs, Kind::User, Greater),
    (Kind::Longs, Kind::Person, Less),
    (Kind::Nick, Kind::Person, Greater),
    (Kind::Action, Kind::User, Less),
    (Kind::Users, Kind::Strings, Greater),
    (Kind::Record, Kind::Person, Less),
];

/// The place of the first row whose options don't compare so.
fn first_other_absent(alloc: Global) -> Option<usize> {
    for (place, &(left, right, order)) in ABSENT.iter().enumerate() {
        if !are_ordered(alloc, &[Leaf(Absent(left))], &[Leaf(Absent(right))], order) {
            return Some(place);
        }
    }
    None
}

const SORTED: &[Pair] = &[
    (
        &[Leaf(Principal(Kind::User))],
        &[Leaf(Principal(Kind::Action))],
        Greater,
    ),
    // the sort of a set comes after its members
    (
        &[Leaf(Empty(Kind::Long))],
        &[Leaf(Empty(Kind::Bool))],
        Greater,
    ),
    (
        &[Leaf(Number(1)), One(SetOf(Kind::Bool))],
        &[Leaf(Number(0)), One(SetOf(Kind::Long))],
        Greater,
    ),
    (
        &[Leaf(Principal(Kind::User)), One(Attributes(Kind::Record))],
        &[Leaf(Principal(Kind::Action)), One(Attributes(Kind::Person))],
        Greater,
    ),
    (
        &[Leaf(Principal(Kind::User)), One(Ancestors(Kind::Action))],
        &[Leaf(Principal(Kind::User)), One(Ancestors(Kind::User))],
        Less,
    ),
    (
        &[Leaf(User("a")), Leaf(Chars("k")), Two(Tag(Kind::Long))],
        &[Leaf(User("a")), Leaf(Chars("l")), Two(Tag(Kind::Bool))],
        Less,
    ),
    (
        &[Leaf(User("a")), Leaf(Chars("k")), Two(Tag(Kind::Long))],
        &[Leaf(User("a")), Leaf(Chars("k")), Two(Tag(Kind::Bool))],
        Greater,
    ),
];

/// Two numbers, and the names of the fields of a record in which they stand.
type Fields = (i64, i64, &'static str, &'static str);

/// Two records, and how the first compares with the second: by the name of a field, then its part, then the next name.
const RECORDS: &[(Fields, Fields, Ordering)] = &[
    ((2, 0, "a", "b"), (1, 9, "a", "c"), Greater),
    ((1, 0, "a", "c"), (1, 9, "a", "b"), Greater),
    ((9, 9, "a", "b"), (0, 0, "b", "c"), Less),
];

fn record_of(fields: Fields) -> [Word; 3] {
    let (first, second, name, other) = fields;
    [
        Leaf(Number(first)),
        Leaf(Number(second)),
        Two(RecordOfBoth(name, other)),
    ]
}

/// The place of the first row whose records don't compare so.
fn first_other_record(alloc: Global) -> Option<usize> {
    for (place, &(left, right, order)) in RECORDS.iter().enumerate() {
        if !are_ordered(alloc, &record_of(left), &record_of(right), order) {
            return Some(place);
        }
    }
    None
}

const LISTS: &[Pair] = &[
    // a proper prefix comes first
    (
        &[Leaf(Number(1)), One(RecordOf("a"))],
        &[
            Leaf(Number(1)),
            Leaf(Number(0)),
            Two(RecordOfBoth("a", "b")),
        ],
        Less,
    ),
    (
        &[Leaf(Number(2)), One(RecordOf("a"))],
        &[
            Leaf(Number(1)),
            Leaf(Number(0)),
            Two(RecordOfBoth("a", "b")),
        ],
        Greater,
    ),
    (
        &[Leaf(Empty(Kind::Long))],
        &[Leaf(Number(0)), One(SetOf(Kind::Bool))],
        Less,
    ),
    (
        &[Leaf(Number(1)), One(SetOf(Kind::Long))],
        &[Leaf(Number(1)), Leaf(Number(0)), Two(SetOfBoth(Kind::Long))],
        Less,
    ),
    // members stay as they are written
    (
        &[Leaf(Number(2)), Leaf(Number(1)), Two(SetOfBoth(Kind::Long))],
        &[Leaf(Number(1)), Leaf(Number(2)), Two(SetOfBoth(Kind::Long))],
        Greater,
    ),
];

const PARTS: &[Pair] = &[
    // the first part, then the second
    (
        &[Leaf(My("on")), Leaf(My("up")), Two(And)],
        &[Leaf(My("up")), Leaf(My("on")), Two(And)],
        Less,
    ),
    // rows of parts come before what the parts hold
    (
        &[Leaf(My("on")), Leaf(My("up")), Two(And), One(Not)],
        &[Leaf(My("on")), Leaf(My("up")), Two(Equal), One(Not)],
        Less,
    ),
    // condition, then branches
    (
        &[Leaf(My("on")), Leaf(Number(9)), Leaf(Number(8)), Choice],
        &[Leaf(My("up")), Leaf(Number(1)), Leaf(Number(2)), Choice],
        Less,
    ),
    (
        &[Leaf(My("on")), Leaf(Number(1)), Leaf(Number(9)), Choice],
        &[Leaf(My("on")), Leaf(Number(2)), Leaf(Number(1)), Choice],
        Less,
    ),
    // a place comes after the part
    (
        &[Leaf(My("level")), One(Bit(63))],
        &[Leaf(My("price")), One(Bit(0))],
        Less,
    ),
    (
        &[Leaf(My("level")), One(Bit(9))],
        &[Leaf(My("level")), One(Bit(10))],
        Less,
    ),
    (
        &[Leaf(Number(1)), Leaf(Number(2)), Two(Low(9))],
        &[Leaf(Number(1)), Leaf(Number(3)), Two(Low(1))],
        Less,
    ),
    (
        &[
            Leaf(Number(1)),
            Leaf(Number(2)),
            Two(Product),
            One(ProductRow(1, 9)),
        ],
        &[
            Leaf(Number(1)),
            Leaf(Number(2)),
            Two(Product),
            One(ProductRow(2, 0)),
        ],
        Less,
    ),
    // so does the name of a field
    (
        &[
            Leaf(Principal(Kind::User)),
            One(Attributes(Kind::Person)),
            One(Field("a")),
        ],
        &[
            Leaf(Principal(Kind::User)),
            One(Attributes(Kind::Record)),
            One(Field("b")),
        ],
        Greater,
    ),
    (&[Leaf(My("name"))], &[Leaf(My("nick"))], Less),
    // and a pattern: a star before each character, characters by number
    (
        &[Leaf(My("name")), One(Like(&[Star]))],
        &[Leaf(My("name")), One(Like(&[Char('*')]))],
        Less,
    ),
    (
        &[Leaf(My("name")), One(Like(&[Char('z')]))],
        &[Leaf(My("name")), One(Like(&[Char('ä')]))],
        Less,
    ),
    (
        &[Leaf(My("name")), One(Like(&[Char('a'), Star]))],
        &[Leaf(My("name")), One(Like(&[Char('a')]))],
        Greater,
    ),
];

#[test]
fn literals(rt: HostRuntime) {
    assert!(rt; first_other(rt.alloc(), LITERALS).is_none());
}

#[test]
fn terms_with_sorts(rt: HostRuntime) {
    assert!(rt; first_other_absent(rt.alloc()).is_none());
    assert!(rt; first_other(rt.alloc(), SORTED).is_none());
}

#[test]
fn records_and_sets(rt: HostRuntime) {
    assert!(rt; first_other_record(rt.alloc()).is_none());
    assert!(rt; first_other(rt.alloc(), LISTS).is_none());
}

#[test]
fn parts_from_left_to_right(rt: HostRuntime) {
    assert!(rt; first_other(rt.alloc(), PARTS).is_none());
}

/// Terms that differ by their sorts alone.
const APART: &[(&[Word], &[Word])] = &[
    (&[Leaf(Empty(Kind::Long))], &[Leaf(Empty(Kind::User))]),
    (&[Leaf(Absent(Kind::Long))], &[Leaf(Absent(Kind::User))]),
    (&[Leaf(Default(Kind::Longs))], &[Leaf(Default(Kind::Users))]),
    (
        &[Leaf(Principal(Kind::User)), One(Attributes(Kind::Record))],
        &[Leaf(Principal(Kind::User)), One(Attributes(Kind::Person))],
    ),
];

/// The place of the first pair whose terms are one, counted from 0.
fn first_one(alloc: Global, pairs: &[(&[Word], &[Word])]) -> Option<usize> {
    for (place, pair) in pairs.iter().enumerate() {
        if are_one(alloc, pair.0, pair.1) != Ok(false) {
            return Some(place);
        }
    }
    None
}

#[test]
fn terms_of_two_sorts_are_two(rt: HostRuntime) {
    let one = first_one(rt.alloc(), APART);
    assert!(rt; one.is_none(), "{one:?}");
}
