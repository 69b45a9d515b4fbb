//! A term of each row of the table of terms, its sort, and that terms are ordered by rows first.
use crate::kinds::{Kind, sort};
use crate::words::Leaf::{
    Absent, Action, Address, Chars, Context, False, My, Number, Price, Principal, Resource, True,
};
use crate::words::One::{
    Ancestors, Attributes, Bit, CarryIn, Field, Held, Keys, Like, Not, Present, ProductCarry,
    ProductRow, RecordOf, SetOf,
};
use crate::words::Two::{
    And, Common, CommonPick, Difference, DifferenceOverflows, DifferencePick, Equal, InRange, Less,
    Low, Member, Or, Product, ProductOverflows, Subset, Sum, SumOverflows, Tag,
};
use crate::words::Word::{self, Choice, Leaf, One, Two};
use crate::words::{number_of, orders};
use sc_pattern::Part::{Char, Star};
use sc_sorts::{Sort, row};
use sc_terms::Terms;
use std::alloc::{AllocError, Global};

/// A term, and the kind of its sort.
type Row = (&'static [Word], Kind);

const ROWS: &[Row] = &[
    (&[Leaf(True)], Kind::Bool),
    (&[Leaf(False)], Kind::Bool),
    (&[Leaf(Number(7))], Kind::Long),
    (&[Leaf(Chars("x"))], Kind::String),
    (&[Leaf(Price(5))], Kind::Decimal),
    (&[Leaf(Address(1, 32))], Kind::Ip),
    (&[Leaf(Action("view"))], Kind::Action),
    (&[Leaf(Absent(Kind::String))], Kind::Nick),
    (&[Leaf(Principal(Kind::User))], Kind::User),
    (&[Leaf(Resource(Kind::User))], Kind::User),
    (&[Leaf(Context(Kind::Person))], Kind::Person),
    // connectives
    (&[Leaf(My("on")), One(Not)], Kind::Bool),
    (&[Leaf(My("on")), Leaf(My("up")), Two(And)], Kind::Bool),
    (&[Leaf(My("on")), Leaf(My("up")), Two(Or)], Kind::Bool),
    (
        &[Leaf(My("on")), Leaf(My("price")), Leaf(Price(5)), Choice],
        Kind::Decimal,
    ),
    (
        &[Leaf(My("name")), Leaf(Chars("x")), Two(Equal)],
        Kind::Bool,
    ),
    // numbers
    (&[Leaf(Number(1)), Leaf(Number(2)), Two(Sum)], Kind::Long),
    (
        &[Leaf(Number(1)), Leaf(Number(2)), Two(Difference)],
        Kind::Long,
    ),
    (
        &[Leaf(Number(1)), Leaf(Number(2)), Two(Product)],
        Kind::Long,
    ),
    (
        &[Leaf(Number(1)), Leaf(Number(2)), Two(SumOverflows)],
        Kind::Bool,
    ),
    (
        &[Leaf(Number(1)), Leaf(Number(2)), Two(DifferenceOverflows)],
        Kind::Bool,
    ),
    (
        &[Leaf(Number(1)), Leaf(Number(2)), Two(ProductOverflows)],
        Kind::Bool,
    ),
    (&[Leaf(Price(1)), Leaf(Price(2)), Two(Less)], Kind::Bool),
    // bits
    (&[Leaf(My("level")), One(Bit(63))], Kind::Bool),
    (
        &[Leaf(My("address")), Leaf(Address(1, 8)), Two(InRange)],
        Kind::Bool,
    ),
    (
        &[Leaf(Number(1)), Leaf(Number(2)), Two(Sum), One(CarryIn(1))],
        Kind::Bool,
    ),
    (&[Leaf(Number(1)), Leaf(Number(2)), Two(Low(3))], Kind::Bool),
    (
        &[
            Leaf(Number(1)),
            Leaf(Number(2)),
            Two(Product),
            One(ProductRow(128, 127)),
        ],
        Kind::Bool,
    ),
    (
        &[
            Leaf(Number(1)),
            Leaf(Number(2)),
            Two(Product),
            One(ProductCarry(127, 128)),
        ],
        Kind::Bool,
    ),
    // entities
    (
        &[Leaf(Principal(Kind::User)), One(Attributes(Kind::Person))],
        Kind::Person,
    ),
    (
        &[Leaf(Principal(Kind::User)), One(Ancestors(Kind::User))],
        Kind::Users,
    ),
    (&[Leaf(Principal(Kind::User)), One(Keys)], Kind::Strings),
    (
        &[
            Leaf(Principal(Kind::User)),
            Leaf(Chars("x")),
            Two(Tag(Kind::Long)),
        ],
        Kind::Long,
    ),
    // records, sets and options
    (
        &[Leaf(Context(Kind::Person)), One(Field("nick"))],
        Kind::Nick,
    ),
    (&[Leaf(Number(1)), One(RecordOf("a"))], Kind::Record),
    (&[Leaf(Number(1)), One(SetOf(Kind::Long))], Kind::Longs),
    (&[Leaf(My("nick")), One(Present)], Kind::Bool),
    (&[Leaf(My("nick")), One(Held)], Kind::String),
    (
        &[
            Leaf(Principal(Kind::User)),
            Leaf(My("friends")),
            Two(Member),
        ],
        Kind::Bool,
    ),
    (
        &[Leaf(My("friends")), Leaf(My("friends")), Two(Subset)],
        Kind::Bool,
    ),
    (
        &[Leaf(My("friends")), Leaf(My("friends")), Two(Common)],
        Kind::Bool,
    ),
    (
        &[
            Leaf(My("friends")),
            Leaf(My("friends")),
            Two(DifferencePick),
        ],
        Kind::User,
    ),
    (
        &[Leaf(My("friends")), Leaf(My("friends")), Two(CommonPick)],
        Kind::User,
    ),
    (
        &[Leaf(My("name")), One(Like(&[Char('a'), Star]))],
        Kind::Bool,
    ),
];

/// A term of each row, in the order of rows.
fn rows_in_order() -> &'static [Row] {
    ROWS
}

fn is_same(sort: &Sort, other: &Sort) -> bool {
    *sort == *other
}

/// Whether a term that is written is of a sort.
fn is_of_sort(alloc: Global, words: &[Word], sort: &Sort) -> Result<bool, AllocError> {
    let mut terms = Terms::new(alloc)?;
    let number = number_of(alloc, &mut terms, words)?;
    Ok(is_same(terms.sort(number), sort))
}

/// The same of the sort of a kind.
fn is_of(alloc: Global, words: &[Word], kind: Kind) -> bool {
    match sort(alloc, kind) {
        Ok(sort) => is_of_sort(alloc, words, &sort) == Ok(true),
        Err(_) => false,
    }
}

/// The place of the first row whose term isn't of its sort, counted from 0.
fn first_of_another_sort(alloc: Global, rows: &[Row]) -> Option<usize> {
    for (place, row) in rows.iter().enumerate() {
        if !is_of(alloc, row.0, row.1) {
            return Some(place);
        }
    }
    None
}

#[test]
fn sorts(rt: HostRuntime) {
    let other = first_of_another_sort(rt.alloc(), rows_in_order());
    assert!(rt; other.is_none(), "{other:?}");
}

/// Whether the row of a term is this one.
fn is_in_row(alloc: Global, words: &[Word], place: usize) -> Result<bool, AllocError> {
    let mut terms = Terms::new(alloc)?;
    let number = number_of(alloc, &mut terms, words)?;
    Ok(usize::from(row(terms.node(number))) == place)
}

/// The place of the first row whose term is of another row, counted from 0.
fn first_in_another_row(alloc: Global, rows: &[Row]) -> Option<usize> {
    for (place, row) in rows.iter().enumerate() {
        if is_in_row(alloc, row.0, place) != Ok(true) {
            return Some(place);
        }
    }
    None
}

#[test]
fn rows(rt: HostRuntime) {
    let other = first_in_another_row(rt.alloc(), rows_in_order());
    assert!(rt; other.is_none(), "{other:?}");
    assert!(rt; rows_in_order().len() == 44);
}

/// Whether a term compares with that of each row as its place does with the row's.
fn is_in_order(alloc: Global, place: usize, words: &[Word], rows: &[Row]) -> bool {
    for (other, row) in rows.iter().enumerate() {
        let wanted = (place.cmp(&other), other.cmp(&place));
        if orders(alloc, words, row.0) != Ok(wanted) {
            return false;
        }
    }
    true
}

/// The place of the first row whose term isn't in its order, counted from 0.
fn first_out_of_order(alloc: Global, rows: &[Row]) -> Option<usize> {
    for (place, row) in rows.iter().enumerate() {
        if !is_in_order(alloc, place, row.0, rows) {
            return Some(place);
        }
    }
    None
}

#[test]
fn rows_come_first(rt: HostRuntime) {
    let other = first_out_of_order(rt.alloc(), rows_in_order());
    assert!(rt; other.is_none(), "{other:?}");
}
