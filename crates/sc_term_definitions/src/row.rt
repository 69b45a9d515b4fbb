//! The rows of the table of definitions.
ghost use Rattle.std.specs.Prelude.{◌≡◌};
ghost use Rattle.sc_term_definitions.specs.Making.{count_by, shape_by};

use crate::function::{Function, Shape};

/// A row of the table of definitions. Numbers of terms come first, then places.
#[derive(Clone, Copy)]
pub(crate) enum Row {
    /// Nothing defines the term.
    Free,
    /// The term is this.
    Fixed(bool),
    /// A function of two parts.
    Pair(Function, u64, u64),
    /// A choice of truth values.
    Choice(u64, u64, u64),
    /// An equation of so many bits.
    Bits(u64, u64, u64),
    /// A bit of a sum or of a difference, or the carry out of a place: the function of the two bits
    /// and the carry, whether it is a difference, its number, those of its parts, and the place.
    Sum(Function, bool, u64, u64, u64, u64),
    /// A bit of a product.
    ProductBit(u64, u64),
    /// A bit of a row of partial products, or the carry out of a place: the function, the product,
    /// its factors, how many partial products are added before, and the place.
    Product(Function, u64, u64, u64, u64, u64),
    /// Whether a sum leaves 64 bits, or a difference, for which the flag is set.
    Overflow(bool, u64, u64),
    /// Whether a product leaves 64 bits.
    ProductOverflow(u64, u64),
    /// Whether one bit more of the first number is less.
    Low(u64, u64, u64),
    /// Whether a number is less.
    Less(u64, u64),
    /// Whether a range of addresses lies within another.
    Range(u64, u64),
}

impl Row {
    pub(crate) fn shape(self) -> Shape
        ensures { result ≡ shape_by self }
    {
        match self {
            Row::Free => Shape::Free,
            Row::Fixed(b) => Shape::Fixed(b),
            Row::Pair(function, _, _) => Shape::Table(function, false),
            Row::Choice(_, _, _) => Shape::Table(Function::Chosen, false),
            Row::Bits(_, _, _) => Shape::All,
            Row::Sum(function, difference, _, _, _, _) => Shape::Table(function, difference),
            Row::ProductBit(_, _) => Shape::Table(Function::Itself, false),
            Row::Product(function, _, _, _, _, _) => Shape::Table(function, false),
            Row::Overflow(true, _, _) => Shape::Table(Function::DifferenceOverflows, false),
            Row::Overflow(false, _, _) => Shape::Table(Function::SumOverflows, false),
            Row::ProductOverflow(_, _) => Shape::NotAll,
            Row::Low(_, _, _) => Shape::Table(Function::Below, false),
            Row::Less(_, _) => Shape::Table(Function::SignedBelow, false),
            Row::Range(_, _) => Shape::All,
        }
    }
}

impl Row {
    /// How many inputs there are.
    pub(crate) fn count(self) -> u64
        ensures { result ≡ count_by self }
    {
        match self {
            Row::Free => 0,
            Row::Fixed(_) => 0,
            Row::Pair(_, _, _) => 2,
            Row::Choice(_, _, _) => 3,
            Row::Bits(count, _, _) => count,
            Row::Sum(_, _, _, _, _, _) => 3,
            Row::ProductBit(_, _) => 1,
            Row::Product(_, _, _, _, _, _) => 3,
            Row::Overflow(_, _, _) => 3,
            Row::ProductOverflow(_, _) => 64,
            Row::Low(_, _, _) => 3,
            Row::Less(_, _) => 3,
            Row::Range(_, _) => 129,
        }
    }
}
