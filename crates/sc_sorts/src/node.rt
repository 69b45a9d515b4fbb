//! The nodes of a table of terms, by how many parts they have. A part is the number of a term.
use crate::sort::Sort;
use sc_decimal::Decimal;
use sc_ip::Ip;
use sc_lists::{Seq, Text};
use sc_names::Uid;
use sc_pattern::Pattern;

/// A literal.
#[derive(PartialEq, Eq, PartialOrd, Ord, Drop)]
pub enum Literal {
    /// A truth value.
    Bool(bool),
    /// A whole number of 64 bits.
    Long(i64),
    /// A text.
    String(Text),
    /// A decimal number.
    Decimal(Decimal),
    /// An address of the internet protocol.
    Ip(Ip),
    /// An entity. Beside it stand those that its sort lists: the declared ones of a type of actions,
    /// the choices of an enumerated type.
    Entity(Uid, Seq<Uid>),
}

/// A term with no parts. What isn't told by the rest has its sort with it.
#[derive(PartialEq, Eq, PartialOrd, Ord, Drop)]
pub enum Leaf {
    /// A literal.
    Literal(Literal),
    /// The absent option of values of this sort.
    None(Sort),
    /// Who asks.
    Principal(Sort),
    /// With what.
    Resource(Sort),
    /// What else is told of the request.
    Context(Sort),
}

/// An operator on one term.
#[derive(PartialEq, Eq, PartialOrd, Ord, Drop)]
pub enum UnaryOp {
    /// The other truth value.
    Not,
    /// The bit at this place.
    Bit(u64),
    /// The carry into this bit of a sum, or of a difference.
    CarryIn(u64),
    /// Of a product, so many of whose partial products are added, the bit at a place.
    ProductRow(u64, u64),
    /// Of a product, the carry into a bit when the partial product of this number is added.
    ProductCarry(u64, u64),
    /// The stored attributes, a record of this sort.
    Attributes(Sort),
    /// The stored ancestors of this sort of entities.
    Ancestors(Sort),
    /// The keys of the tags.
    Keys,
    /// The field of this name of a record.
    Field(Text),
    /// Whether an option holds a value.
    Present,
    /// What an option holds, or else the default of its sort.
    Held,
    /// Whether a text matches this pattern.
    Like(Pattern),
}

/// An operator on two terms.
#[derive(PartialEq, Eq, PartialOrd, Ord, Drop)]
pub enum BinaryOp {
    /// Whether both are true.
    And,
    /// Whether one is true.
    Or,
    /// Whether they have one value.
    Equal,
    /// The sum in 64 bits.
    Add,
    /// The difference in 64 bits.
    Subtract,
    /// The product in 64 bits.
    Multiply,
    /// Whether the exact sum leaves 64 bits.
    AddOverflows,
    /// Whether the exact difference leaves 64 bits.
    SubtractOverflows,
    /// Whether the exact product leaves 64 bits.
    MultiplyOverflows,
    /// Whether the first number is less.
    Less,
    /// Whether the first range lies within the second.
    InRange,
    /// Whether so many of the lowest bits are less, without a sign.
    Low(u64),
    /// The tag of an entity under a key, of this sort.
    Tag(Sort),
    /// Whether a set has a member.
    Member,
    /// Whether each member of the first set is one of the second.
    Subset,
    /// Whether two sets have a member in common.
    Common,
    /// The least member of the first set that isn't one of the second.
    DifferencePick,
    /// The least member that two sets have in common.
    CommonPick,
}

/// An operator on any number of terms.
#[derive(PartialEq, Eq, PartialOrd, Ord, Drop)]
pub enum ManyOp {
    /// The record whose fields have the parts' labels as names.
    Record,
    /// The set of members of this sort. Its parts have no labels.
    Set(Sort),
}

/// Parts, each with its label.
pub type Parts = Seq<(Text, u64)>;

/// A term, with its parts by their numbers.
#[derive(PartialEq, Eq, Drop)]
pub enum Node {
    /// No parts.
    Leaf(Leaf),
    /// One part.
    One(UnaryOp, u64),
    /// Two parts.
    Two(BinaryOp, u64, u64),
    /// The second part where the first is true, and else the third.
    Choice(u64, u64, u64),
    /// Parts with a label each.
    Many(ManyOp, Parts),
}
