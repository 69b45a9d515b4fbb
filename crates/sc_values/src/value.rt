//! The eight kinds of values.
use sc_decimal::Decimal;
use sc_ip::Ip;
use sc_lists::{Seq, Text};
use sc_names::Uid;

/// A set: its members, ascending, each once.
pub type Set = Seq<Value>;

/// A record: its fields' names and values, ascending by name, each name once.
pub type Rec = Seq<(Text, Value)>;

/// A value. The kinds stand in the order in which values of different kinds are ordered.
#[derive(Debug, PartialEq, Eq, PartialOrd, Ord, Drop)]
pub enum Value {
    /// A truth value.
    Bool(bool),
    /// A whole number of 64 bits.
    Long(i64),
    /// A text of Unicode scalar values.
    String(Text),
    /// A reference to an entity.
    Entity(Uid),
    /// A finite set.
    Set(Set),
    /// A record of values by name.
    Record(Rec),
    /// A decimal number.
    Decimal(Decimal),
    /// An address with a prefix.
    Ip(Ip),
}
