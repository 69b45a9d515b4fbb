//! The sorts of terms.
use sc_lists::{Boxed, Seq, Text};
use sc_names::{Name, Uid};

/// What the values of a term are. Sorts are ordered by their kinds, in this order, and then by
/// what they are made of.
#[derive(PartialEq, Eq, PartialOrd, Ord, Drop)]
pub enum Sort {
    /// Truth values.
    Bool,
    /// Whole numbers of 64 bits.
    Long,
    /// Texts.
    String,
    /// Decimal numbers.
    Decimal,
    /// Addresses of the internet protocol.
    Ip,
    /// Entities of the named type, with those listed that there are where it has no others: of a
    /// type of actions the declared ones, ascending; of an enumerated type its choices, in the
    /// order in which they are declared; of another type none.
    Entity(Name, Seq<Uid>),
    /// Sets with members of a sort.
    Set(Boxed<Sort>),
    /// Records with these fields, ascending by name, each name once. A field of an option sort may
    /// be absent.
    Record(Seq<(Text, Sort)>),
    /// Options: a value of the sort, or none.
    Option(Boxed<Sort>),
}
