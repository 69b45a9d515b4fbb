//! The names after `has`.
use sc_lists::{Seq, Text};
use sc_schema::Ty;
use sc_typed::{Capability, HasStep};

/// What `has` finds along some names.
#[derive(Drop)]
pub struct Path {
    /// The names that are asked, each with the type of what it is asked of.
    pub steps: Seq<HasStep>,
    /// Whether all names are there: `True`, `False` or `Bool`.
    pub found: Ty,
    /// What holds wherever all names are there.
    pub given: Seq<Capability>,
    /// The names after one that is never there.
    pub skipped: Seq<Text>,
}
