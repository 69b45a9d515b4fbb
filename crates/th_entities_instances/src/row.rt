//! Instances at closed terms.

use crate::alike::Alike;
use crate::places::{Pair, TagPairs};
use sc_rule_instances::Closed;

/// An instance of a rule on entities, by its closed terms. Those of like places have what the places
/// are of, too.
#[derive(Clone, Copy, Debug)]
pub(crate) enum Row {
    Attributes(Pair, Alike),
    Sets(Closed, Closed, Closed),
    Tags(TagPairs, Alike),
    Own(Closed),
    Through(Closed, Closed, Closed, Closed),
    Lacking(Closed),
    Declared(Closed, Closed),
    Acting(Closed),
    Enumerated(Closed),
}
