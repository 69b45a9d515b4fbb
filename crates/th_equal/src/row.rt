//! Instances at closed terms.

use sc_rule_instances::Closed;

/// An instance of a rule on equations, by its closed terms.
#[derive(Clone, Copy, Debug)]
pub(crate) enum Row {
    Chain(Closed, Closed, Closed),
    Choice(Closed, u64),
    Field(Closed, Closed, u64),
    Fields(Closed, Closed),
    Presence(Closed, Closed),
    Held(Closed, Closed),
    Options(Closed, Closed, u64),
    Default(Closed),
}
