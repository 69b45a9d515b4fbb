//! What a step of a comparison tells.
use std::cmp::Ordering;

/// What a step of a comparison tells.
#[derive(Clone, Copy)]
pub(crate) enum Step {
    /// The order.
    Told(Ordering),
    /// Two parts, whose order it is.
    Parts(u64, u64),
}
