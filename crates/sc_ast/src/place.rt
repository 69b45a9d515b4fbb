//! Places in a policy file.

/// A place in a policy file: how many bytes stand before it.
#[derive(Clone, Copy, Debug, PartialEq, Eq)]
pub struct Place {
    /// The number of bytes before the place.
    pub offset: u64,
}
