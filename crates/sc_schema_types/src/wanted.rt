//! What is wanted of a type where it stands.

/// What a type has to be where it stands.
#[derive(Clone, Copy, PartialEq, Eq)]
pub(crate) enum Wanted {
    /// Any type.
    AnyType,
    /// A record type.
    RecordType,
}
