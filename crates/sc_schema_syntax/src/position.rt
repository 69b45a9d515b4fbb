//! Where a type stands.

/// Where a type stands, which tells whether it may have the member `required`.
#[derive(Clone, Copy)]
pub(crate) enum Position {
    /// As the type of an attribute.
    Attribute,
    /// Anywhere else.
    Elsewhere,
}
