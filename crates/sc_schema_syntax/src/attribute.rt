//! Whether an attribute may be absent.

/// Whether each record of a type has an attribute.
#[derive(Clone, Copy)]
pub enum WrittenPresence {
    /// Each one has it.
    Required,
    /// One may lack it.
    Optional,
}
