//! Decisions.

/// Whether a request is allowed.
#[derive(Clone, Copy, Debug, PartialEq, Eq)]
pub enum Decision {
    /// Some permit is satisfied, and no forbid is.
    Allow,
    /// No permit is satisfied, or some forbid is.
    Deny,
}
