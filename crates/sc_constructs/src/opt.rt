//! What an expression is compiled to.

/// Two terms, by their numbers in a table.
#[derive(Clone, Copy, Debug, PartialEq, Eq)]
pub struct Opt {
    /// True where the expression doesn't err.
    pub ok: u64,
    /// The value of the expression there.
    pub val: u64,
}
