//! How many atoms a problem may have.
use thiserror::Error;

/// How many atoms may be listed.
pub const MOST_ATOMS: u64 = 4_194_304;

/// More than 4,194,304 atoms would be listed.
#[derive(Clone, Copy, Debug, PartialEq, Eq, Error)]
#[error("too many atoms")]
pub struct OverLimit;
