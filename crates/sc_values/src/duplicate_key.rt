//! The fault of pairs that make no record.
use sc_lists::Text;
use thiserror::Error;

/// Two pairs have one key.
#[derive(Debug, Drop, Error)]
#[error("two fields of one name")]
pub struct DuplicateKey {
    /// The least such key.
    pub key: Text,
}
