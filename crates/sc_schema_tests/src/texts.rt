//! What faults say, and whether a text is the one that is meant.
use sc_lists::Fault;
use sc_schema_syntax::SchemaFault;
use std::alloc::{AllocError, Global};

/// What a fault says.
pub fn fault_text(alloc: Global, fault: &Fault<SchemaFault>) -> Result<String, AllocError> {
    format!(in alloc; "{fault}")
}

/// Whether a text is made and is this one.
pub fn is_text(found: Result<String, AllocError>, text: &str) -> bool {
    match found {
        Ok(found) => found.as_str() == text,
        Err(_) => false,
    }
}
