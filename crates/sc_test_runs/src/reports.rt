//! Reports on whether policies never allow.
use crate::runs::ends;
use crate::samples::DENIES;
use std::alloc::{AllocError, Global};

/// Whether the report on policies ends with this status and these lines.
pub fn reports(
    alloc: Global,
    schema: &str,
    policies: &str,
    told: (u8, &str),
) -> Result<bool, AllocError> {
    let held = [("s", schema.as_bytes()), ("p", policies.as_bytes())];
    ends(alloc, DENIES, &held, told)
}
