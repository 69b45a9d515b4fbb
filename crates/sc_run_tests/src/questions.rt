//! Questions that hold and questions that don't, a line each.
use sc_test_runs::questions::{holds, is_violated};
use std::alloc::Global;
use std::process::Abort;
use std::test::Fail;

/// Asserts that each of these questions holds, a line each.
pub fn all_hold(rt: &impl Abort, alloc: Global, schema: &str, lines: &str) -> Result<(), Fail> {
    for line in lines.trim().lines() {
        assert!(rt; holds(alloc, schema, line)?, "{line}");
    }
    Ok(())
}

/// Asserts that each of these questions fails, a line each.
pub fn all_fail(rt: &impl Abort, alloc: Global, schema: &str, lines: &str) -> Result<(), Fail> {
    for line in lines.trim().lines() {
        assert!(rt; is_violated(alloc, schema, line)?, "{line}");
    }
    Ok(())
}
