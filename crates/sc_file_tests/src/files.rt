//! Files that were cut or are deep.
use sc_test_runs::questions::is_told;
use sc_test_runs::reports::reports;
use sc_test_runs::runs::{ends, written};
use sc_test_runs::samples::{DENIES, HOLDS};
use sc_test_runs::schemas::{FULL, TRUTH};
use std::alloc::{AllocError, Global};
use std::test::Fail;

/// Whether a schema file with these bytes spells no JSON.
fn is_not_json(alloc: Global, schema: &[u8]) -> Result<bool, AllocError> {
    let held = [("s", schema), ("p", b"".as_slice())];
    ends(alloc, DENIES, &held, (12, "error 12 NotJson"))
}

#[test]
fn schemas_that_were_cut(rt: HostRuntime) -> Result<(), Fail> {
    let schema = FULL.as_bytes();
    for length in 0..schema.len() {
        assert!(rt; is_not_json(rt.alloc(), &schema[..length])?, "{length}");
    }
    Ok(())
}

const OF_TWO_GROUPS: &str =
    r#"permit(principal, action, resource) when { principal in Group::"a" && Group::"a" in Group::"b" };"#;

/// Whether a policy file with these bytes is refused.
fn spells_no_policies(alloc: Global, policies: &[u8]) -> Result<bool, AllocError> {
    let held = [("s", FULL.as_bytes()), ("p", policies)];
    let line = written(alloc, DENIES, &held, 11)?;
    Ok(line.starts_with(b"error 11 policies "))
}

#[test]
fn policies_that_were_cut(rt: HostRuntime) -> Result<(), Fail> {
    let policies = OF_TWO_GROUPS.as_bytes();
    for length in 1..policies.len() {
        assert!(rt;
            spells_no_policies(rt.alloc(), &policies[..length])?,
            "{length}"
        );
    }
    Ok(())
}

/// How often a conjunction is continued, with the status and the line for a condition of that length.
const CHAINS: &[(usize, u8, &str)] = &[
    (999, 0, HOLDS),
    (1_000, 11, "error 11 policies TooDeep at 8043"),
];

/// What is true, and so often that and what is true.
fn chain(alloc: Global, count: usize) -> Result<String, AllocError> {
    let mut text = String::from_str(alloc, "true")?;
    for _ in 0..count {
        text.push_str(" && true")?;
    }
    Ok(text)
}

fn chain_ends(alloc: Global, count: usize, told: (u8, &str)) -> Result<bool, AllocError> {
    let condition = chain(alloc, count)?;
    is_told(alloc, TRUTH, "always-allows", (&condition, ""), told)
}

#[test]
fn conditions_as_deep_as_they_may_be(rt: HostRuntime) -> Result<(), Fail> {
    for &(count, code, line) in CHAINS {
        assert!(rt; chain_ends(rt.alloc(), count, (code, line))?, "{count}");
    }
    Ok(())
}

/// So many opening brackets, and as many closing ones.
fn brackets(alloc: Global, count: usize) -> Result<Vec<u8>, AllocError> {
    let mut bytes = Vec::new(alloc);
    bytes.resize(count, b'[')?;
    for _ in 0..count {
        bytes.push(b']')?;
    }
    Ok(bytes)
}

fn is_too_deep(alloc: Global, count: usize) -> Result<bool, AllocError> {
    let schema = brackets(alloc, count)?;
    is_not_json(alloc, &schema)
}

#[test]
fn a_schema_that_is_too_deep(rt: HostRuntime) -> Result<(), Fail> {
    assert!(rt; is_too_deep(rt.alloc(), 128)?);
    Ok(())
}

#[test]
fn comparisons_do_not_chain(rt: HostRuntime) -> Result<(), Fail> {
    let policies = "permit(principal, action, resource) when { context.n < 1 < 2 };";
    let told = (11, "error 11 policies Unexpected at 57");
    assert!(rt; reports(rt.alloc(), FULL, policies, told)?);
    Ok(())
}
