//! Tests of generated policies: the texts of three, and how long that of a thousand is.
use sc_generated::generate;
use std::alloc::{AllocError, Global};
use std::test::Fail;

/// Three policies, one a line.
const THREE: &str =
    r#"permit(principal, action, resource) when { context.n + 798 > 897 && principal in Group::"g3" };
permit(principal, action, resource) when { context.n + 877 > 144 && principal in Group::"g6" };
permit(principal, action, resource) when { context.n + 16 > 335 && principal in Group::"g0" };
"#;

/// The same in reverse order.
const TURNED: &str =
    r#"permit(principal, action, resource) when { context.n + 16 > 335 && principal in Group::"g0" };
permit(principal, action, resource) when { context.n + 877 > 144 && principal in Group::"g6" };
permit(principal, action, resource) when { context.n + 798 > 897 && principal in Group::"g3" };
"#;

fn are_three(alloc: Global) -> Result<bool, AllocError> {
    let texts = generate(alloc, 3)?;
    Ok(texts.forward.as_str() == THREE && texts.backward.as_str() == TURNED)
}

#[test]
fn three_policies(rt: HostRuntime) -> Result<(), Fail> {
    assert!(rt; are_three(rt.alloc())?);
    Ok(())
}

fn is_a_thousand(alloc: Global) -> Result<bool, AllocError> {
    let texts = generate(alloc, 1000)?;
    Ok(texts.forward.as_str().len() == 95_808 && texts.backward.as_str().len() == 95_808)
}

#[test]
fn a_thousand_policies(rt: HostRuntime) -> Result<(), Fail> {
    assert!(rt; is_a_thousand(rt.alloc())?);
    Ok(())
}
