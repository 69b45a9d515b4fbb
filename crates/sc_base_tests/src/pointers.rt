//! Tests of pointers into JSON.
use sc_json::below;
use sc_lists::Text;
use std::alloc::{AllocError, Global};
use std::test::Fail;

/// Whether this is the pointer to a name below a path.
fn is_below(alloc: Global, key: &str, path: &str, pointer: &str) -> Result<bool, AllocError> {
    let path = Text::from_str(alloc, path)?;
    Ok(below(alloc, key, &path)?.as_str() == pointer)
}

#[test]
fn names_are_escaped(rt: HostRuntime) -> Result<(), Fail> {
    let alloc = rt.alloc();
    assert!(rt; is_below(alloc, "a/b~c", "/0", "/a~1b~0c/0")?);
    assert!(rt; is_below(alloc, "", "", "/")?);
    assert!(rt; is_below(alloc, "é", "", "/é")?);
    Ok(())
}
