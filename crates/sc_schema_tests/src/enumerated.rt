//! Enumerated entity types: what a file may say of them, and the places of its faults.
use crate::texts::{fault_text, is_text};
use sc_schema_syntax::read_syntax;
use std::alloc::{AllocError, Global};

/// A file with an entity type of these members.
fn with_members(alloc: Global, members: &str) -> Result<String, AllocError> {
    r#"{"":{"entityTypes":{"U":{MEMBERS}}}}"#.replace(alloc, "MEMBERS", members)
}

/// What the fault of a file says, and `read` of one that has none.
fn told_of(alloc: Global, bytes: &[u8]) -> Result<String, AllocError> {
    match read_syntax(alloc, bytes) {
        Ok(_) => String::from_str(alloc, "read"),
        Err(fault) => fault_text(alloc, &fault),
    }
}

/// Whether this is told of a file, if it is made.
fn is_told(alloc: Global, file: Result<String, AllocError>, told: &str) -> bool {
    match file {
        Ok(text) => is_text(told_of(alloc, text.as_bytes()), told),
        Err(_) => false,
    }
}

/// Members of entity types that are read.
const READ: &[&str] = &[
    r#""enum":["a"]"#,
    r#""enum":["a","A","aa",""]"#,
    r#""enum":["a b","\u00e9","\"","1"]"#,
    r#""enum":["Action","enum","annotations"]"#,
    r#""annotations":{"doc":"x"},"enum":["a"]"#,
    r#""enum":["a"],"annotations":1"#,
    // of members with one name the last counts
    r#""enum":[],"enum":["a"]"#,
    r#""shape":1,"annotations":1,"shape":{"type":"T"}"#,
];

#[test]
fn choices_are_read(rt: HostRuntime) {
    let alloc = rt.alloc();
    for &members in READ {
        assert!(rt;
            is_told(alloc, with_members(alloc, members), "read"),
            "{members}"
        );
    }
}

/// Members of entity types, and the fault of the list or of an item of it.
const LISTS: &[(&str, &str)] = &[
    // no list, no choices
    (r#""enum":"a""#, "bad shape at //entityTypes/U/enum"),
    (r#""enum":null"#, "bad shape at //entityTypes/U/enum"),
    (r#""enum":true"#, "bad shape at //entityTypes/U/enum"),
    (r#""enum":1"#, "bad shape at //entityTypes/U/enum"),
    (r#""enum":{}"#, "bad shape at //entityTypes/U/enum"),
    (r#""enum":{"0":"a"}"#, "bad shape at //entityTypes/U/enum"),
    (r#""enum":[]"#, "bad shape at //entityTypes/U/enum"),
    (
        r#""enum":["a"],"enum":[]"#,
        "bad shape at //entityTypes/U/enum",
    ),
    // an item that is no text
    (r#""enum":[1]"#, "bad shape at //entityTypes/U/enum/0"),
    (
        r#""enum":["a",null]"#,
        "bad shape at //entityTypes/U/enum/1",
    ),
    (
        r#""enum":["a",["b"]]"#,
        "bad shape at //entityTypes/U/enum/1",
    ),
    (r#""enum":["a",{}]"#, "bad shape at //entityTypes/U/enum/1"),
    (
        r#""enum":["a",false,"b"]"#,
        "bad shape at //entityTypes/U/enum/1",
    ),
    // a repeated item, at the later one
    (r#""enum":["a","a"]"#, "bad shape at //entityTypes/U/enum/1"),
    (
        r#""enum":["a","b","c","b","a"]"#,
        "bad shape at //entityTypes/U/enum/3",
    ),
    (
        r#""enum":["a","\u0061"]"#,
        "bad shape at //entityTypes/U/enum/1",
    ),
    (
        r#""enum":["","a",""]"#,
        "bad shape at //entityTypes/U/enum/2",
    ),
    // the first of several
    (
        r#""enum":["a","a",1]"#,
        "bad shape at //entityTypes/U/enum/1",
    ),
    (
        r#""enum":["a",1,"a"]"#,
        "bad shape at //entityTypes/U/enum/1",
    ),
    (r#""enum":[1,1]"#, "bad shape at //entityTypes/U/enum/0"),
];

#[test]
fn bad_lists_and_items(rt: HostRuntime) {
    let alloc = rt.alloc();
    for &(members, told) in LISTS {
        assert!(rt;
            is_told(alloc, with_members(alloc, members), told),
            "{members}"
        );
    }
}

/// Members beside `enum`, found in the order of their bytes.
const BESIDE: &[(&str, &str)] = &[
    // behind `enum`, written after it and before it
    (
        r#""enum":["a"],"memberOfTypes":[]"#,
        "bad shape at //entityTypes/U/memberOfTypes",
    ),
    (
        r#""memberOfTypes":["U"],"enum":["a"]"#,
        "bad shape at //entityTypes/U/memberOfTypes",
    ),
    (
        r#""enum":["a"],"shape":{"type":"Record","attributes":{}}"#,
        "bad shape at //entityTypes/U/shape",
    ),
    (
        r#""shape":{"type":"Record","attributes":{}},"enum":["a"]"#,
        "bad shape at //entityTypes/U/shape",
    ),
    (
        r#""enum":["a"],"tags":{"type":"String"}"#,
        "bad shape at //entityTypes/U/tags",
    ),
    (
        r#""tags":{"type":"String"},"enum":["a"]"#,
        "bad shape at //entityTypes/U/tags",
    ),
    (
        r#""enum":["a"],"enums":1"#,
        "bad shape at //entityTypes/U/enums",
    ),
    // before `enum`
    (
        r#""enum":["a"],"Enum":["a"]"#,
        "bad shape at //entityTypes/U/Enum",
    ),
    (
        r#""enum":["a"],"doc":null"#,
        "bad shape at //entityTypes/U/doc",
    ),
    (r#""enum":["a"],"":null"#, "bad shape at //entityTypes/U/"),
    // the first of several
    (
        r#""tags":{"type":"String"},"shape":1,"memberOfTypes":[],"enum":["a"]"#,
        "bad shape at //entityTypes/U/memberOfTypes",
    ),
    (
        r#""memberOfTypes":[],"enum":[]"#,
        "bad shape at //entityTypes/U/enum",
    ),
    (
        r#""memberOfTypes":[],"enum":["a","a"]"#,
        "bad shape at //entityTypes/U/enum/1",
    ),
    (r#""doc":1,"enum":[]"#, "bad shape at //entityTypes/U/doc"),
    // elsewhere there is no `enum`
    (
        r#""memberOfTypes":[],"enums":["a"]"#,
        "bad shape at //entityTypes/U/enums",
    ),
    (
        r#""shape":{"type":"Record","attributes":{},"enum":["a"]}"#,
        "bad shape at //entityTypes/U/shape/enum",
    ),
];

#[test]
fn members_beside_choices(rt: HostRuntime) {
    let alloc = rt.alloc();
    for &(members, told) in BESIDE {
        assert!(rt;
            is_told(alloc, with_members(alloc, members), told),
            "{members}"
        );
    }
}

/// A file with an entity type of this many choices, and this before them.
fn with_choices(alloc: Global, before: &str, choices: u32) -> Result<String, AllocError> {
    let mut text = String::from_str(alloc, r#"{"":{"entityTypes":{"U":{"enum":["#)?;
    text.push_str(before)?;
    text.push_str(r#""c0""#)?;
    for number in 1..choices {
        text.push_str(format!(in alloc; ",\"c{number}\"")?.as_str())?;
    }
    text.push_str("]}}}}")?;
    Ok(text)
}

#[test]
fn a_thousand_choices_at_most(rt: HostRuntime) {
    let alloc = rt.alloc();
    assert!(rt; is_told(alloc, with_choices(alloc, "", 1000), "read"));
    assert!(rt;
        is_told(
            alloc,
            with_choices(alloc, "", 1001),
            "bad shape at //entityTypes/U/enum"
        )
    );
    // the list before its items
    assert!(rt;
        is_told(
            alloc,
            with_choices(alloc, "1,", 1000),
            "bad shape at //entityTypes/U/enum"
        )
    );
    assert!(rt;
        is_told(
            alloc,
            with_choices(alloc, "\"c998\",", 999),
            "bad shape at //entityTypes/U/enum/999"
        )
    );
}
