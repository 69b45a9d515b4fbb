//! Limits of types and of environments, and large files.
use crate::faults::is_told_of_made;
use std::alloc::{AllocError, Global};

/// Writes a text this many times.
fn put_often(text: &mut String, part: &str, times: u32) -> Result<(), AllocError> {
    for _ in 0..times {
        text.push_str(part)?;
    }
    Ok(())
}

/// Writes a number between two texts.
fn put_number(
    alloc: Global,
    text: &mut String,
    (before, after): (&str, &str),
    number: u32,
) -> Result<(), AllocError> {
    text.push_str(before)?;
    text.push_str(format!(in alloc; "{number}")?.as_str())?;
    text.push_str(after)
}

/// Writes the numbers from the first on that are below the end, each between two texts.
fn put_numbers(
    alloc: Global,
    text: &mut String,
    around: (&str, &str),
    (first, end): (u32, u32),
) -> Result<(), AllocError> {
    for number in first..end {
        put_number(alloc, text, around, number)?;
    }
    Ok(())
}

/// A file with a common type `T`: sets inside one another over a type.
fn nested(alloc: Global, sets: u32, of: &str) -> Result<String, AllocError> {
    let mut text = String::from_str(alloc, "{\"\":{\"commonTypes\":{\"T\":")?;
    put_often(&mut text, "{\"type\":\"Set\",\"element\":", sets)?;
    text.push_str(of)?;
    put_often(&mut text, "}", sets)?;
    text.push_str("}}}")?;
    Ok(text)
}

fn nested_is_told(alloc: Global, sets: u32, told: &str) -> bool {
    is_told_of_made(alloc, nested(alloc, sets, r#"{"type":"Boolean"}"#), told)
}

#[test]
fn levels_of_types_are_counted(rt: HostRuntime) {
    let alloc = rt.alloc();
    assert!(rt; nested_is_told(alloc, 31, "read"));
    assert!(rt; nested_is_told(alloc, 32, "type too large at //commonTypes/T"));
}

/// A file with a record type of this many attributes as tags.
fn wide(alloc: Global, attributes: u32) -> Result<String, AllocError> {
    let mut text = String::from_str(
        alloc,
        r#"{"":{"entityTypes":{"U":{"tags":{"type":"Record","attributes":{"a":{"type":"Long"}"#,
    )?;
    let around = (",\"a", "\":{\"type\":\"Long\"}");
    put_numbers(alloc, &mut text, around, (1, attributes))?;
    text.push_str("}}}}}}")?;
    Ok(text)
}

fn wide_is_told(alloc: Global, attributes: u32, told: &str) -> bool {
    is_told_of_made(alloc, wide(alloc, attributes), told)
}

#[test]
fn nodes_of_types_are_counted(rt: HostRuntime) {
    let alloc = rt.alloc();
    assert!(rt; wide_is_told(alloc, 4095, "read"));
    assert!(rt; wide_is_told(alloc, 4096, "type too large at //entityTypes/U/tags"));
}

/// Writes a common type: a record of two of the one before it.
fn put_double(
    alloc: Global,
    text: &mut String,
    before: u32,
    number: u32,
) -> Result<(), AllocError> {
    let around = (",\"T", r#"":{"type":"Record","attributes":{"a":{"type":"T"#);
    put_number(alloc, text, around, number)?;
    put_number(alloc, text, ("", r#""},"b":{"type":"T"#), before)?;
    put_number(alloc, text, ("", "\"}}}"), before)
}

/// A file with common types from `T0` on, each a record of two of the one before it.
fn doubled(alloc: Global, types: u32) -> Result<String, AllocError> {
    let mut text = String::from_str(alloc, r#"{"":{"commonTypes":{"T0":{"type":"Long"}"#)?;
    for number in 1..types {
        put_double(alloc, &mut text, number - 1, number)?;
    }
    text.push_str("}}}")?;
    Ok(text)
}

fn doubled_is_told(alloc: Global, types: u32, told: &str) -> bool {
    is_told_of_made(alloc, doubled(alloc, types), told)
}

#[test]
fn common_types_are_counted_as_written_out(rt: HostRuntime) {
    let alloc = rt.alloc();
    assert!(rt; doubled_is_told(alloc, 12, "read"));
    assert!(rt; doubled_is_told(alloc, 13, "type too large at //commonTypes/T12"));
    assert!(rt; doubled_is_told(alloc, 200, "type too large at //commonTypes/T100"));
}

/// The first names of types, in quotes and after commas.
fn put_names(alloc: Global, text: &mut String, count: u32) -> Result<(), AllocError> {
    text.push_str("\"T\"")?;
    put_numbers(alloc, text, (",\"T", "\""), (1, count))
}

/// An action over this many types of principals and of resources.
fn put_action(
    alloc: Global,
    text: &mut String,
    id: &str,
    principals: u32,
    resources: u32,
) -> Result<(), AllocError> {
    text.push_str("\"")?;
    text.push_str(id)?;
    text.push_str(r#"":{"appliesTo":{"principalTypes":["#)?;
    put_names(alloc, text, principals)?;
    text.push_str(r#"],"resourceTypes":["#)?;
    put_names(alloc, text, resources)?;
    text.push_str("]}}")
}

/// Writes a file with these actions and 200 entity types of one shape.
fn put_crossed(
    alloc: Global,
    text: &mut String,
    first: (u32, u32),
    second: (u32, u32),
    shape: &str,
) -> Result<(), AllocError> {
    text.push_str(r#"{"":{"actions":{"#)?;
    put_action(alloc, text, "a", first.0, first.1)?;
    text.push_str(",")?;
    put_action(alloc, text, "b", second.0, second.1)?;
    text.push_str(r#"},"entityTypes":{"T":{"shape":"#)?;
    text.push_str(shape)?;
    put_numbers(alloc, text, ("},\"T", "\":{"), (1, 200))?;
    text.push_str("}}}}")
}

fn crossed(
    alloc: Global,
    first: (u32, u32),
    second: (u32, u32),
    shape: &str,
) -> Result<String, AllocError> {
    let mut text = String::new(alloc);
    put_crossed(alloc, &mut text, first, second, shape)?;
    Ok(text)
}

const NO_ATTRIBUTES: &str = r#"{"type":"Record","attributes":{}}"#;

/// Whether this is told of a file with these actions and this shape.
fn crossed_is_told(
    alloc: Global,
    first: (u32, u32),
    second: (u32, u32),
    (shape, told): (&str, &str),
) -> bool {
    is_told_of_made(alloc, crossed(alloc, first, second, shape), told)
}

/// How many principals and resources two actions have, and what is told of a file with them.
const CROSSED: &[((u32, u32), (u32, u32), &str)] = &[
    ((99, 100), (1, 100), "read"),
    ((99, 100), (101, 1), "too many environments"),
    // those of one action alone
    ((1, 1), (73, 137), "too many environments"),
];

#[test]
fn environments_are_counted(rt: HostRuntime) {
    for &(first, second, told) in CROSSED {
        let row = (NO_ATTRIBUTES, told);
        assert!(rt;
            crossed_is_told(rt.alloc(), first, second, row),
            "{}",
            second.0
        );
    }
}

#[test]
fn environments_are_counted_last(rt: HostRuntime) {
    let row = (
        r#"{"type":"Long"}"#,
        "no record type at //entityTypes/T/shape",
    );
    assert!(rt; crossed_is_told(rt.alloc(), (200, 200), (1, 1), row));
}

/// Writes an entity type that is in the one before it.
fn put_linked_type(
    alloc: Global,
    text: &mut String,
    before: u32,
    number: u32,
) -> Result<(), AllocError> {
    let around = (",\"T", r#"":{"memberOfTypes":["T"#);
    put_number(alloc, text, around, number)?;
    put_number(alloc, text, ("", "\"]}"), before)
}

/// Writes an action that is in the one before it.
fn put_linked_action(
    alloc: Global,
    text: &mut String,
    before: u32,
    number: u32,
) -> Result<(), AllocError> {
    let around = (",\"", r#"":{"memberOf":[{"id":""#);
    put_number(alloc, text, around, number)?;
    put_number(alloc, text, ("", "\"}]}"), before)
}

/// Writes a file with this many entity types and as many actions, each in the one before it.
fn put_chained(alloc: Global, text: &mut String, count: u32) -> Result<(), AllocError> {
    text.push_str(r#"{"":{"entityTypes":{"T0":{}"#)?;
    for number in 1..count {
        put_linked_type(alloc, text, number - 1, number)?;
    }
    text.push_str(r#"},"actions":{"0":{}"#)?;
    for number in 1..count {
        put_linked_action(alloc, text, number - 1, number)?;
    }
    text.push_str("}}}")
}

fn chained(alloc: Global, count: u32) -> Result<String, AllocError> {
    let mut text = String::new(alloc);
    put_chained(alloc, &mut text, count)?;
    Ok(text)
}

#[test]
fn long_chains_are_read(rt: HostRuntime) {
    let alloc = rt.alloc();
    assert!(rt; is_told_of_made(alloc, chained(alloc, 300), "read"));
}

/// Writes a file with this many entity types and as many actions, each in one group.
fn put_grouped(alloc: Global, text: &mut String, count: u32) -> Result<(), AllocError> {
    text.push_str(r#"{"":{"entityTypes":{"T":{}"#)?;
    let types = (",\"T", r#"":{"memberOfTypes":["T"]}"#);
    put_numbers(alloc, text, types, (0, count))?;
    text.push_str(r#"},"actions":{"all":{}"#)?;
    let actions = (",\"", r#"":{"memberOf":[{"id":"all"}]}"#);
    put_numbers(alloc, text, actions, (0, count))?;
    text.push_str("}}}")
}

fn grouped(alloc: Global, count: u32) -> Result<String, AllocError> {
    let mut text = String::new(alloc);
    put_grouped(alloc, &mut text, count)?;
    Ok(text)
}

#[test]
fn many_declarations_are_read(rt: HostRuntime) {
    let alloc = rt.alloc();
    assert!(rt; is_told_of_made(alloc, grouped(alloc, 5000), "read"));
}

/// Writes a text once more behind itself.
fn double(text: &mut String) -> Result<(), AllocError> {
    let half = text.clone()?;
    text.push_str(half.as_str())
}

/// A text of 2 to the power of this many bytes.
fn long_text(alloc: Global, power: u32) -> Result<String, AllocError> {
    let mut text = String::from_str(alloc, "x")?;
    for _ in 0..power {
        double(&mut text)?;
    }
    Ok(text)
}

/// A file of 2 to the power of this many bytes and some more: a long text that is skipped.
fn padded(alloc: Global, power: u32) -> Result<String, AllocError> {
    let mut text = String::from_str(alloc, r#"{"":{"annotations":""#)?;
    text.push_str(long_text(alloc, power)?.as_str())?;
    text.push_str("\"}}")?;
    Ok(text)
}

#[test]
fn long_files_are_read(rt: HostRuntime) {
    let alloc = rt.alloc();
    assert!(rt; is_told_of_made(alloc, padded(alloc, 24), "read"));
}
