//! Common types in their order, and the faults of types that reach themselves or are no records.
use crate::declared::declared;
use crate::texts::{fault_text, is_text};
use sc_lists::Fault;
use sc_schema::{ExpandedSchema, ResolvedSchema};
use sc_schema_syntax::SchemaFault;
use sc_schema_types::{expand, order_types, type_laws};
use std::alloc::{AllocError, Global};

fn expanded(alloc: Global, schema: &ResolvedSchema) -> Result<ExpandedSchema, Fault<SchemaFault>> {
    match order_types(alloc, schema) {
        Ok(order) => expand(alloc, schema, order.as_slice()),
        Err(fault) => Err(fault),
    }
}

/// What the fault of a schema says, and `expanded` of one whose types are written out.
fn told_of(alloc: Global, schema: &ResolvedSchema) -> Result<String, AllocError> {
    match expanded(alloc, schema) {
        Ok(_) => String::from_str(alloc, "expanded"),
        Err(fault) => fault_text(alloc, &fault),
    }
}

/// Whether this is told of the schema that a file declares, if it is made.
fn is_told(alloc: Global, file: Result<String, AllocError>, told: &str) -> bool {
    match file {
        Ok(text) => is_told_in(alloc, text.as_str(), told),
        Err(_) => false,
    }
}

fn is_told_in(alloc: Global, text: &str, told: &str) -> bool {
    match declared(alloc, text) {
        Some(schema) => is_text(told_of(alloc, &schema), told),
        None => false,
    }
}

/// Common types with the fault of the least that reaches itself.
const CYCLES: &[(&str, &str)] = &[
    (r#""A":{"type":"A"}"#, "type A reaches itself"),
    (
        r#""A":{"type":"B"},"B":{"type":"A"}"#,
        "type A reaches itself",
    ),
    // not one that leads to it
    (
        r#""A0":{"type":"B"},"A1":{"type":"B"},"B":{"type":"A1"}"#,
        "type A1 reaches itself",
    ),
    (
        r#""A":{"type":"C"},"B":{"type":"B"},"C":{"type":"C"}"#,
        "type B reaches itself",
    ),
];

/// A file with these common types.
fn with_types(alloc: Global, types: &str) -> Result<String, AllocError> {
    r#"{"":{"commonTypes":{TYPES}}}"#.replace(alloc, "TYPES", types)
}

#[test]
fn types_that_reach_themselves(rt: HostRuntime) {
    type_laws();
    let alloc = rt.alloc();
    for &(types, told) in CYCLES {
        assert!(rt; is_told(alloc, with_types(alloc, types), told), "{types}");
    }
}

/// Common types, each of which names the next.
const LINE: &str =
    r#"{"":{"commonTypes":{"A":{"type":"B"},"B":{"type":"Record","attributes":{"a":{"type":"C"},"b":{"type":"C"}}},"C":{"type":"Long"}}}}"#;

/// The common types of a schema in their order, each with a space behind it.
fn order_text(alloc: Global, schema: &ResolvedSchema) -> Result<String, AllocError> {
    let mut told = String::new(alloc);
    if let Ok(order) = order_types(alloc, schema) {
        for name in order.as_slice() {
            told.push_str(name.as_str())?;
            told.push_str(" ")?;
        }
    }
    Ok(told)
}

fn has_order(alloc: Global, text: &str, order: &str) -> bool {
    match declared(alloc, text) {
        Some(schema) => is_text(order_text(alloc, &schema), order),
        None => false,
    }
}

#[test]
fn types_in_order(rt: HostRuntime) {
    assert!(rt; has_order(rt.alloc(), LINE, "C B A "));
}

/// Writes that the type of one number is that of another.
fn put_link(alloc: Global, text: &mut String, number: u32, next: u32) -> Result<(), AllocError> {
    let link = format!(in alloc; "\"T{number}\":{{\"type\":\"T{next}\"}},")?;
    text.push_str(link.as_str())
}

/// A file with common types from `T100000` on, each of which names the next.
fn chained(alloc: Global, last: u32) -> Result<String, AllocError> {
    let mut text = String::from_str(alloc, "{\"\":{\"commonTypes\":{")?;
    for number in 100001..=last {
        put_link(alloc, &mut text, number - 1, number)?;
    }
    let end = format!(in alloc; "\"T{last}\":{{\"type\":\"Boolean\"}}}}}}}}")?;
    text.push_str(end.as_str())?;
    Ok(text)
}

#[test]
fn long_chains_of_types(rt: HostRuntime) {
    let alloc = rt.alloc();
    assert!(rt; is_told(alloc, chained(alloc, 101000), "expanded"));
}

/// A file with common types of numbers, of sets and of records, and with a place for a shape and one
/// for a context.
const SAMPLE: &str = r#"{"": {
    "commonTypes": {
        "L": {"type": "Long"},
        "R": {"type": "Record", "attributes": {"a": {"type": "S"}, "b": {"type": "S", "required": false}}},
        "S": {"type": "Set", "element": {"type": "L"}}
    },
    "entityTypes": {"U": {"shape": {"type": "SHAPE"}, "tags": {"type": "S"}}},
    "actions": {"act": {"appliesTo": {"context": {"type": "CONTEXT"}}}}
}}"#;

/// The sample with these types as the shape and the context.
fn sample(alloc: Global, shape: &str, context: &str) -> Result<String, AllocError> {
    let text = SAMPLE.replace(alloc, "SHAPE", shape)?;
    text.as_str().replace(alloc, "CONTEXT", context)
}

/// Types as the shape and the context of the sample, and what is told of it then.
const SHAPES: &[(&str, &str, &str)] = &[
    ("R", "R", "expanded"),
    ("S", "R", "no record type at //entityTypes/U/shape"),
    (
        "L",
        "S",
        "no record type at //actions/act/appliesTo/context",
    ),
];

#[test]
fn types_that_are_no_records(rt: HostRuntime) {
    let alloc = rt.alloc();
    for &(shape, context, told) in SHAPES {
        assert!(rt;
            is_told(alloc, sample(alloc, shape, context), told),
            "{told}"
        );
    }
}
