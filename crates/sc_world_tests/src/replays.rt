//! What worlds do, by a schema of documents, users, and an action of users on documents in whose
//! context `mfa` is true or false.
use sc_ast::PolicySet;
use sc_lists::Text;
use sc_parser::read_policies;
use sc_replay::{Report, report_of};
use sc_schema::Schema;
use sc_schema_json::read_schema;
use sc_world::World;
use sc_world_json::read_world;
use std::alloc::Global;

const SCHEMA: &str =
    r#"{"":{"entityTypes":{"Doc":{},"User":{}},"actions":{"view":{"appliesTo":{"principalTypes":["User"],"resourceTypes":["Doc"],"context":{"type":"Record","attributes":{"mfa":{"type":"Boolean"}}}}}}}}"#;

/// A user views a document, and `mfa` is true.
const WORLD: &str =
    r#"{"entities":[{"attrs":{},"parents":[],"tags":{},"uid":{"id":"view","type":"Action"}},{"attrs":{},"parents":[],"tags":{},"uid":{"id":"0","type":"User"}},{"attrs":{},"parents":[],"tags":{},"uid":{"id":"0","type":"Doc"}}],"request":{"action":{"id":"view","type":"Action"},"context":{"mfa":true},"principal":{"id":"0","type":"User"},"resource":{"id":"0","type":"Doc"}}}"#;

/// The document is stored.
const DOC: &str = r#",{"attrs":{},"parents":[],"tags":{},"uid":{"id":"0","type":"Doc"}}"#;
/// The context of the request.
const CONTEXT: &str = r#"{"mfa":true}"#;

const PERMIT: &str = "permit(principal, action, resource) when { context.mfa };";

/// A part of the world, what stands in its place, policies, the status of the report, and its lines.
const REPORTS: &[(&str, &str, &str, u8, &str)] = &[
    (
        DOC,
        DOC,
        PERMIT,
        0,
        "world well-formed\npolicy0 satisfied\ndecision Allow\n",
    ),
    // worlds that aren't well-formed
    (
        DOC,
        "",
        PERMIT,
        3,
        "world not well-formed: missing Doc::\"0\"\npolicy0 satisfied\ndecision Allow\n",
    ),
    (
        DOC,
        r#",{"attrs":{"old":true},"parents":[],"tags":{},"uid":{"id":"0","type":"Doc"}}"#,
        PERMIT,
        3,
        "world not well-formed: entity Doc::\"0\"\npolicy0 satisfied\ndecision Allow\n",
    ),
    (
        DOC,
        r#",{"attrs":{},"parents":[],"tags":{},"uid":{"id":"\n","type":"\""}}"#,
        PERMIT,
        3,
        "world not well-formed: entity \\\"::\"\\n\"\npolicy0 satisfied\ndecision Allow\n",
    ),
    (
        CONTEXT,
        "{}",
        PERMIT,
        3,
        "world not well-formed: request\npolicy0 errs AttrMissing\ndecision Deny\n",
    ),
    // uids that policies write
    (
        DOC,
        DOC,
        "permit(principal == User::\"1\", action, resource);",
        3,
        "world not well-formed: missing User::\"1\"\npolicy0 not satisfied\ndecision Deny\n",
    ),
    (
        DOC,
        DOC,
        "permit(principal == User::\"0\", action, resource);",
        0,
        "world well-formed\npolicy0 satisfied\ndecision Allow\n",
    ),
    // decisions
    (DOC, DOC, "", 0, "world well-formed\ndecision Deny\n"),
    (
        DOC,
        DOC,
        "permit(principal, action, resource) when { context.mfa }; forbid(principal, action, resource) when { context.mfa };",
        0,
        "world well-formed\npolicy0 satisfied\npolicy1 satisfied\ndecision Deny\n",
    ),
    (
        CONTEXT,
        r#"{"mfa":false}"#,
        PERMIT,
        0,
        "world well-formed\npolicy0 not satisfied\ndecision Deny\n",
    ),
    // errors
    (
        DOC,
        DOC,
        "permit(principal, action, resource) when { false }; permit(principal, action, resource) when { 9223372036854775807 + 1 };",
        0,
        "world well-formed\npolicy0 not satisfied\npolicy1 errs Overflow\ndecision Deny\n",
    ),
    (
        DOC,
        "",
        "permit(principal, action, resource) when { 1 }; permit(principal, action, resource) when { resource.a }; permit(principal, action, resource) when { principal.a }; permit(principal, action, resource) when { principal.getTag(\"a\") }; forbid(principal, action, resource) when { ip(\"a\").isIpv4() };",
        3,
        "world not well-formed: missing Doc::\"0\"\npolicy0 errs TypeError\npolicy1 errs EntityMissing\npolicy2 errs AttrMissing\npolicy3 errs TagMissing\npolicy4 errs BadText\ndecision Deny\n",
    ),
];

/// Whether these lines, one behind the other, are a text.
fn are_lines_of(lines: &[Text], text: &str) -> bool {
    let mut rest = text;
    for line in lines {
        match rest.strip_prefix(line.as_str()) {
            Some(others) => rest = others,
            None => return false,
        }
    }
    rest.is_empty()
}

fn is_report(report: &Report, status: u8, lines: &str) -> bool {
    report.status() == status && are_lines_of(report.lines.as_slice(), lines)
}

/// Whether the report on a world has this status and these lines.
fn is_told(
    alloc: Global,
    schema: &Schema,
    policies: &PolicySet,
    world: &World,
    (status, lines): (u8, &str),
) -> bool {
    match report_of(alloc, schema, policies, world) {
        Ok(report) => is_report(&report, status, lines),
        Err(_) => false,
    }
}

fn is_told_of_policies(
    alloc: Global,
    schema: &Schema,
    policies: &str,
    world: &World,
    told: (u8, &str),
) -> bool {
    match read_policies(alloc, policies.as_bytes()) {
        Ok(policies) => is_told(alloc, schema, &policies, world, told),
        Err(_) => false,
    }
}

fn is_told_of_world(
    alloc: Global,
    schema: &Schema,
    policies: &str,
    world: &str,
    told: (u8, &str),
) -> bool {
    match read_world(alloc, world.as_bytes()) {
        Ok(world) => is_told_of_policies(alloc, schema, policies, &world, told),
        Err(_) => false,
    }
}

/// Whether this is told of policies and of a world, if all texts are read.
fn is_told_of(alloc: Global, policies: &str, world: &str, told: (u8, &str)) -> bool {
    match read_schema(alloc, SCHEMA.as_bytes()) {
        Ok(schema) => is_told_of_world(alloc, &schema, policies, world, told),
        Err(_) => false,
    }
}

/// Whether this is told of the world with another text in the place of a part.
fn is_told_of_change(
    alloc: Global,
    (part, other): (&str, &str),
    policies: &str,
    told: (u8, &str),
) -> bool {
    match WORLD.replace(alloc, part, other) {
        Ok(world) => is_told_of(alloc, policies, world.as_str(), told),
        Err(_) => false,
    }
}

#[test]
fn reports(rt: HostRuntime) {
    for &(part, other, policies, status, lines) in REPORTS {
        let told = is_told_of_change(rt.alloc(), (part, other), policies, (status, lines));
        assert!(rt; told, "{lines}");
    }
}
