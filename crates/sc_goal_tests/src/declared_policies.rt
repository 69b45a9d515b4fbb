//! Policies by their text, with names and types checked, and the schema that they are checked under.
ghost use Rattle.std.specs.Prelude.{◌≡◌, None, IfOk, OnOk};
ghost use Rattle.sc_typing.specs.Checking.{type_fault};
ghost use Rattle.sc_typing.specs.Names.{name_fault};
ghost use Rattle.sc_goal_tests.specs.Checked.{IsChecked};

use sc_ast::PolicySet;
use sc_parser::read_policies;
use sc_schema::Schema;
use sc_schema_json::read_schema;
use sc_typing::{check_names, check_types};
use std::alloc::{AllocError, Global};

/// Groups, which may be in groups; users, who may be in groups, and have a boss, an age and perhaps a
/// nickname; and documents, which have an owner. Users view documents, in a context of a number, two
/// sets of truth values, a set of numbers, a text and an address.
const SCHEMA: &str =
    r#"{"":{"entityTypes":{"Group":{"memberOfTypes":["Group"]},"User":{"memberOfTypes":["Group"],"shape":{"type":"Record","attributes":{"boss":{"type":"Entity","name":"User"},"age":{"type":"Long"},"nick":{"type":"String","required":false}}}},"Doc":{"shape":{"type":"Record","attributes":{"owner":{"type":"Entity","name":"User"}}}}},"actions":{"view":{"appliesTo":{"principalTypes":["User"],"resourceTypes":["Doc"],"context":{"type":"Record","attributes":{"n":{"type":"Long"},"s":{"type":"Set","element":{"type":"Boolean"}},"t":{"type":"Set","element":{"type":"Boolean"}},"q":{"type":"Set","element":{"type":"Long"}},"name":{"type":"String"},"addr":{"type":"Extension","name":"ipaddr"}}}}}}}}"#;

/// A policy with this body.
const SAMPLE: &str = "permit(principal, action, resource) when { BODY };";

/// The schema. That its text isn't read counts as want of memory.
pub(crate) fn schema(alloc: Global) -> Result<Schema, AllocError> {
    match read_schema(alloc, SCHEMA.as_bytes()) {
        Ok(schema) => Ok(schema),
        Err(_) => Err(AllocError),
    }
}

/// The policies of a file. That it isn't read counts as want of memory.
fn policies(alloc: Global, file: &str) -> Result<PolicySet, AllocError> {
    match read_policies(alloc, file.as_bytes()) {
        Ok(policies) => Ok(policies),
        Err(_) => Err(AllocError),
    }
}

/// Checks that policies have types. That they have none counts as want of memory.
#[tactic(auto, using(sc_typing::proofs::CheckingLaws::none_where_passed))]
pub(crate) fn with_types(
    alloc: Global,
    schema: &Schema,
    policies: &PolicySet,
) -> Result<(), AllocError>
    ensures { OnOk result (type_fault schema.now policies.now ≡ None) }
{
    match check_types(alloc, schema, policies) {
        Ok(()) => Ok(()),
        Err(_) => Err(AllocError),
    }
}

/// Checks that policies write declared names alone. That they don't counts as want of memory.
fn with_names(schema: &Schema, policies: &PolicySet) -> Result<(), AllocError>
    ensures { OnOk result (name_fault schema.now policies.now ≡ None) }
{
    match check_names(schema, policies) {
        Ok(()) => Ok(()),
        Err(_) => Err(AllocError),
    }
}

/// The policy with this body, which passes the checks.
pub(crate) fn sample(alloc: Global, schema: &Schema, body: &str) -> Result<PolicySet, AllocError>
    ensures { IfOk result (IsChecked schema.now) }
{
    let file = SAMPLE.replace(alloc, "BODY", body)?;
    let policies = policies(alloc, file.as_str())?;
    with_names(schema, &policies)?;
    with_types(alloc, schema, &policies)?;
    Ok(policies)
}
