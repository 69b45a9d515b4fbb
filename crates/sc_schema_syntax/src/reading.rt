//! Reads the syntax of a schema file.
ghost use Rattle.std.specs.Prelude.{ℕ, List, IfOk, IfErr};
ghost use Rattle.serde_json.specs.View.{view};
ghost use Rattle.sc_json.specs.Trees.{HasTree};
ghost use Rattle.sc_schema_syntax.specs.Syntax.{Spells, Refuses};

use crate::building::schema_of;
use crate::checking::first_fault;
use crate::fault::SchemaFault;
use crate::written_schema::WrittenSchema;
use sc_lists::Fault;
use serde_json::Value;
use std::alloc::Global;

/// The schema that a file's bytes spell in Cedar's JSON schema format, with no name in it looked up.
/// Of members with one name the last counts; `annotations` of namespaces, declarations, types and
/// what actions apply to are skipped.
///
/// # Errors
///
/// The first fault of the file: `NotJson` exactly where the bytes are no JSON that nests 127 levels
/// at most, and else `BadName` or `BadShape`, the first in a walk that takes the members of an object
/// in the order of their bytes and an object before its members. No other fault comes of the form
/// alone. `NoMemory` comes for want of memory.
pub fn read_syntax(alloc: Global, bytes: &[u8]) -> Result<WrittenSchema, Fault<SchemaFault>>
    ensures ok { IfOk result (λ schema. Spells bytes.now schema) }
    ensures err { IfErr result (λ fault. Refuses bytes.now fault) }
{
    match tree_of(alloc, bytes) {
        Ok(tree) => schema_in(alloc, &tree),
        Err(fault) => Err(fault),
    }
}

/// The schema that a tree says, or its first fault.
fn schema_in(alloc: Global, tree: &Value) -> Result<WrittenSchema, Fault<SchemaFault>>
    ensures ok { IfOk result (λ schema. (bytes : List ℕ) → HasTree bytes (view tree.now) → Spells bytes schema) }
    ensures err { IfErr result (λ fault. (bytes : List ℕ) → HasTree bytes (view tree.now) → Refuses bytes fault) }
{
    match first_fault(alloc, tree)? {
        Some(fault) => Err(Fault::Told(fault)),
        None => Ok(schema_of(alloc, tree)?),
    }
}

/// The tree that the bytes are the text of.
fn tree_of(alloc: Global, bytes: &[u8]) -> Result<Value, Fault<SchemaFault>>
    ensures ok { IfOk result (λ tree. HasTree bytes.now (view tree)) }
    ensures err { IfErr result (λ fault. Refuses bytes.now fault) }
{
    match Value::from_slice(alloc, bytes) {
        Ok(tree) => Ok(tree),
        Err(error) => {
            if error.is_memory() {
                Err(Fault::NoMemory)
            } else {
                Err(Fault::Told(SchemaFault::NotJson))
            }
        }
    }
}
