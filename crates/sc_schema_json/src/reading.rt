//! Reads the schema that a file spells.
ghost use Rattle.std.specs.Prelude.{IfOk, IfErr};
ghost use Rattle.sc_schema.specs.Resolved.{IsResolved};
ghost use Rattle.sc_schema_json.specs.Spelling.{Declares, Spells, Refuses};

use crate::describing::described;
use sc_lists::Fault;
use sc_schema::{ResolvedSchema, Schema};
use sc_schema_names::{resolution_laws, resolve};
use sc_schema_syntax::{SchemaFault, read_syntax, syntax_laws};
use std::alloc::Global;

/// The schema that a file's bytes spell in Cedar's JSON schema format.
///
/// The file has namespaces with entity types, actions and common types. A name is looked up in its
/// namespace, and then in the empty one; common types are written out; what an entity type or an
/// action may be in holds also what that may be in. Of members with one name the last counts.
///
/// # Errors
///
/// The first fault of the file, in this order: `NotJson`; `BadShape` and `BadName` in a walk that
/// takes the members of an object in the order of their bytes and an object before its members;
/// `UnknownType` and `UnknownAction` in a second such walk; `TypeCycle` with the least common type
/// that reaches itself; `ActionCycle` with the least action that is in itself; `NotRecord` and
/// `TypeTooLarge` in the order of the walk; `TooManyEnvironments` for more than 10,000 environments.
/// `NoMemory` comes for want of memory.
pub fn read_schema(alloc: Global, bytes: &[u8]) -> Result<Schema, Fault<SchemaFault>>
    ensures ok { IfOk result (λ s. Spells bytes.now s) }
    ensures err { IfErr result (λ fault. Refuses bytes.now fault) }
{
    match declared(alloc, bytes) {
        Ok(resolved) => match described(alloc, &resolved) {
            Ok(schema) => Ok(schema),
            Err(fault) => Err(fault),
        },
        Err(fault) => Err(fault),
    }
}

/// What the bytes declare, each name in them looked up.
fn declared(alloc: Global, bytes: &[u8]) -> Result<ResolvedSchema, Fault<SchemaFault>>
    ensures ok { IfOk result (λ r. Declares bytes.now r) }
    ensures resolved { IfOk result IsResolved }
    ensures err { IfErr result (λ fault. Refuses bytes.now fault) }
{
    syntax_laws();
    resolution_laws();
    match read_syntax(alloc, bytes) {
        Ok(written) => match resolve(alloc, &written) {
            Ok(resolved) => Ok(resolved),
            Err(fault) => Err(fault),
        },
        Err(fault) => Err(fault),
    }
}
