//! Looks up the names in a schema file.
ghost use Rattle.std.specs.Prelude.{◌≡◌, IfOk, IfErr};
ghost use Rattle.sc_schema_names.specs.Names.{known_in};
ghost use Rattle.sc_schema_names.specs.Resolves.{Resolves, Refuses};
ghost use Rattle.sc_schema_names.specs.Tables.{known};

use crate::checking::schema_fault;
use crate::declared::Declared;
use crate::declaring::declared_of;
use crate::translating::resolved_by;
use sc_lists::Fault;
use sc_schema::ResolvedSchema;
use sc_schema_syntax::{SchemaFault, WrittenSchema};
use std::alloc::Global;

/// What a schema file declares, each name in it looked up and written in full.
///
/// What a namespace declares has the namespace's name and `::` before its own, in the empty namespace
/// its own name alone; an action has the type `Action` of its namespace. A text that is an identifier
/// is looked up in its namespace, and then in the empty one; any other text as it is written. A text
/// that may name any type names a common type before an entity type in each namespace, and last a
/// primitive or extension type, also after `__cedar::`. An action in `memberOf` that has no type is
/// one of its namespace.
///
/// # Errors
///
/// The first fault of the file in a walk that takes the members of an object in the order of their
/// bytes: `UnknownType` at a text that names no declared type, `UnknownAction` at an item of
/// `memberOf` that names no declared action. No other fault comes. `NoMemory` comes for want of
/// memory.
pub fn resolve(alloc: Global, written: &WrittenSchema) -> Result<ResolvedSchema, Fault<SchemaFault>>
    ensures ok { IfOk result (λ schema. Resolves written.now schema) }
    ensures err { IfErr result (λ fault. Refuses written.now fault) }
{
    let declared = declared_of(alloc, written)?;
    resolve_by(alloc, &declared, written)
}

/// The same, of what the file declares.
fn resolve_by(
    alloc: Global,
    declared: &Declared,
    written: &WrittenSchema,
) -> Result<ResolvedSchema, Fault<SchemaFault>>
    requires { known declared.now ≡ known_in written.now }
    ensures ok { IfOk result (λ schema. Resolves written.now schema) }
    ensures err { IfErr result (λ fault. Refuses written.now fault) }
{
    match schema_fault(alloc, declared, written)? {
        Some(fault) => Err(Fault::Told(fault)),
        None => Ok(resolved_by(alloc, declared, written)?),
    }
}
