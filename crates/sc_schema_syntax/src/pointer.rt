//! The paths of faults: JSON pointers (RFC 6901).
ghost use Rattle.std.specs.Prelude.{◌≡◌, IfOk};
ghost use Rattle.std.specs.Fmt.{decimal};
ghost use Rattle.sc_json.specs.Pointers.{below};
ghost use Rattle.sc_schema_syntax.specs.Pointers.{under};

use crate::fault::SchemaFault;
use sc_json::below;
use sc_lists::{Boxed, Text};
use std::alloc::{AllocError, Global};

/// The path of a value, as that of the value whose member or item it is.
fn deeper(alloc: Global, key: &str, path: Text) -> Result<Text, AllocError>
    ensures { IfOk result (λ whole. whole ≡ below key.now path) }
{
    below(alloc, key, &path)
}

/// The fault of a value, as one of the value whose member or item it is: its path goes there first.
/// Faults without a path stay as they are.
pub fn under(alloc: Global, key: &str, fault: SchemaFault) -> Result<SchemaFault, AllocError>
    ensures { IfOk result (λ seen. seen ≡ under key.now fault) }
{
    match fault {
        SchemaFault::BadShape(path) => Ok(SchemaFault::BadShape(deeper(alloc, key, path)?)),
        SchemaFault::BadName(path) => Ok(SchemaFault::BadName(deeper(alloc, key, path)?)),
        SchemaFault::UnknownType(path) => Ok(SchemaFault::UnknownType(deeper(alloc, key, path)?)),
        SchemaFault::UnknownAction(path) => {
            Ok(SchemaFault::UnknownAction(deeper(alloc, key, path)?))
        }
        SchemaFault::NotRecord(path) => Ok(SchemaFault::NotRecord(deeper(alloc, key, path)?)),
        SchemaFault::TypeTooLarge(path) => Ok(SchemaFault::TypeTooLarge(deeper(alloc, key, path)?)),
        SchemaFault::NotJson => Ok(SchemaFault::NotJson),
        SchemaFault::TypeCycle(name) => Ok(SchemaFault::TypeCycle(name)),
        SchemaFault::ActionCycle(uid) => Ok(SchemaFault::ActionCycle(uid)),
        SchemaFault::TooManyEnvironments => Ok(SchemaFault::TooManyEnvironments),
    }
}

/// The fault of the item with this number, counted from 0, as one of the list.
pub fn under_item(
    alloc: Global,
    number: usize,
    fault: SchemaFault,
) -> Result<SchemaFault, AllocError>
    ensures { IfOk result (λ seen. seen ≡ under (decimal number) fault) }
{
    let fault = Boxed::new(alloc, fault)?;
    let key = format!(in alloc; "{number}")?;
    under(alloc, key.as_str(), fault.into_inner())
}
