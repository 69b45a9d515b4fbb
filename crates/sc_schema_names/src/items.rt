//! The first fault of lists of names.
ghost use Rattle.std.specs.Prelude.{◌≡◌, ℕ, List, Option, IfOk};
ghost use Rattle.sc_schema_syntax.specs.declared.fault.SchemaFault.{SchemaFault as AnyFault};
ghost use Rattle.sc_schema_names.specs.Names.{Known};
ghost use Rattle.sc_schema_names.specs.Tables.{known};
ghost use Rattle.sc_schema_names.specs.Unknown.{inside, first_item, entity_type_fault, parent_fault};

use crate::declared::Declared;
use crate::lookup::action_named;
use crate::unknown_types::{entity_type_fault, inside};
use sc_lists::{Seq, Text};
use sc_schema_syntax::{SchemaFault, WrittenParent, under_item};
use std::alloc::{AllocError, Global};

/// An item of a list of names.
pub(crate) trait Item: Drop {
    ghost fault_of: { Known → List ℕ → Self → Option AnyFault };

    /// Its fault in a namespace, if nothing has its name.
    fn own_fault(
        &self,
        alloc: Global,
        declared: &Declared,
        namespace: &str,
    ) -> Result<Option<SchemaFault>, AllocError>
        ensures { IfOk result (λ found. found ≡ fault_of (known declared.now) namespace.now self.now) };
}

/// The first fault of the items of the list at this member.
pub(crate) fn items_fault<T: Item>(
    alloc: Global,
    declared: &Declared,
    namespace: &str,
    key: &str,
    items: &Seq<T>,
) -> Result<Option<SchemaFault>, AllocError>
    ensures { IfOk result (λ found. found
        ≡ inside key.now (first_item (T.fault_of (known declared.now) namespace.now) 0 items.now)) }
{
    let fault = first_item(alloc, declared, namespace, items)?;
    inside(alloc, key, fault)
}

/// The first fault of the items of a list, each at its number.
fn first_item<T: Item>(
    alloc: Global,
    declared: &Declared,
    namespace: &str,
    items: &Seq<T>,
) -> Result<Option<SchemaFault>, AllocError>
    ensures { IfOk result (λ found. found ≡ first_item (T.fault_of (known declared.now) namespace.now) 0 items.now) }
{
    for (number, item) in items.as_slice().iter().enumerate() {
        if let Some(fault) = item.own_fault(alloc, declared, namespace)? {
            return Ok(Some(under_item(alloc, number, fault)?));
        }
    }
    Ok(None)
}

impl Item for Text {
    ghost fault_of = { entity_type_fault };

    fn own_fault(
        &self,
        alloc: Global,
        declared: &Declared,
        namespace: &str,
    ) -> Result<Option<SchemaFault>, AllocError> {
        entity_type_fault(alloc, declared, namespace, self.as_str())
    }
}

impl Item for WrittenParent {
    ghost fault_of = { parent_fault };

    fn own_fault(
        &self,
        alloc: Global,
        declared: &Declared,
        namespace: &str,
    ) -> Result<Option<SchemaFault>, AllocError> {
        match action_named(alloc, declared, namespace, self)? {
            Some(_) => Ok(None),
            None => Ok(Some(SchemaFault::UnknownAction(Text::from_str(alloc, "")?))),
        }
    }
}
