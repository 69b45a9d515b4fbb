//! The first fault of declarations.
ghost use Rattle.std.specs.Prelude.{◌≡◌, ℕ, List, Option, IfOk};
ghost use Rattle.sc_schema_syntax.specs.declared.fault.SchemaFault.{SchemaFault as AnyFault};
ghost use Rattle.sc_schema_names.specs.Names.{Known};
ghost use Rattle.sc_schema_names.specs.Tables.{known};
ghost use Rattle.sc_schema_names.specs.Unknown.{inside, first_member};

use crate::declared::Declared;
use crate::unknown_types::inside;
use sc_lists::Seq;
use sc_schema_syntax::{SchemaFault, under};
use std::alloc::{AllocError, Global};

/// A declaration, which stands at its key in the file.
pub(crate) trait Declaration: Drop {
    ghost key_of: { Self → List ℕ };

    ghost fault_of: { Known → List ℕ → Self → Option AnyFault };

    /// The name of its member in the file.
    fn key(&self) -> &str
        ensures { result.now ≡ key_of self.now };

    /// Its first fault in a namespace.
    fn first_fault(
        &self,
        alloc: Global,
        declared: &Declared,
        namespace: &str,
    ) -> Result<Option<SchemaFault>, AllocError>
        ensures { IfOk result (λ found. found ≡ fault_of (known declared.now) namespace.now self.now) };
}

/// The first fault of the declarations at this member.
pub(crate) fn members_fault<T: Declaration>(
    alloc: Global,
    declared: &Declared,
    namespace: &str,
    key: &str,
    members: &Seq<T>,
) -> Result<Option<SchemaFault>, AllocError>
    ensures { IfOk result (λ found. found
        ≡ inside key.now (first_member T.key_of (T.fault_of (known declared.now) namespace.now) members.now)) }
{
    let fault = first_member(alloc, declared, namespace, members)?;
    inside(alloc, key, fault)
}

/// The first fault of declarations, each at its key.
fn first_member<T: Declaration>(
    alloc: Global,
    declared: &Declared,
    namespace: &str,
    members: &Seq<T>,
) -> Result<Option<SchemaFault>, AllocError>
    ensures { IfOk result (λ found. found
        ≡ first_member T.key_of (T.fault_of (known declared.now) namespace.now) members.now) }
{
    for member in members.as_slice() {
        if let Some(fault) = member.first_fault(alloc, declared, namespace)? {
            return Ok(Some(under(alloc, member.key(), fault)?));
        }
    }
    Ok(None)
}
