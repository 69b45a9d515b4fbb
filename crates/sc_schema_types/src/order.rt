//! The common types of a schema in order.
ghost use Rattle.std.specs.Prelude.{IfOk, IfErr};
ghost use Rattle.std.specs.List.{IsDistinct};
ghost use Rattle.std.specs.Str.{bytes_eq};
ghost use Rattle.sc_schema_types.specs.Orders.{IsOrder, RefusesOrder};

use crate::bodies::{bodies_of, names_of};
use crate::cycle::least_cycle;
use crate::search::order_of;
use sc_lists::{Fault, Seq};
use sc_names::Name;
use sc_schema::ResolvedSchema;
use sc_schema_syntax::SchemaFault;
use std::alloc::Global;

/// The names of a schema's common types, each once, after those that its body names.
///
/// # Errors
///
/// `TypeCycle` exactly where a common type reaches itself, with the least that does, by the bytes of
/// its name. `NoMemory` comes for want of memory.
pub fn order_types(alloc: Global, schema: &ResolvedSchema) -> Result<Seq<Name>, Fault<SchemaFault>>
    ensures ok { IfOk result (λ order. IsOrder schema.now order) }
    ensures once { IfOk result (λ order. IsDistinct bytes_eq order) }
    ensures err { IfErr result (λ fault. RefusesOrder schema.now fault) }
{
    let bodies = bodies_of(alloc, schema)?;
    let names = names_of(alloc, &bodies)?;
    match order_of(alloc, &bodies, names.as_slice())? {
        Ok(order) => Ok(order),
        Err(met) => {
            let least = least_cycle(alloc, &bodies, names.as_slice(), met)?;
            Err(Fault::Told(SchemaFault::TypeCycle(least)))
        }
    }
}
