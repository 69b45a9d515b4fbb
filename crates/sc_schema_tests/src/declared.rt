//! What schema files declare, by their texts.
ghost use Rattle.std.specs.Prelude.{IfSome};
ghost use Rattle.sc_schema.specs.Resolved.{IsResolved};
ghost use Rattle.sc_schema_syntax.specs.WellWritten.{IsWritten};

use sc_schema::ResolvedSchema;
use sc_schema_names::{resolution_laws, resolve};
use sc_schema_syntax::{WrittenSchema, read_syntax, syntax_laws};
use std::alloc::Global;

/// What a schema declares, if its names are known.
fn resolved(alloc: Global, written: &WrittenSchema) -> Option<ResolvedSchema>
    requires { IsWritten written.now }
    ensures { IfSome result IsResolved }
{
    resolution_laws();
    resolve(alloc, written).ok()
}

/// What a file declares, if its names are known.
pub fn declared(alloc: Global, text: &str) -> Option<ResolvedSchema>
    ensures { IfSome result IsResolved }
{
    syntax_laws();
    match read_syntax(alloc, text.as_bytes()) {
        Ok(written) => resolved(alloc, &written),
        Err(_) => None,
    }
}
