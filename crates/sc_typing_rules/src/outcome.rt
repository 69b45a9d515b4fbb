//! What a rule makes: an expression with its types, and what it gives.
ghost use Rattle.std.specs.Prelude.{◌≡◌, [], IfOk};
ghost use Rattle.sc_typed.specs.Outcomes.{made};

use sc_lists::{Boxed, Seq};
use sc_typed::{Capability, Typed, TypedExpr};
use std::alloc::{AllocError, Global};

/// An expression with its types, and what it gives.
pub(crate) fn made(
    alloc: Global,
    expr: TypedExpr,
    given: Seq<Capability>,
) -> Result<Typed, AllocError>
    ensures { IfOk result (λ x. x ≡ made expr given) }
{
    let expr = Boxed::new(alloc, expr)?;
    Ok(Typed { expr, given })
}

/// An expression with its types, which gives nothing.
pub(crate) fn plain(alloc: Global, expr: TypedExpr) -> Result<Typed, AllocError>
    ensures { IfOk result (λ x. x ≡ made expr []) }
{
    made(alloc, expr, Seq::new(alloc))
}
