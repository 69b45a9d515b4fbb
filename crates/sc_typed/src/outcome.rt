//! What typing gives.
ghost use Rattle.std.specs.Prelude.{◌≡◌, []};

use crate::capability::Capability;
use crate::typed_expr::TypedExpr;
use sc_lists::{Boxed, Seq};
use std::alloc::Global;

/// An expression with its types.
#[derive(Drop)]
pub struct Typed {
    /// The expression, in a box, as it stands in a larger one.
    pub expr: Boxed<TypedExpr>,
    /// What holds wherever the expression is true.
    pub given: Seq<Capability>,
}

impl Typed {
    /// An expression that gives nothing.
    pub fn plain(alloc: Global, expr: Boxed<TypedExpr>) -> Typed
        ensures { result ≡ record { expr = expr; given = [] } }
    {
        Typed {
            expr,
            given: Seq::new(alloc),
        }
    }

    /// The expression alone.
    pub fn into_expr(self) -> Boxed<TypedExpr>
        ensures { result ≡ self.expr }
    {
        let Typed { expr, given: _ } = self;
        expr
    }
}
