//! Typed policies.
use sc_ast::Effect;
use sc_typed::TypedExpr;

/// What decides what a policy does: its effect, and its condition with types.
#[derive(Debug, Drop)]
pub struct Typed {
    /// What it does where its condition is true.
    pub effect: Effect,
    /// Its condition.
    pub condition: TypedExpr,
}
