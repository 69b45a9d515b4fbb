//! Typing of policies.
ghost use Rattle.std.specs.Prelude.{◌≡◌, IfOk};
ghost use Rattle.sc_lists.specs.Told.{Gives};
ghost use Rattle.sc_typing.specs.Policies.{asked, typed_policy};
ghost use Rattle.sc_typing.specs.Settings.{condition_in};

use crate::acting::acting_boxed;
use crate::typing::type_expr;
use sc_ast::{Expr, Policy, condition};
use sc_lists::{Boxed, Fault};
use sc_schema::{Env, Schema};
use sc_typed::operands::boolean;
use sc_typed::{TypeFault, TypedExpr};
use sc_typing_rules::Setting;
use std::alloc::{AllocError, Global};

/// The condition of a policy with its types, in an environment of a schema: `action` is the
/// environment's action, nothing is known beforehand, and the whole has to be Boolean. The fault is
/// the first one, from left to right; operands are typed before their kinds are asked for.
pub fn type_policy(
    alloc: Global,
    schema: &Schema,
    env: &Env,
    policy: &Policy,
) -> Result<TypedExpr, Fault<TypeFault>>
    ensures { Gives result (typed_policy schema.now env.now policy.now) }
{
    Ok(boxed_policy(alloc, schema, env, policy)?.into_inner())
}

/// The condition of a policy with its types, in a box.
pub(crate) fn boxed_policy(
    alloc: Global,
    schema: &Schema,
    env: &Env,
    policy: &Policy,
) -> Result<Boxed<TypedExpr>, Fault<TypeFault>>
    ensures { Gives result (typed_policy schema.now env.now policy.now) }
{
    let asked = asked(alloc, env, policy)?;
    let setting = Setting {
        alloc,
        schema,
        env,
        known: &[],
    };
    type_condition(&setting, asked.get())
}

/// What a policy asks of the requests of an environment.
fn asked(alloc: Global, env: &Env, policy: &Policy) -> Result<Boxed<Expr>, AllocError>
    ensures { IfOk result (λ e. e ≡ asked env.now policy.now) }
{
    let condition = Boxed::new(alloc, condition(alloc, policy)?)?;
    acting_boxed(alloc, &env.action, &condition)
}

/// An expression with its types, which has to be Boolean.
fn type_condition(setting: &Setting<'_>, expr: &Expr) -> Result<Boxed<TypedExpr>, Fault<TypeFault>>
    ensures { Gives result (condition_in setting.now expr.now) }
{
    let typed = type_expr(setting, expr)?;
    boolean(typed.expr.get())?;
    Ok(typed.into_expr())
}
