//! How one policy stands, as a term.
ghost use Rattle.std.specs.Prelude.{IfOk};
ghost use Rattle.sc_terms.specs.Tables.{Keeps, StandsFor};
ghost use Rattle.sc_symeval.specs.Codes.{code_of};
ghost use Rattle.sc_symauth.specs.Standings.{satisfied, error};
ghost use Rattle.sc_constructs.specs.Numbers.{IsCode, code_at};

use sc_schema::{Env, Schema};
use sc_symeval::{Opt, compile};
use sc_terms::Terms;
use sc_typed::TypedExpr;
use std::alloc::{AllocError, Global};

/// Whether a condition has a value and is true. The condition is typed for an environment of the
/// schema. Terms of the table keep their numbers, also where memory is wanted.
#[tactic(auto, using(sc_constructs::proofs::NumbersLaws::in_table, crate::proofs::NumbersLaws::satisfied_of))]
pub fn satisfied_term(
    alloc: Global,
    terms: &mut Terms,
    schema: &Schema,
    condition: &TypedExpr,
    env: &Env,
) -> Result<u64, AllocError>
    ensures ok { IfOk result (λ n. StandsFor terms.new n (satisfied (code_of schema.now env.now condition.now))) }
    ensures kept { Keeps terms.old terms.new }
{
    let code = compile(alloc, terms, schema, condition, env)?;
    let n = satisfied_by(terms, code)?;
    Ok(n)
}

/// Whether a condition has no value. The condition is typed for an environment of the schema.
/// Terms of the table keep their numbers, also where memory is wanted.
#[tactic(auto, using(sc_constructs::proofs::NumbersLaws::in_table, crate::proofs::NumbersLaws::error_of))]
pub fn error_term(
    alloc: Global,
    terms: &mut Terms,
    schema: &Schema,
    condition: &TypedExpr,
    env: &Env,
) -> Result<u64, AllocError>
    ensures ok { IfOk result (λ n. StandsFor terms.new n (error (code_of schema.now env.now condition.now))) }
    ensures kept { Keeps terms.old terms.new }
{
    let code = compile(alloc, terms, schema, condition, env)?;
    let n = error_by(terms, code)?;
    Ok(n)
}

/// Whether a condition that is compiled has a value and is true.
pub(crate) fn satisfied_by(terms: &mut Terms, code: Opt) -> Result<u64, AllocError>
    requires { IsCode terms.old code }
    ensures ok { IfOk result (λ n. StandsFor terms.new n (satisfied (code_at terms.old code))) }
    ensures kept { Keeps terms.old terms.new }
{
    terms.and(code.ok, code.val)
}

/// Whether a condition that is compiled has no value.
pub(crate) fn error_by(terms: &mut Terms, code: Opt) -> Result<u64, AllocError>
    requires { IsCode terms.old code }
    ensures ok { IfOk result (λ n. StandsFor terms.new n (error (code_at terms.old code))) }
    ensures kept { Keeps terms.old terms.new }
{
    terms.not(code.ok)
}
