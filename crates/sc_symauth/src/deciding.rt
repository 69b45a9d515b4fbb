//! What typed policies decide, as a term.
ghost use Rattle.std.specs.Prelude.{IfOk};
ghost use Rattle.sc_terms.specs.Tables.{Keeps, StandsFor};
ghost use Rattle.sc_symauth.specs.Standings.{all_compiled, allow};
ghost use Rattle.sc_symauth.specs.Numbers.{AreCompiled};

use crate::compiled::CompiledPolicy;
use crate::joining::allow_term;
use crate::typed::Typed;
use sc_lists::Seq;
use sc_schema::{Env, Schema};
use sc_symeval::{Setting, compile_in, variables_of};
use sc_terms::Terms;
use std::alloc::{AllocError, Global};

/// Whether typed policies allow: some permit is satisfied, and no forbid is. They are typed for an
/// environment of the schema. Terms of the table keep their numbers, also where memory is wanted.
#[tactic(auto, using(crate::proofs::NumbersLaws::allow_of))]
pub fn decision_term(
    alloc: Global,
    terms: &mut Terms,
    schema: &Schema,
    policies: &[Typed],
    env: &Env,
) -> Result<u64, AllocError>
    ensures ok { IfOk result (λ n. StandsFor terms.new n (allow (all_compiled schema.now env.now policies.now))) }
    ensures kept { Keeps terms.old terms.new }
{
    let compiled = compile_all(alloc, terms, schema, policies, env)?;
    let n = allow_term(alloc, terms, compiled.as_slice())?;
    Ok(n)
}

/// Compiles each policy, in order.
fn compile_all(
    alloc: Global,
    terms: &mut Terms,
    schema: &Schema,
    policies: &[Typed],
    env: &Env,
) -> Result<Seq<CompiledPolicy>, AllocError>
    ensures ok { IfOk result (λ compiled. AreCompiled terms.new compiled
        (all_compiled schema.now env.now policies.now)) }
    ensures kept { Keeps terms.old terms.new }
{
    let variables = variables_of(alloc, terms, schema, env)?;
    let setting = Setting {
        alloc,
        schema,
        env,
        variables,
    };
    let mut compiled = Seq::new(alloc);
    for policy in policies {
        let code = compile_in(&setting, terms, &policy.condition)?;
        compiled.push(CompiledPolicy {
            effect: policy.effect,
            code,
        })?;
    }
    Ok(compiled)
}
