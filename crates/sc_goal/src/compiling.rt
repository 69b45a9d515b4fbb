//! Policies that are typed again and compiled.
ghost use Rattle.std.specs.Prelude.{◌≡◌, Some, length, map, IfOk, IfSome, IsSome};
ghost use Rattle.sc_terms.specs.Tables.{Keeps};
ghost use Rattle.sc_constructs.specs.Numbers.{StandsAs};
ghost use Rattle.sc_symeval.specs.Compiling.{policy_code};
ghost use Rattle.sc_symeval.specs.Settings.{IsReady};
ghost use Rattle.sc_symauth.specs.Numbers.{AreCodes, compiled_at};
ghost use Rattle.sc_goal.specs.Goals.{all_compiled};
ghost use Rattle.sc_goal.specs.Selections.{selected};

use sc_ast::Policy;
use sc_lists::{Fault, Seq};
use sc_symauth::CompiledPolicy;
use sc_symeval::{Opt, Setting, compile_in};
use sc_terms::Terms;
use sc_typing::type_policy;
use std::alloc::AllocError;

/// Compiles each policy that is marked in an environment, in order.
pub(crate) fn compile_marked(
    setting: &Setting<'_>,
    terms: &mut Terms,
    policies: &[Policy],
    marks: &[bool],
) -> Result<Seq<CompiledPolicy>, AllocError>
    requires ready { IsReady terms.old setting.now }
    requires marks { length marks.now ≡ length policies.now }
    requires typed { IsSome (all_compiled setting.now.schema.now setting.now.env.now
        (selected marks.now policies.now)) }
    ensures ok { IfOk result (λ compiled. all_compiled setting.now.schema.now setting.now.env.now
        (selected marks.now policies.now) ≡ Some (map (compiled_at terms.new) compiled)) }
    ensures codes { IfOk result (λ compiled. AreCodes terms.new compiled) }
    ensures kept { Keeps terms.old terms.new }
{
    let mut compiled = Seq::new(setting.alloc);
    for (place, marked) in marks.iter().enumerate() {
        if *marked {
            let policy = &policies[place];
            let code = compile_policy(setting, terms, policy)?;
            compiled.push(CompiledPolicy {
                effect: policy.effect,
                code,
            })?;
        }
    }
    Ok(compiled)
}

/// Types the condition of a policy in an environment, and compiles it.
fn compile_policy(
    setting: &Setting<'_>,
    terms: &mut Terms,
    policy: &Policy,
) -> Result<Opt, AllocError>
    requires ready { IsReady terms.old setting.now }
    requires typed { IsSome (policy_code setting.now.schema.now setting.now.env.now policy.now) }
    ensures ok { IfOk result (λ o. IfSome (policy_code setting.now.schema.now setting.now.env.now policy.now)
        (λ c. StandsAs terms.new o c)) }
    ensures kept { Keeps terms.old terms.new }
{
    match type_policy(setting.alloc, setting.schema, setting.env, policy) {
        Ok(condition) => {
            let outcome = compile_in(setting, terms, &condition);
            drop(condition);
            outcome
        }
        Err(Fault::Told(_)) => unreachable!(),
        Err(Fault::NoMemory) => Err(AllocError),
    }
}
