//! Policies without a type, as text.
ghost use Rattle.std.specs.Prelude.{◌≡◌, ◌++◌, OnOk};
ghost use Rattle.sc_inputs.specs.FaultTexts.{env_text, rule_name, type_fault_text};

use crate::fault_text::put_placed;
use crate::put::{put, put_number};
use sc_names::uid_text;
use sc_schema::Env;
use sc_typed::TypeRule;
use sc_typing::IllTyped;
use std::alloc::{AllocError, Global};

/// Puts an environment at the end, as lines name it.
#[tactic(auto, unfolding(crate::specs::FaultTexts::env_text))]
pub fn put_env(alloc: Global, out: &mut Vec<u8>, env: &Env) -> Result<(), AllocError>
    ensures { OnOk result (out.new.items ≡ out.old.items ++ env_text env.now) }
{
    put(out, b"env ")?;
    put(out, env.principal.as_str().as_bytes())?;
    put(out, b" ")?;
    let action = uid_text(alloc, &env.action)?;
    put(out, action.as_bytes())?;
    put(out, b" ")?;
    put(out, env.resource.as_str().as_bytes())
}

fn rule_name(rule: TypeRule) -> &'static [u8]
    ensures { result.now ≡ rule_name rule }
{
    match rule {
        TypeRule::NotBoolean => b"NotBoolean",
        TypeRule::NoJoin => b"NoJoin",
        TypeRule::NotLong => b"NotLong",
        TypeRule::NotEntity => b"NotEntity",
        TypeRule::NotEntityOrSet => b"NotEntityOrSet",
        TypeRule::NotObject => b"NotObject",
        TypeRule::NoAttribute => b"NoAttribute",
        TypeRule::MaybeAbsent => b"MaybeAbsent",
        TypeRule::NotString => b"NotString",
        TypeRule::NoTags => b"NoTags",
        TypeRule::TagMaybeAbsent => b"TagMaybeAbsent",
        TypeRule::NotSet => b"NotSet",
        TypeRule::EmptySet => b"EmptySet",
        TypeRule::BadLiteral => b"BadLiteral",
        TypeRule::NotDecimal => b"NotDecimal",
        TypeRule::NotIp => b"NotIp",
    }
}

/// Puts a policy without a type at the end: which one it is, the environment, the rule that it breaks
/// there, and the place.
#[tactic(auto, unfolding(crate::specs::FaultTexts::type_fault_text))]
pub fn put_type_fault(alloc: Global, out: &mut Vec<u8>, fault: &IllTyped) -> Result<(), AllocError>
    ensures { OnOk result (out.new.items ≡ out.old.items ++ type_fault_text fault.now) }
{
    put(out, b"policy")?;
    put_number(out, fault.policy as u64)?;
    put(out, b" ")?;
    put_env(alloc, out, &fault.env)?;
    put(out, b" ")?;
    put_placed(out, rule_name(fault.fault.rule), fault.fault.at)
}
