//! What a set of policies decides, as a term.
ghost use Rattle.std.specs.Prelude.{◌≡◌, All, filter, map, IfOk};
ghost use Rattle.sc_constructs.specs.declared.opt.Opt.{Opt as AnyOpt};
ghost use Rattle.sc_terms.specs.Tables.{Keeps, StandsFor};
ghost use Rattle.sc_symauth.specs.declared.compiled.CompiledPolicy.{CompiledPolicy as AnyCompiled};
ghost use Rattle.sc_symauth.specs.Standings.{satisfied, error, allow, any_error, any_satisfied};
ghost use Rattle.sc_constructs.specs.Numbers.{IsCode, StandForAll, code_at};
ghost use Rattle.sc_symauth.specs.Numbers.{AreCodes, compiled_at, has_effect};

use crate::compiled::CompiledPolicy;
use crate::standing::{error_by, satisfied_by};
use sc_ast::Effect;
use sc_lists::Seq;
use sc_symeval::Opt;
use sc_terms::Terms;
use std::alloc::{AllocError, Global};

/// Whether policies that are compiled allow: some permit is satisfied, and no forbid is. Terms of the
/// table keep their numbers, also where memory is wanted.
pub fn allow_term(
    alloc: Global,
    terms: &mut Terms,
    policies: &[CompiledPolicy],
) -> Result<u64, AllocError>
    requires { AreCodes terms.old policies.now }
    ensures ok { IfOk result (λ n. StandsFor terms.new n (allow (map (compiled_at terms.old) policies.now))) }
    ensures kept { Keeps terms.old terms.new }
{
    let permitted = any_satisfied_term(alloc, terms, policies, true)?;
    let forbidden = any_satisfied_term(alloc, terms, policies, false)?;
    let not_forbidden = terms.not(forbidden)?;
    terms.and(permitted, not_forbidden)
}

/// Whether a permit is satisfied, or else whether a forbid is.
fn any_satisfied_term(
    alloc: Global,
    terms: &mut Terms,
    policies: &[CompiledPolicy],
    permitting: bool,
) -> Result<u64, AllocError>
    requires { AreCodes terms.old policies.now }
    ensures ok { IfOk result (λ n. StandsFor terms.new n (any_satisfied (λ p. has_effect permitting p.effect) (map
        (compiled_at terms.old) policies.now))) }
    ensures kept { Keeps terms.old terms.new }
{
    let codes = codes_of(alloc, policies, permitting)?;
    let numbers = satisfied_terms(alloc, terms, codes.as_slice())?;
    terms.any_of(numbers.as_slice())
}

/// What the conditions of the permits are compiled to, or else of the forbids.
fn codes_of(
    alloc: Global,
    policies: &[CompiledPolicy],
    permitting: bool,
) -> Result<Seq<Opt>, AllocError>
    ensures { IfOk result (λ codes. codes
        ≡ map (λ (p : AnyCompiled). p.code) (filter (λ
        (p : AnyCompiled). has_effect permitting p.effect) policies.now)) }
{
    let mut codes = Seq::new(alloc);
    for policy in policies {
        if has_effect(permitting, policy.effect) {
            codes.push(policy.code)?;
        }
    }
    Ok(codes)
}

/// Whether an effect is to permit, or else whether it is to forbid.
fn has_effect(permitting: bool, effect: Effect) -> bool
    ensures { result ≡ has_effect permitting effect }
{
    match effect {
        Effect::Permit => permitting,
        Effect::Forbid => !permitting,
    }
}

/// Whether each condition has a value and is true.
fn satisfied_terms(alloc: Global, terms: &mut Terms, codes: &[Opt]) -> Result<Seq<u64>, AllocError>
    requires { All (λ (o : AnyOpt). IsCode terms.old o) codes.now }
    ensures ok { IfOk result (λ ns. StandForAll terms.new ns (map (λ (o : AnyOpt). satisfied
        (code_at terms.old o)) codes.now)) }
    ensures kept { Keeps terms.old terms.new }
{
    let mut numbers = Seq::new(alloc);
    for code in codes {
        let n = satisfied_by(terms, *code)?;
        numbers.push(n)?;
    }
    Ok(numbers)
}

/// Whether the condition of one of the policies that are compiled has no value. Terms of the table keep
/// their numbers, also where memory is wanted.
pub fn any_error_term(
    alloc: Global,
    terms: &mut Terms,
    policies: &[CompiledPolicy],
) -> Result<u64, AllocError>
    requires { AreCodes terms.old policies.now }
    ensures ok { IfOk result (λ n. StandsFor terms.new n (any_error (map (compiled_at terms.old) policies.now))) }
    ensures kept { Keeps terms.old terms.new }
{
    let errors = error_terms(alloc, terms, policies)?;
    terms.any_of(errors.as_slice())
}

/// Whether each condition has no value.
fn error_terms(
    alloc: Global,
    terms: &mut Terms,
    policies: &[CompiledPolicy],
) -> Result<Seq<u64>, AllocError>
    requires { AreCodes terms.old policies.now }
    ensures ok { IfOk result (λ ns. StandForAll terms.new ns (map (λ (p : AnyCompiled). error
        (code_at terms.old p.code)) policies.now)) }
    ensures kept { Keeps terms.old terms.new }
{
    let mut numbers = Seq::new(alloc);
    for policy in policies {
        let n = error_by(terms, policy.code)?;
        numbers.push(n)?;
    }
    Ok(numbers)
}
