//! `if`, `||`, `&&`, `!` and what is always the same, of operands that are compiled.
ghost use Rattle.std.specs.Prelude.{◌<◌, length, IfOk};
ghost use Rattle.sc_terms.specs.Folds.{truth_term};
ghost use Rattle.sc_terms.specs.Tables.{tree, Keeps};
ghost use Rattle.sc_constructs.specs.Code.{choice_code, branch_code, or_code, and_code, not_code, is_code, after_both, constant as constant_code};
ghost use Rattle.sc_constructs.specs.Numbers.{IsCode, StandsAs, code_at};

use crate::opt::Opt;
use sc_terms::Terms;
use std::alloc::AllocError;

/// `if c then a else b` where either branch may be taken.
pub fn choose(terms: &mut Terms, c: Opt, a: Opt, b: Opt) -> Result<Opt, AllocError>
    requires c_in { IsCode terms.old c }
    requires a_in { IsCode terms.old a }
    requires b_in { IsCode terms.old b }
    ensures ok { IfOk result (λ o. StandsAs terms.new o (choice_code (code_at terms.old c) (code_at terms.old a)
        (code_at terms.old b))) }
    ensures kept { Keeps terms.old terms.new }
{
    let either = terms.choice(c.val, a.ok, b.ok)?;
    let ok = terms.and(c.ok, either)?;
    let val = terms.choice(c.val, a.val, b.val)?;
    Ok(Opt { ok, val })
}

/// `if c then a else b` where one branch, a, is always taken.
pub fn branch(terms: &mut Terms, c: Opt, a: Opt) -> Result<Opt, AllocError>
    requires c_in { IsCode terms.old c }
    requires a_in { IsCode terms.old a }
    ensures ok { IfOk result (λ o. StandsAs terms.new o (branch_code (code_at terms.old c) (code_at terms.old a))) }
    ensures kept { Keeps terms.old terms.new }
{
    let ok = terms.and(c.ok, a.ok)?;
    Ok(Opt { ok, val: a.val })
}

/// `a || b`, where b is evaluated where a is false.
pub fn or(terms: &mut Terms, a: Opt, b: Opt) -> Result<Opt, AllocError>
    requires a_in { IsCode terms.old a }
    requires b_in { IsCode terms.old b }
    ensures ok { IfOk result (λ o. StandsAs terms.new o (or_code (code_at terms.old a) (code_at terms.old b))) }
    ensures kept { Keeps terms.old terms.new }
{
    let rest = terms.or(a.val, b.ok)?;
    let ok = terms.and(a.ok, rest)?;
    let val = terms.or(a.val, b.val)?;
    Ok(Opt { ok, val })
}

/// `a && b`, where b is evaluated where a is true.
pub fn and(terms: &mut Terms, a: Opt, b: Opt) -> Result<Opt, AllocError>
    requires a_in { IsCode terms.old a }
    requires b_in { IsCode terms.old b }
    ensures ok { IfOk result (λ o. StandsAs terms.new o (and_code (code_at terms.old a) (code_at terms.old b))) }
    ensures kept { Keeps terms.old terms.new }
{
    let skipped = terms.not(a.val)?;
    let rest = terms.or(skipped, b.ok)?;
    let ok = terms.and(a.ok, rest)?;
    let val = terms.and(a.val, b.val)?;
    Ok(Opt { ok, val })
}

/// `!a`.
pub fn not(terms: &mut Terms, a: Opt) -> Result<Opt, AllocError>
    requires { IsCode terms.old a }
    ensures ok { IfOk result (λ o. StandsAs terms.new o (not_code (code_at terms.old a))) }
    ensures kept { Keeps terms.old terms.new }
{
    let val = terms.not(a.val)?;
    Ok(Opt { ok: a.ok, val })
}

/// A truth value that is always the same where an operand has a value.
pub fn tell(terms: &mut Terms, a: Opt, b: bool) -> Result<Opt, AllocError>
    requires { IsCode terms.old a }
    ensures ok { IfOk result (λ o. StandsAs terms.new o (is_code b (code_at terms.old a))) }
    ensures kept { Keeps terms.old terms.new }
{
    let val = terms.truth(b)?;
    Ok(Opt { ok: a.ok, val })
}

/// The same of two operands.
pub fn tell_both(terms: &mut Terms, a: Opt, b: Opt, told: bool) -> Result<Opt, AllocError>
    requires a_in { IsCode terms.old a }
    requires b_in { IsCode terms.old b }
    ensures ok { IfOk result (λ o. StandsAs terms.new o (after_both (code_at terms.old a) (code_at terms.old b)
        (truth_term told))) }
    ensures kept { Keeps terms.old terms.new }
{
    let ok = terms.and(a.ok, b.ok)?;
    let val = terms.truth(told)?;
    Ok(Opt { ok, val })
}

/// A term that has a value where two operands have.
pub fn both_have(terms: &mut Terms, a: Opt, b: Opt, val: u64) -> Result<Opt, AllocError>
    requires a_in { IsCode terms.old a }
    requires b_in { IsCode terms.old b }
    requires val_in { val < length terms.old }
    ensures ok { IfOk result (λ o. StandsAs terms.new o (after_both (code_at terms.old a) (code_at terms.old b)
        (tree terms.old val))) }
    ensures kept { Keeps terms.old terms.new }
{
    let ok = terms.and(a.ok, b.ok)?;
    Ok(Opt { ok, val })
}

/// A truth value, which always comes.
pub fn constant(terms: &mut Terms, b: bool) -> Result<Opt, AllocError>
    ensures ok { IfOk result (λ o. StandsAs terms.new o (constant_code b)) }
    ensures kept { Keeps terms.old terms.new }
{
    let ok = terms.truth(true)?;
    let val = terms.truth(b)?;
    Ok(Opt { ok, val })
}
