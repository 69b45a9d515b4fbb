//! Comparisons and arithmetic, of operands that are compiled.
ghost use Rattle.std.specs.Prelude.{◌<◌, length, IfOk};
ghost use Rattle.sc_terms.specs.Tables.{tree, Keeps};
ghost use Rattle.sc_constructs.specs.Code.{where_so, less_code, less_or_equal_code, greater_code, greater_or_equal_code, sum_code, difference_code, product_code, negative_code};
ghost use Rattle.sc_constructs.specs.Numbers.{IsCode, StandsAs, code_at};
ghost use Rattle.sc_terms.specs.Folds.{not_term};

use crate::opt::Opt;
use sc_sorts::Literal;
use sc_terms::Terms;
use std::alloc::AllocError;

/// `a < b`.
pub fn less(terms: &mut Terms, a: Opt, b: Opt) -> Result<Opt, AllocError>
    requires a_in { IsCode terms.old a }
    requires b_in { IsCode terms.old b }
    ensures ok { IfOk result (λ o. StandsAs terms.new o (less_code (code_at terms.old a) (code_at terms.old b))) }
    ensures kept { Keeps terms.old terms.new }
{
    let ok = terms.and(a.ok, b.ok)?;
    let val = terms.less(a.val, b.val)?;
    Ok(Opt { ok, val })
}

/// `a <= b`, where b isn't less.
pub fn less_or_equal(terms: &mut Terms, a: Opt, b: Opt) -> Result<Opt, AllocError>
    requires a_in { IsCode terms.old a }
    requires b_in { IsCode terms.old b }
    ensures ok { IfOk result (λ o. StandsAs terms.new o
        (less_or_equal_code (code_at terms.old a) (code_at terms.old b))) }
    ensures kept { Keeps terms.old terms.new }
{
    let ok = terms.and(a.ok, b.ok)?;
    let greater = terms.less(b.val, a.val)?;
    let val = terms.not(greater)?;
    Ok(Opt { ok, val })
}

/// `a > b`, where b is less.
pub fn greater(terms: &mut Terms, a: Opt, b: Opt) -> Result<Opt, AllocError>
    requires a_in { IsCode terms.old a }
    requires b_in { IsCode terms.old b }
    ensures ok { IfOk result (λ o. StandsAs terms.new o (greater_code (code_at terms.old a) (code_at terms.old b))) }
    ensures kept { Keeps terms.old terms.new }
{
    let ok = terms.and(a.ok, b.ok)?;
    let val = terms.less(b.val, a.val)?;
    Ok(Opt { ok, val })
}

/// `a >= b`, where a isn't less.
pub fn greater_or_equal(terms: &mut Terms, a: Opt, b: Opt) -> Result<Opt, AllocError>
    requires a_in { IsCode terms.old a }
    requires b_in { IsCode terms.old b }
    ensures ok { IfOk result (λ o. StandsAs terms.new o (greater_or_equal_code (code_at terms.old a)
        (code_at terms.old b))) }
    ensures kept { Keeps terms.old terms.new }
{
    let ok = terms.and(a.ok, b.ok)?;
    let less = terms.less(a.val, b.val)?;
    let val = terms.not(less)?;
    Ok(Opt { ok, val })
}

/// `a + b`.
pub fn sum(terms: &mut Terms, a: Opt, b: Opt) -> Result<Opt, AllocError>
    requires a_in { IsCode terms.old a }
    requires b_in { IsCode terms.old b }
    ensures ok { IfOk result (λ o. StandsAs terms.new o (sum_code (code_at terms.old a) (code_at terms.old b))) }
    ensures kept { Keeps terms.old terms.new }
{
    let overflows = terms.sum_overflows(a.val, b.val)?;
    let val = terms.sum(a.val, b.val)?;
    let opt = unless(terms, a, b, overflows, val)?;
    Ok(opt)
}

/// `a - b`.
pub fn difference(terms: &mut Terms, a: Opt, b: Opt) -> Result<Opt, AllocError>
    requires a_in { IsCode terms.old a }
    requires b_in { IsCode terms.old b }
    ensures ok { IfOk result (λ o. StandsAs terms.new o (difference_code (code_at terms.old a) (code_at terms.old b))) }
    ensures kept { Keeps terms.old terms.new }
{
    let overflows = terms.difference_overflows(a.val, b.val)?;
    let val = terms.difference(a.val, b.val)?;
    let opt = unless(terms, a, b, overflows, val)?;
    Ok(opt)
}

/// `a * b`.
pub fn product(terms: &mut Terms, a: Opt, b: Opt) -> Result<Opt, AllocError>
    requires a_in { IsCode terms.old a }
    requires b_in { IsCode terms.old b }
    ensures ok { IfOk result (λ o. StandsAs terms.new o (product_code (code_at terms.old a) (code_at terms.old b))) }
    ensures kept { Keeps terms.old terms.new }
{
    let overflows = terms.product_overflows(a.val, b.val)?;
    let val = terms.product(a.val, b.val)?;
    let opt = unless(terms, a, b, overflows, val)?;
    Ok(opt)
}

/// `-a`, which is `0 - a`.
pub fn negative(terms: &mut Terms, a: Opt) -> Result<Opt, AllocError>
    requires { IsCode terms.old a }
    ensures ok { IfOk result (λ o. StandsAs terms.new o (negative_code (code_at terms.old a))) }
    ensures kept { Keeps terms.old terms.new }
{
    let ok = terms.truth(true)?;
    let val = terms.literal(Literal::Long(0))?;
    let opt = difference(terms, Opt { ok, val }, a)?;
    Ok(opt)
}

/// A term that has a value where two operands have, unless the result leaves the range.
fn unless(terms: &mut Terms, a: Opt, b: Opt, overflows: u64, val: u64) -> Result<Opt, AllocError>
    requires a_in { IsCode terms.old a }
    requires b_in { IsCode terms.old b }
    requires overflows_in { overflows < length terms.old }
    requires val_in { val < length terms.old }
    ensures ok { IfOk result (λ o. StandsAs terms.new o (where_so (code_at terms.old a) (code_at terms.old b) (not_term
        (tree terms.old overflows)) (tree terms.old val))) }
    ensures kept { Keeps terms.old terms.new }
{
    let fits = terms.not(overflows)?;
    let opt = only_so(terms, a, b, fits, val)?;
    Ok(opt)
}

/// A term that has a value where two operands have, and something else is so.
pub fn only_so(terms: &mut Terms, a: Opt, b: Opt, so: u64, val: u64) -> Result<Opt, AllocError>
    requires a_in { IsCode terms.old a }
    requires b_in { IsCode terms.old b }
    requires so_in { so < length terms.old }
    requires val_in { val < length terms.old }
    ensures ok { IfOk result (λ o. StandsAs terms.new o (where_so (code_at terms.old a) (code_at terms.old b)
        (tree terms.old so) (tree terms.old val))) }
    ensures kept { Keeps terms.old terms.new }
{
    let rest = terms.and(b.ok, so)?;
    let ok = terms.and(a.ok, rest)?;
    Ok(Opt { ok, val })
}
