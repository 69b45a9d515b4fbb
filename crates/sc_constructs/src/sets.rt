//! `==` and what is asked of sets, of operands that are compiled.
ghost use Rattle.std.specs.Prelude.{◌≡◌, ◌<◌, length, IfOk};
ghost use Rattle.sc_terms.specs.Folds.{equal_term};
ghost use Rattle.sc_terms.specs.Tables.{tree, Keeps, StandsFor};
ghost use Rattle.sc_terms.specs.TreeSorts.{tree_sort};
ghost use Rattle.sc_constructs.specs.Code.{only_where, same_sort, equal_code, contains_code, contains_all_code, contains_any_code, is_empty_code};
ghost use Rattle.sc_constructs.specs.Numbers.{IsCode, StandsAs, code_at};

use crate::opt::Opt;
use crate::setting::Setting;
use sc_sorts::member_sort;
use sc_terms::Terms;
use std::alloc::AllocError;

/// `a == b`, which is false where the sorts differ.
pub fn equal(terms: &mut Terms, a: Opt, b: Opt) -> Result<Opt, AllocError>
    requires a_in { IsCode terms.old a }
    requires b_in { IsCode terms.old b }
    ensures ok { IfOk result (λ o. StandsAs terms.new o (equal_code (code_at terms.old a) (code_at terms.old b))) }
    ensures kept { Keeps terms.old terms.new }
{
    let same = are_of_one_sort(terms, a.val, b.val);
    let val = equal_where(terms, same, a.val, b.val)?;
    let ok = terms.and(a.ok, b.ok)?;
    Ok(Opt { ok, val })
}

#[tactic(auto, unfolding(crate::specs::Code::same_sort))]
fn are_of_one_sort(terms: &Terms, a: u64, b: u64) -> bool
    requires a_in { a < length terms.now }
    requires b_in { b < length terms.now }
    ensures { result ≡ same_sort (tree_sort (tree terms.now a)) (tree_sort (tree terms.now b)) }
{
    *terms.sort(a) == *terms.sort(b)
}

/// Whether two terms have one value, where they are comparable, and else `false`.
pub fn equal_where(terms: &mut Terms, so: bool, a: u64, b: u64) -> Result<u64, AllocError>
    requires a_in { a < length terms.old }
    requires b_in { b < length terms.old }
    ensures ok { IfOk result (λ n. StandsFor terms.new n (only_where so (equal_term (tree terms.old a)
        (tree terms.old b)))) }
    ensures kept { Keeps terms.old terms.new }
{
    if so {
        terms.equal(a, b)
    } else {
        terms.truth(false)
    }
}

/// `a.contains(b)`.
pub fn contains(terms: &mut Terms, a: Opt, b: Opt) -> Result<Opt, AllocError>
    requires a_in { IsCode terms.old a }
    requires b_in { IsCode terms.old b }
    ensures ok { IfOk result (λ o. StandsAs terms.new o (contains_code (code_at terms.old a) (code_at terms.old b))) }
    ensures kept { Keeps terms.old terms.new }
{
    let ok = terms.and(a.ok, b.ok)?;
    let val = terms.member(b.val, a.val)?;
    Ok(Opt { ok, val })
}

/// `a.containsAll(b)`.
pub fn contains_all(terms: &mut Terms, a: Opt, b: Opt) -> Result<Opt, AllocError>
    requires a_in { IsCode terms.old a }
    requires b_in { IsCode terms.old b }
    ensures ok { IfOk result (λ o. StandsAs terms.new o
        (contains_all_code (code_at terms.old a) (code_at terms.old b))) }
    ensures kept { Keeps terms.old terms.new }
{
    let ok = terms.and(a.ok, b.ok)?;
    let val = terms.subset(b.val, a.val)?;
    Ok(Opt { ok, val })
}

/// `a.containsAny(b)`.
pub fn contains_any(terms: &mut Terms, a: Opt, b: Opt) -> Result<Opt, AllocError>
    requires a_in { IsCode terms.old a }
    requires b_in { IsCode terms.old b }
    ensures ok { IfOk result (λ o. StandsAs terms.new o
        (contains_any_code (code_at terms.old a) (code_at terms.old b))) }
    ensures kept { Keeps terms.old terms.new }
{
    let ok = terms.and(a.ok, b.ok)?;
    let val = terms.common(a.val, b.val)?;
    Ok(Opt { ok, val })
}

/// `a.isEmpty()`: whether a is within the empty set.
pub fn is_empty(setting: &Setting<'_>, terms: &mut Terms, a: Opt) -> Result<Opt, AllocError>
    requires { IsCode terms.old a }
    ensures ok { IfOk result (λ o. StandsAs terms.new o (is_empty_code (code_at terms.old a))) }
    ensures kept { Keeps terms.old terms.new }
{
    let member = member_sort(setting.alloc, terms.sort(a.val))?;
    let empty = terms.set(member, &[])?;
    let val = terms.subset(a.val, empty)?;
    Ok(Opt { ok: a.ok, val })
}
