//! Two ascending lists of values, walked together: each is gone through once.
ghost use Rattle.std.specs.Prelude.{◌≡◌, ◌↔◌, IsTrue};
ghost use Rattle.std.specs.List.Sorted.{IsStrictlySortedBy};
ghost use Rattle.sc_values.specs.Order.{value_cmp};
ghost use Rattle.sc_values.specs.Sets.{IsSubset, Meets};
ghost use Rattle.sc_values.specs.Walks.{from, starts_with, meets_all, meets_one};

use crate::order::cmp_value;
use crate::value::Value;

/// Whether each value of `s` is one of `t`.
#[tactic(auto, using(crate::proofs::WalkLaws::each_is_met))]
pub(crate) fn all_in(s: &[Value], t: &[Value]) -> bool
    requires first { IsStrictlySortedBy value_cmp s.now }
    requires second { IsStrictlySortedBy value_cmp t.now }
    ensures { IsTrue result ↔ IsSubset s.now t.now }
{
    meets_all(s, t)
}

fn meets_all(s: &[Value], t: &[Value]) -> bool
    ensures { result ≡ meets_all value_cmp s.now t.now }
{
    let mut rest = t;
    for value in s {
        rest = from(rest, value);
        if !starts_with(rest, value) {
            return false;
        }
    }
    true
}

/// Whether some value of `s` is one of `t`.
#[tactic(auto, using(crate::proofs::WalkLaws::one_is_met))]
pub(crate) fn some_in(s: &[Value], t: &[Value]) -> bool
    requires first { IsStrictlySortedBy value_cmp s.now }
    requires second { IsStrictlySortedBy value_cmp t.now }
    ensures { IsTrue result ↔ Meets s.now t.now }
{
    meets_one(s, t)
}

fn meets_one(s: &[Value], t: &[Value]) -> bool
    ensures { result ≡ meets_one value_cmp s.now t.now }
{
    let mut rest = t;
    for value in s {
        rest = from(rest, value);
        if starts_with(rest, value) {
            return true;
        }
    }
    false
}

/// What is left once the values below `x` are passed.
fn from<'a>(values: &'a [Value], x: &Value) -> &'a [Value]
    ensures { result.now ≡ from value_cmp x.now values.now }
{
    let mut rest = values;
    while let Some((first, later)) = rest.split_first() {
        if !cmp_value(first, x).is_lt() {
            return rest;
        }
        rest = later;
    }
    rest
}

fn starts_with(values: &[Value], x: &Value) -> bool
    ensures { result ≡ starts_with value_cmp x.now values.now }
{
    match values.first() {
        Some(first) => cmp_value(first, x).is_eq(),
        None => false,
    }
}
