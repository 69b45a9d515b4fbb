//! Sets of values: how one is made, what is in it, and how two of them compare.
ghost use Rattle.std.specs.Prelude.{◌≡◌, ◌↔◌, List, Contains, IsTrue, IfOk};
ghost use Rattle.sc_values.specs.declared.value.Value.{Value as AnyValue};
ghost use Rattle.std.specs.List.Sorted.{IsStrictlySortedBy};
ghost use Rattle.sc_values.specs.Order.{value_cmp};
ghost use Rattle.sc_values.specs.Sets.{IsSetOf, IsSubset, Meets};

use crate::clone::try_clone;
use crate::order::cmp_value;
use crate::proper::ascends;
use crate::value::{Set, Value};
use crate::walks::{all_in, some_in};
use sc_lists::Seq;
use std::alloc::{AllocError, Global};

/// The set of just these members, in any order and with repeats.
pub fn set_of(alloc: Global, members: &[Value]) -> Result<Set, AllocError>
    ensures { IfOk result (IsSetOf members.now) }
{
    let mut copies = copies_of(alloc, members)?;
    copies.sort()?;
    copies.dedup();
    Ok(Seq::from_vec(copies))
}

fn copies_of(alloc: Global, members: &[Value]) -> Result<Vec<Value>, AllocError>
    ensures { IfOk result (λ copies. copies.items ≡ members.now) }
{
    let mut copies = Vec::new(alloc);
    for member in members {
        copies.push(try_clone(alloc, member)?)?;
    }
    Ok(copies)
}

/// Members have one set.
pub fn set_laws()
    ensures { (members s t : List AnyValue) → IsSetOf members s → IsSetOf members t → s ≡ t }
{}

/// Whether two values are one.
#[tactic(auto, using(crate::proofs::SetLaws::one_value))]
pub fn is_same(a: &Value, b: &Value) -> bool
    ensures { IsTrue result ↔ a.now ≡ b.now }
{
    cmp_value(a, b).is_eq()
}

/// Whether a value is a member of a set.
pub fn contains(s: &Set, x: &Value) -> bool
    ensures { IsTrue result ↔ Contains s.now x.now }
{
    s.as_slice().iter().any(|member| is_same(member, x))
}

/// Whether each member of `s` is one of `t`. Lists that ascend, as sets do, are walked together once.
pub fn subset(s: &Set, t: &Set) -> bool
    ensures { IsTrue result ↔ IsSubset s.now t.now }
{
    if ascend(s, t) {
        all_in(s.as_slice(), t.as_slice())
    } else {
        s.as_slice().iter().all(|member| contains(t, member))
    }
}

/// Whether some member of `s` is one of `t`. Lists that ascend, as sets do, are walked together once.
pub fn intersects(s: &Set, t: &Set) -> bool
    ensures { IsTrue result ↔ Meets s.now t.now }
{
    if ascend(s, t) {
        some_in(s.as_slice(), t.as_slice())
    } else {
        s.as_slice().iter().any(|member| contains(t, member))
    }
}

fn ascend(s: &Set, t: &Set) -> bool
    ensures { IsTrue result ↔ (IsStrictlySortedBy value_cmp s.now × IsStrictlySortedBy value_cmp t.now) }
{
    let first = ascends(s);
    let second = ascends(t);
    first && second
}
