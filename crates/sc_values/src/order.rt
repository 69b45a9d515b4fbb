//! The order of values, and its laws.
ghost use Rattle.std.specs.Prelude.{◌≡◌, ◌↔◌};
ghost use Rattle.std.specs.Cmp.{IsTotalOrder};
ghost use Rattle.std.specs.declared.cmp.Ordering.TheVariants.{Equal};
ghost use Rattle.sc_values.specs.declared.value.Value.{Value as AnyValue, out-Value};
ghost use Rattle.sc_values.specs.Order.{value_cmp, by_kind};

use crate::value::Value;
use std::cmp::Ordering;

/// The order of two values: by kind, then by what they hold.
#[tactic(auto, unfolding(crate::specs::Order::value_cmp))]
pub fn cmp_value(a: &Value, b: &Value) -> Ordering
    ensures { result ≡ value_cmp a.now b.now }
{
    a.cmp(b)
}

/// The order of values is the one by kind and then by what is held; it is total, and two values
/// are level in it exactly where they are one.
#[tactic(auto, using(crate::proofs::OrderLaws::value_cmp_total, crate::proofs::OrderLaws::value_cmp_by_kind, crate::proofs::OrderLaws::value_cmp_level))]
pub fn order_laws()
    ensures by_kind { (a b : AnyValue) → value_cmp a b ≡ by_kind (out-Value a) (out-Value b) }
    ensures total { IsTotalOrder value_cmp }
    ensures level { (a b : AnyValue) → value_cmp a b ≡ Equal ↔ a ≡ b }
{}
