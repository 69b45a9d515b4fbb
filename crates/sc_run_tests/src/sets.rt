//! Questions about sets and their members.
use crate::questions::{all_fail, all_hold};
use sc_test_runs::schemas::FULL;
use std::test::Fail;

/// Questions that hold: the question, and its conditions.
const HOLD: &str = r#"
equivalent --against a; context.s.containsAll([true,false]) && context.t.containsAll([true,false]); context.s.containsAll([true,false]) && context.t.containsAll([true,false]) && context.s == context.t
equivalent --against a; [context.n, context.n].contains(1); context.n == 1
equivalent --against a; [context.n] == [1]; context.n == 1
equivalent --against a; context.q.containsAny([1, 2]); context.q.contains(1) || context.q.contains(2)
implies --against a; context.q.isEmpty(); !context.q.containsAny([1])
always-denies; context.q.containsAll([1, 2]) && !context.q.contains(1)
always-denies; context.q.contains(context.n) && context.n == 3 && !context.q.contains(3)
always-allows; context.s.isEmpty() || context.s.contains(true) || context.s.contains(false)
"#;

#[test]
fn what_holds_of_sets(rt: HostRuntime) -> Result<(), Fail> {
    all_hold(&rt, rt.alloc(), FULL, HOLD)
}

/// Questions that don't hold: the question, its conditions, and words of the counterexample.
const FAIL: &str = r#"
implies --against a; !context.q.containsAny([1]); context.q.isEmpty()
always-denies; context.q.contains(7) && context.q.contains(context.n) && context.n < 7;; ,7]
implies --against a; context.s.containsAll(context.t); context.s == context.t
always-denies; context.s.containsAll([true, false]);; "s":[false,true],
"#;

#[test]
fn what_fails_of_sets(rt: HostRuntime) -> Result<(), Fail> {
    all_fail(&rt, rt.alloc(), FULL, FAIL)
}
