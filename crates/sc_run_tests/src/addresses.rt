//! Questions about addresses and their ranges.
use crate::questions::{all_fail, all_hold};
use sc_test_runs::schemas::FULL;
use std::test::Fail;

/// Questions that hold: the question, and its conditions.
const HOLD: &str = r#"
implies --against a; context.addr.isInRange(ip("10.0.0.0/8")); context.addr.isInRange(ip("10.0.0.0/7"))
implies --against a; context.addr.isLoopback() && context.addr.isIpv4(); context.addr.isInRange(ip("127.0.0.0/8"))
equivalent --against a; context.addr.isInRange(ip("0.0.0.0/0")); context.addr.isIpv4()
always-allows; context.addr.isIpv4() || context.addr.isIpv6()
always-denies; context.addr.isLoopback() && context.addr.isMulticast()
always-denies; context.addr == ip("192.168.0.1/24") && context.addr == ip("192.168.0.8/24")
always-denies; context.addr.isInRange(ip("10.0.0.0/8")) && context.addr.isInRange(ip("11.0.0.0/8"))
always-denies; context.addr.isInRange(ip("::/0")) && context.addr.isIpv4()
"#;

#[test]
fn what_holds_of_addresses(rt: HostRuntime) -> Result<(), Fail> {
    all_hold(&rt, rt.alloc(), FULL, HOLD)
}

/// Questions that don't hold: the question, its conditions, and words of the counterexample.
const FAIL: &str = r#"
implies --against a; context.addr.isInRange(ip("10.0.0.0/7")); context.addr.isInRange(ip("10.0.0.0/8")); "addr":{"__extn":{"arg":"1 "fn":"ip"}}
implies --against a; context.addr.isIpv4(); context.addr.isInRange(ip("0.0.0.0/1"))
always-denies; context.addr == ip("192.168.0.1/24");; "arg":"192.168.0.1/24"
always-denies; context.addr == ip("::1");; "arg":"0:0:0:0:0:0:0:1/128"
always-denies; context.addr.isMulticast() && context.addr.isIpv6();; "arg":"ff
"#;

#[test]
fn what_fails_of_addresses(rt: HostRuntime) -> Result<(), Fail> {
    all_fail(&rt, rt.alloc(), FULL, FAIL)
}
