//! Tests of addresses: texts that are read and written, ranges.
use sc_ip::{in_range, is_loopback, is_multicast, is_v4, read_ip, write_ip};
use std::alloc::{AllocError, Global};
use std::test::Fail;

/// Whether a text stands for an address, and this is what is written of it.
fn is_rewritten(alloc: Global, text: &str, written: &str) -> Result<bool, AllocError> {
    match read_ip(text) {
        Ok(a) => Ok(write_ip(alloc, &a)?.as_str() == written),
        Err(_) => Ok(false),
    }
}

fn reads(text: &str) -> bool {
    read_ip(text).is_ok()
}

fn is_within(inner: &str, outer: &str) -> bool {
    match (read_ip(inner), read_ip(outer)) {
        (Ok(a), Ok(b)) => in_range(&a, &b),
        _ => false,
    }
}

/// Texts, each with what is written of its address.
const REWRITTEN: &[(&str, &str)] = &[
    ("192.168.0.1/24", "192.168.0.1/24"),
    ("0.0.255.10", "0.0.255.10/32"),
    ("::1", "0:0:0:0:0:0:0:1/128"),
    ("::/0", "0:0:0:0:0:0:0:0/0"),
    ("1::", "1:0:0:0:0:0:0:0/128"),
    ("1:2:3:4:5:6:7::", "1:2:3:4:5:6:7:0/128"),
    ("FF02::00aB:0/8", "ff02:0:0:0:0:0:ab:0/8"),
];

#[test]
fn rewrites_both_versions(rt: HostRuntime) -> Result<(), Fail> {
    for &(text, written) in REWRITTEN {
        assert!(rt; is_rewritten(rt.alloc(), text, written)?, "{text}");
    }
    Ok(())
}

/// Texts that are no addresses of version 4.
const NO_V4: &[&str] = &[
    "1.2.3.04",
    "1.2.3.256",
    "1.2.3",
    "1.2.3.4.5",
    "1.2.+3.4",
    "1..3.4",
    "1.2.3.4/33",
    "1.2.3.4/00",
    "1.2.3.4/",
    "0/0",
    "/0",
    "",
];

#[test]
fn reads_no_other_v4(rt: HostRuntime) {
    for &text in NO_V4 {
        assert!(rt; !reads(text), "{text}");
    }
}

/// Texts that are no addresses of version 6.
const NO_V6: &[&str] = &[
    "1:2:3:4:5:6:7:8::",
    "1:2:3:4:5:6:7",
    ":1::",
    "1::2::3",
    ":::",
    "::12345",
    "::+1",
    "::g",
    "::1.2.3.4",
    "::1/129",
];

#[test]
fn reads_no_other_v6(rt: HostRuntime) {
    assert!(rt; reads("::"));
    assert!(rt; reads("1:2:3:4:5:6:7:8"));
    for &text in NO_V6 {
        assert!(rt; !reads(text), "{text}");
    }
}

/// Whether two texts stand for different addresses.
fn differ(one: &str, other: &str) -> bool {
    match (read_ip(one), read_ip(other)) {
        (Ok(a), Ok(b)) => a != b,
        _ => false,
    }
}

#[test]
fn keeps_the_host_part(rt: HostRuntime) {
    assert!(rt; differ("192.168.0.1/24", "192.168.0.8/24"));
    assert!(rt; is_within("192.168.0.1/24", "192.168.0.8/24"));
}

fn has_version_4(text: &str) -> Option<bool> {
    Some(is_v4(&read_ip(text).ok()?))
}

#[test]
fn compares_ranges_of_one_version(rt: HostRuntime) {
    assert!(rt; is_within("10.1.2.3", "10.0.0.0/8"));
    assert!(rt; is_within("10.0.0.0/8", "10.0.0.0/7"));
    assert!(rt; !is_within("10.0.0.0/7", "10.0.0.0/8"));
    assert!(rt; !is_within("10.0.0.0/8", "::/0"));
    assert!(rt; is_within("::1", "::/0"));
    assert!(rt; has_version_4("1.2.3.4") == Some(true));
    assert!(rt; has_version_4("::") == Some(false));
}

/// Whether a text stands for an address of the own machine.
fn loops_back(text: &str) -> Option<bool> {
    Some(is_loopback(&read_ip(text).ok()?))
}

/// Whether a text stands for an address of many machines.
fn is_of_many(text: &str) -> Option<bool> {
    Some(is_multicast(&read_ip(text).ok()?))
}

#[test]
fn tells_loopback_and_multicast(rt: HostRuntime) {
    assert!(rt; loops_back("127.0.0.1") == Some(true));
    assert!(rt; loops_back("::1") == Some(true));
    assert!(rt; loops_back("::1/127") == Some(false));
    assert!(rt; loops_back("126.255.255.255") == Some(false));
    assert!(rt; is_of_many("ff02::1") == Some(true));
    assert!(rt; is_of_many("224.0.0.0/4") == Some(true));
    assert!(rt; is_of_many("223.0.0.1") == Some(false));
}
