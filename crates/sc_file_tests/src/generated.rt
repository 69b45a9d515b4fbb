//! Generated policies: what is written of three of them, the same each time, and how it is cut.
use sc_test_runs::runs::{ends, is_cut};
use std::alloc::{AllocError, Global};
use std::test::Fail;

const OF_THREE: &str = "generated 3 policies, 287 bytes\nenv User Action::\"view\" Doc: holds";

/// Words, with the status and the lines for them.
const GENERATED: &[(&str, u8, &str)] = &[
    ("generate --size 3", 0, OF_THREE),
    ("generate --size=0003", 0, OF_THREE),
    ("generate --size 0", 10, "error 10 usage"),
    ("generate --size 1001", 10, "error 10 usage"),
];

/// Whether a run without files ends so.
fn is_told(alloc: Global, words: &str, told: (u8, &str)) -> Result<bool, AllocError> {
    ends(alloc, words, &[], told)
}

#[test]
fn generated_policies_are_equivalent(rt: HostRuntime) -> Result<(), Fail> {
    for &(words, code, lines) in GENERATED {
        assert!(rt; is_told(rt.alloc(), words, (code, lines))?, "{words}");
    }
    Ok(())
}

/// The call for a piece that keeps so many bytes and fails, with what is written.
const CUT: &[(u64, usize, &str)] = &[
    (0, 0, ""),
    (0, 5, "gener"),
    (0, 100, "generated 3 policies, 287 bytes\n"),
    (1, 0, "generated 3 policies, 287 bytes\n"),
    (1, 5, "generated 3 policies, 287 bytes\nenv U"),
];

/// Whether this text is written of three policies where a call keeps so many bytes and fails.
fn three_are_cut(alloc: Global, call: (u64, usize), text: &str) -> Result<bool, AllocError> {
    is_cut(alloc, "generate --size 3", &[], call, text)
}

#[test]
fn generated_policies_that_cannot_be_written(rt: HostRuntime) -> Result<(), Fail> {
    for &(call, kept, text) in CUT {
        assert!(rt; three_are_cut(rt.alloc(), (call, kept), text)?, "{text}");
    }
    Ok(())
}
