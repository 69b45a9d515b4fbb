//! Files that can't be read or are too long, and lines that can't be written.
use crate::logs::{CHECKS, REFUTES};
use crate::replays::WORLD;
use sc_test_runs::runs::{Failing, ends, ends_so, is_cut};
use sc_test_runs::samples::{DENIES, HOLDS, PERMIT, REPLAYS};
use sc_test_runs::schemas::{TRUTH, TWO_TYPES};
use std::alloc::{AllocError, Global};
use std::test::Fail;

const IMPLIES: &str = "analyse --schema s --policies p --against a --query implies --budget 10000";

/// Words, and the call for a file that fails, counted from 0, with the line for it.
const UNREAD: &[(&str, u64, &str)] = &[
    (DENIES, 0, "error 20 schema"),
    (DENIES, 1, "error 20 policies"),
    (IMPLIES, 0, "error 20 schema"),
    (IMPLIES, 1, "error 20 policies"),
    (IMPLIES, 2, "error 20 against"),
    (REPLAYS, 2, "error 20 world"),
];

/// Whether a run ends so where one call for a file fails.
fn unread_ends(alloc: Global, words: &str, call: u64, line: &str) -> Result<bool, AllocError> {
    let held = [("s", TRUTH.as_bytes()), ("p", PERMIT.as_bytes())];
    ends_so(alloc, words, &held, Failing::File(call), (20, line), 0)
}

#[test]
fn files_that_cannot_be_read(rt: HostRuntime) -> Result<(), Fail> {
    for &(words, call, line) in UNREAD {
        assert!(rt; unread_ends(rt.alloc(), words, call, line)?, "{line}");
    }
    Ok(())
}

/// Words, and the name of a file that is too long, with the line for it.
const LONG: &[(&str, &str, &str)] = &[
    (DENIES, "s", "error 22 schema"),
    (DENIES, "p", "error 22 policies"),
    (IMPLIES, "a", "error 22 against"),
    (REPLAYS, "w", "error 22 world"),
];

/// Whether a run ends so where the file of this name has these bytes.
fn long_ends<'t>(
    alloc: Global,
    words: &str,
    name: &'t str,
    long: &'t [u8],
    line: &str,
) -> Result<bool, AllocError> {
    let held = [
        ("s", TRUTH.as_bytes()),
        ("p", PERMIT.as_bytes()),
        (name, long),
    ];
    ends(alloc, words, &held, (22, line))
}

/// A file that begins so, and is filled to this length with one byte.
fn filled(alloc: Global, front: &str, length: usize, byte: u8) -> Result<Vec<u8>, AllocError> {
    let mut bytes = Vec::from_slice(alloc, front.as_bytes())?;
    bytes.resize(length, byte)?;
    Ok(bytes)
}

#[test]
fn files_that_are_too_long(rt: HostRuntime) -> Result<(), Fail> {
    let long = filled(rt.alloc(), "", 16_777_217, b' ')?;
    for &(words, name, line) in LONG {
        assert!(rt; long_ends(rt.alloc(), words, name, &long, line)?, "{line}");
    }
    Ok(())
}

/// Whether what is asked holds of a schema and policies.
fn holds<'t>(alloc: Global, schema: &'t [u8], policies: &'t [u8]) -> Result<bool, AllocError> {
    ends(alloc, DENIES, &[("s", schema), ("p", policies)], (0, HOLDS))
}

/// Whether it does so of a schema that is filled with spaces to the greatest length.
fn long_schema_holds(alloc: Global) -> Result<bool, AllocError> {
    let schema = filled(alloc, TRUTH, 16_777_216, b' ')?;
    holds(alloc, &schema, b"")
}

#[test]
fn schema_of_the_greatest_length(rt: HostRuntime) -> Result<(), Fail> {
    assert!(rt; long_schema_holds(rt.alloc())?);
    Ok(())
}

/// Fronts of policy files, each with the byte that fills the file to the greatest length: a comment, and spaces.
const FILLED: &[(&str, u8)] = &[("//", b'x'), ("", b' ')];

/// Whether it does so of policies that begin so and are filled with a byte to the greatest length.
fn long_policies_hold(alloc: Global, front: &str, byte: u8) -> Result<bool, AllocError> {
    let policies = filled(alloc, front, 16_777_216, byte)?;
    holds(alloc, TRUTH.as_bytes(), &policies)
}

#[test]
fn policies_of_the_greatest_length(rt: HostRuntime) -> Result<(), Fail> {
    for &(front, byte) in FILLED {
        assert!(rt; long_policies_hold(rt.alloc(), front, byte)?, "{front}");
    }
    Ok(())
}

/// Words and a schema, and the call for a piece that keeps a front of it and fails, with what is written.
const CUT: &[(&str, &str, u64, usize, &str)] = &[
    (DENIES, TRUTH, 0, 5, "env U"),
    (DENIES, "{", 0, 5, "error"),
    (
        DENIES,
        TWO_TYPES,
        1,
        5,
        "env Doc Action::\"view\" Doc: holds\nenv U",
    ),
    (REPLAYS, TRUTH, 1, 4, "world well-formed\ndeci"),
    (DENIES, TWO_TYPES, 0, 0, ""),
    (DENIES, TWO_TYPES, 0, 5, "env D"),
    (
        DENIES,
        TWO_TYPES,
        0,
        100,
        "env Doc Action::\"view\" Doc: holds\n",
    ),
    (
        DENIES,
        TWO_TYPES,
        1,
        0,
        "env Doc Action::\"view\" Doc: holds\n",
    ),
    (
        DENIES,
        TWO_TYPES,
        1,
        100,
        "env Doc Action::\"view\" Doc: holds\nenv User Action::\"view\" Doc: holds\n",
    ),
];

/// Whether this text is written where a call keeps a front of its piece and fails.
fn cut_ends<'t>(
    alloc: Global,
    words: &str,
    schema: &'t str,
    call: (u64, usize),
    text: &str,
) -> Result<bool, AllocError> {
    let held = [
        ("s", schema.as_bytes()),
        ("p", b"".as_slice()),
        ("w", WORLD.as_bytes()),
    ];
    is_cut(alloc, words, &held, call, text)
}

#[test]
fn output_that_cannot_be_written(rt: HostRuntime) -> Result<(), Fail> {
    for &(words, schema, call, kept, text) in CUT {
        assert!(rt;
            cut_ends(rt.alloc(), words, schema, (call, kept), text)?,
            "{text}"
        );
    }
    Ok(())
}

/// Logs, and of what is said of each the front that is written, of so many bytes.
const SAID: &[(&str, usize, &str)] = &[
    (REFUTES, 4, "acce"),
    (REFUTES, 0, ""),
    ("", 13, "error 14 step"),
];

/// Whether this front of what is said of a log is written where the one call keeps so many bytes and
/// fails.
fn said_is_cut<'t>(
    alloc: Global,
    log: &'t str,
    kept: usize,
    text: &str,
) -> Result<bool, AllocError> {
    let held = [
        ("s", TRUTH.as_bytes()),
        ("p", b"".as_slice()),
        ("l", log.as_bytes()),
    ];
    is_cut(alloc, CHECKS, &held, (0, kept), text)
}

#[test]
fn what_is_said_of_a_log_is_cut(rt: HostRuntime) -> Result<(), Fail> {
    for &(log, kept, text) in SAID {
        assert!(rt; said_is_cut(rt.alloc(), log, kept, text)?, "{text}");
    }
    Ok(())
}
