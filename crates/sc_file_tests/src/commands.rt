//! The words of a command.
use sc_test_runs::runs::ends;
use sc_test_runs::samples::{HOLDS, REPLAYS};
use sc_test_runs::schemas::TRUTH;
use std::alloc::{AllocError, Global};
use std::test::Fail;

/// Whether a run over a schema and no policy ends so.
fn ends_with(alloc: Global, line: &str, told: (u8, &str)) -> Result<bool, AllocError> {
    let held = [("s", TRUTH.as_bytes()), ("p", b"".as_slice())];
    ends(alloc, line, &held, told)
}

/// Words that are a command, with the status and the line for them.
const COMMANDS: &[(&str, u8, &str)] = &[
    (
        "analyse --budget 007 --query=always-denies --policies p --schema=s",
        0,
        HOLDS,
    ),
    (
        "analyse --schema s --policies - --query always-denies --budget 1",
        20,
        "error 20 policies",
    ),
    (REPLAYS, 20, "error 20 world"),
];

#[test]
fn words_of_commands(rt: HostRuntime) -> Result<(), Fail> {
    for &(words, code, line) in COMMANDS {
        assert!(rt; ends_with(rt.alloc(), words, (code, line))?, "{words}");
    }
    Ok(())
}

/// Words that are no command.
const OTHERS: &[&str] = &[
    "analyse --schema s --policies p --query always-denies --budget 0",
    "analyse --schema s --policies p --query always-denies",
    "analyse --schema s --policies p --query implies --budget 1",
    "analyse --schema s --policies p --against p --query always-denies --budget 1",
    "check --schema s --policies p",
    "analyse --help",
    "",
];

#[test]
fn words_of_no_command(rt: HostRuntime) -> Result<(), Fail> {
    for &words in OTHERS {
        assert!(rt;
            ends_with(rt.alloc(), words, (10, "error 10 usage"))?,
            "{words}"
        );
    }
    Ok(())
}
