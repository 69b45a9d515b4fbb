//! What is read of a log's text and written of it, where a word of signs has each of them.

use sc_lists::Fault;
use sc_logs::{read_log, write_log, write_step};
use std::alloc::{AllocError, Global};
use std::test::Fail;

/// What is written of what a text is read as.
fn written_again(alloc: Global, text: &str) -> Result<Option<String>, AllocError> {
    match read_log(alloc, text.as_bytes()) {
        Ok(log) => Ok(Some(write_log(alloc, &log)?)),
        Err(_) => Ok(None),
    }
}

/// Whether a text is one of a log, which is written as it was read.
fn is_kept(alloc: Global, text: &str) -> Result<bool, AllocError> {
    match written_again(alloc, text)? {
        Some(written) => Ok(written.as_str() == text),
        None => Ok(false),
    }
}

/// The line of the first step of a log.
fn first_line(alloc: Global, text: &str) -> Result<String, AllocError> {
    let mut line = String::new(alloc);
    if let Ok(log) = read_log(alloc, text.as_bytes()) {
        if let Some(step) = log.steps().first() {
            write_step(&mut line, step)?;
        }
    }
    Ok(line)
}

/// The line at fault of a text that isn't one of a log.
fn fault_of(alloc: Global, text: &str) -> Option<u64> {
    match read_log(alloc, text.as_bytes()) {
        Err(Fault::Told(fault)) => Some(fault.step),
        _ => None,
    }
}

/// Texts of logs.
const LOGS: &[&str] = &[
    "log 1\n",
    "log 1\nt ST3 +.- 1 2\n",
    "log 1\nt ST3 ...\nt ST3 . 0 -\n",
    "log 1\nl 3 -12 3 0 1 999999999999999999 0\nl 0 10 0\nt EQ2 0 15\nt SE1\n",
];

#[test]
fn what_is_read_is_written_the_same(rt: HostRuntime) -> Result<(), Fail> {
    for &text in LOGS {
        assert!(rt; is_kept(rt.alloc(), text)?, "{text}");
    }
    Ok(())
}

/// Whether this is the line of the first step of a log.
fn has_first_line(alloc: Global, text: &str, line: &str) -> Result<bool, AllocError> {
    Ok(first_line(alloc, text)?.as_str() == line)
}

#[test]
fn a_step_is_written_as_its_line(rt: HostRuntime) -> Result<(), Fail> {
    let text = "log 1\nt ST3 +.- 1 2\nl 0 1 0\n";
    assert!(rt; has_first_line(rt.alloc(), text, "t ST3 +.- 1 2")?);
    Ok(())
}

/// Texts that aren't those of logs, each with the line at fault.
const MALFORMED: &[(&str, u64)] = &[
    ("log 1\nt ST3 +,- 1\n", 1),
    ("log 1\nt ST3 +.1\n", 1),
    ("log 1\nt ST3 1.0\n", 1),
    ("log 1\nt S.3 +\n", 1),
    ("log 1\nt ST3 00\n", 1),
    ("log 1\nt ST3 1000000000000000000\n", 1),
    ("log 1\nl 0 1 0\nl . 0 1 0\n", 2),
    ("log 1\nl 0 1 0 0\n", 1),
    ("log 1\nl 0 1 0 \n", 1),
];

#[test]
fn other_words_are_malformed(rt: HostRuntime) {
    for &(text, step) in MALFORMED {
        assert!(rt; fault_of(rt.alloc(), text) == Some(step), "{text}");
    }
}
