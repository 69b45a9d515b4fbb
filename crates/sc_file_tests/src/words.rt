//! Runs by the words of a command line, and the status of their process.
use sc_outside::arguments;
use sc_test_runs::runs::exits;
use sc_test_runs::samples::HOLDS;
use sc_test_runs::schemas::TRUTH;
use std::alloc::{AllocError, Global};
use std::env::FillError;
use std::rt::Env;
use std::test::Fail;

/// A command line of these words.
#[derive(Drop)]
struct Line<'t> {
    words: &'t [&'t [u8]],
}

impl Env for Line<'_> {
    fn arg(&self, i: usize, buf: &mut [u8]) -> Result<usize, FillError> {
        let Some(word) = self.words.get(i) else {
            return Err(FillError::NotPresent);
        };
        if word.len() > buf.len() {
            return Err(FillError::TooLong);
        }
        buf[..word.len()].copy_from_slice(word);
        Ok(word.len())
    }

    fn var(&self, _name: &str, _buf: &mut [u8]) -> Result<usize, FillError> {
        Err(FillError::NotPresent)
    }

    fn var_at(&self, _i: usize, _buf: &mut [u8]) -> Result<usize, FillError> {
        Err(FillError::NotPresent)
    }
}

/// A command line behind the name of the program.
const ASKS: &[&[u8]] = &[
    b"analyse",
    b"analyse",
    b"--schema",
    b"s",
    b"--policies",
    b"p",
    b"--query",
    b"always-denies",
    b"--budget",
    b"9",
];

/// Whether a process with this command line ends with this status and writes these lines.
fn ends_for(alloc: Global, words: &[&[u8]], told: (u8, &str)) -> Result<bool, AllocError> {
    let held = [("s", TRUTH.as_bytes()), ("p", b"".as_slice())];
    exits(alloc, &arguments(&(Line { words }, alloc)), &held, told)
}

#[test]
fn all_words_but_the_first_are_taken(rt: HostRuntime) -> Result<(), Fail> {
    let alloc = rt.alloc();
    assert!(rt; ends_for(alloc, ASKS, (0, HOLDS))?);
    assert!(rt; ends_for(alloc, &ASKS[1..], (10, "error 10 usage"))?);
    assert!(rt; ends_for(alloc, &[], (10, "error 10 usage"))?);
    Ok(())
}

#[test]
fn a_word_that_is_no_text_is_no_command(rt: HostRuntime) -> Result<(), Fail> {
    let words: &[&[u8]] = &[b"cedar_symcc", b"analyse", b"\xff"];
    assert!(rt; ends_for(rt.alloc(), words, (10, "error 10 usage"))?);
    Ok(())
}

#[test]
fn words_that_no_memory_holds(rt: HostRuntime) -> Result<(), Fail> {
    assert!(rt; exits(rt.alloc(), &Err(AllocError), &[], (30, ""))?);
    Ok(())
}
