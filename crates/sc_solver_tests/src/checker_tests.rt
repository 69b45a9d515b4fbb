//! Verdicts on logs for the goal `false`, where clause 1 is the atom `true` and clause 2 its
//! negation; and what is read and written of logs.

use crate::problems::{Question, is_so};
use crate::schemas::USER_DOC;
use sc_checker::{
    Learned, Log, Reason, Step, Verdict, are_writable, check, is_writable, read_log, write_log,
};
use sc_footprint::Problem;
use sc_lists::{Fault, Seq};
use std::alloc::{AllocError, Global};
use std::test::Fail;
use th_defs::Defs;

/// Whether a log's text has this verdict.
#[derive(Drop)]
struct HasVerdict<'r> {
    text: &'r str,
    verdict: Verdict,
}

impl Question for HasVerdict<'_> {
    fn ask(&self, alloc: Global, problem: &Problem<'_>) -> Result<bool, AllocError> {
        match read_log(alloc, self.text.as_bytes()) {
            Ok(log) => has_verdict(alloc, problem, &log, self.verdict),
            Err(_) => Ok(false),
        }
    }
}

fn has_verdict(
    alloc: Global,
    problem: &Problem<'_>,
    log: &Log,
    verdict: Verdict,
) -> Result<bool, AllocError> {
    let found = check(alloc, &Defs, problem, log)?;
    Ok(found == verdict)
}

/// Logs that refute the goal.
const REFUTED: &[&str] = &[
    "log 1\nl 0 1 2 0\n",
    "log 1\nl 1 1 0 1 0\nl 0 3 2 0\n",
    "log 1\nl 0 1 1 2 0\n",
];

#[test]
fn logs_that_refute(rt: HostRuntime) -> Result<(), Fail> {
    let verdict = Verdict::Refuted;
    for &text in REFUTED {
        let so = is_so(rt.alloc(), USER_DOC, "f", &HasVerdict { text, verdict });
        assert!(rt; so, "{text}");
    }
    Ok(())
}

/// Logs that are rejected, each with the step at fault and the reason.
const REJECTED: &[(&str, u64, Reason)] = &[
    ("log 1\nl -1 0 2 0\n", 1, Reason::NotEmpty),
    ("log 1\nl 0 1 0\n", 1, Reason::NotRefuted),
    ("log 1\nl 0 1 2 2 0\n", 1, Reason::NotRefuted),
    ("log 1\nl 0 3 0\n", 1, Reason::NotRefuted),
    ("log 1\nl 2 0 1 2 0\n", 1, Reason::NotRefuted),
    ("log 1\nl 1 -1 0 1 2 0\n", 1, Reason::NotRefuted),
    ("log 1\nl 0 1 2 0\nt EQ1 1 2 3\n", 2, Reason::NoInstance),
    ("log 1\nt ST2 1 +-\n", 1, Reason::NoInstance),
    ("log 1\n", 0, Reason::NotEmpty),
    ("", 0, Reason::NotEmpty),
];

#[test]
fn logs_that_are_rejected(rt: HostRuntime) -> Result<(), Fail> {
    for &(text, step, reason) in REJECTED {
        let verdict = Verdict::Rejected { step, reason };
        let so = is_so(rt.alloc(), USER_DOC, "f", &HasVerdict { text, verdict });
        assert!(rt; so, "{text}");
    }
    Ok(())
}

/// The step at fault of a text that isn't one of a log.
fn fault_of(alloc: Global, text: &str) -> Option<u64> {
    match read_log(alloc, text.as_bytes()) {
        Err(Fault::Told(fault)) => Some(fault.step),
        _ => None,
    }
}

/// Texts that are no logs, each with the step at fault.
const MALFORMED: &[(&str, u64)] = &[
    ("log 1", 0),
    ("log 2\n", 0),
    ("\n", 0),
    ("log 1\nl 0 1 2 0", 1),
    ("log 1\nl 0 1 2 0\nl 0 01 0\n", 2),
    ("log 1\nl 0  1 2 0\n", 1),
    ("log 1\nl 0 1 2 0 \n", 1),
    ("log 1\nl 0 0\n", 1),
    ("log 1\nl 0 1 2\n", 1),
    ("log 1\nl -0 0 1 0\n", 1),
    ("log 1\nl 0 +1 0\n", 1),
    ("log 1\nl 0 1000000000000000000 0\n", 1),
    ("log 1\nt\n", 1),
    ("log 1\nt EQ-1\n", 1),
    ("log 1\nt EQ1 -1\n", 1),
    ("log 1\nt EQ1 \n", 1),
    ("log 1\nx 1\n", 1),
    ("log 1\n\n", 1),
    ("log 1\nt EQ1\r\n", 1),
];

#[test]
fn lines_that_are_malformed(rt: HostRuntime) -> Result<(), Fail> {
    for &(text, step) in MALFORMED {
        assert!(rt; fault_of(rt.alloc(), text) == Some(step), "{text}");
    }
    Ok(())
}

/// Whether a log has so many steps and is written as this text.
fn is_written(alloc: Global, log: &Log, count: usize, text: &str) -> Result<bool, AllocError> {
    let written = write_log(alloc, log)?;
    Ok(log.steps().len() == count && written.as_str() == text)
}

/// Whether a text is read as so many steps, and these are written as the text.
fn is_written_again(alloc: Global, count: usize, text: &str) -> Result<bool, AllocError> {
    match read_log(alloc, text.as_bytes()) {
        Ok(log) => is_written(alloc, &log, count, text),
        Err(_) => Ok(false),
    }
}

#[test]
fn what_is_read_is_written_the_same(rt: HostRuntime) -> Result<(), Fail> {
    let text =
        "log 1\nl 3 -12 3 0 1 999999999999999999 0\nl 0 1 0\nt EQ2 0 15\nt ST2 +--+ 7\nt SE1\n";
    assert!(rt; is_written_again(rt.alloc(), 5, text)?);
    Ok(())
}

/// A step that learns the empty clause.
fn learned(alloc: Global, hints: &[u64]) -> Result<Step, AllocError> {
    let hints = Seq::from_vec(Vec::from_slice(alloc, hints)?);
    Ok(Step::Learned(Learned {
        clause: Seq::new(alloc),
        hints,
    }))
}

fn has_text(alloc: Global, hints: &[u64]) -> Result<bool, AllocError> {
    let step = learned(alloc, hints)?;
    Ok(is_writable(&step))
}

/// This one step.
fn steps(alloc: Global, hints: &[u64]) -> Result<Seq<Step>, AllocError> {
    let mut steps = Seq::new(alloc);
    steps.push(learned(alloc, hints)?)?;
    Ok(steps)
}

/// Whether a log of this one step has a text, which is this one.
fn has_this_text(alloc: Global, hints: &[u64], text: &str) -> Result<bool, AllocError> {
    let steps = steps(alloc, hints)?;
    if !are_writable(&steps) {
        return Ok(false);
    }
    is_written(alloc, &Log::new(steps), 1, text)
}

#[test]
fn steps_that_have_a_text(rt: HostRuntime) -> Result<(), Fail> {
    assert!(rt; !has_text(rt.alloc(), &[])?);
    assert!(rt; has_text(rt.alloc(), &[7])?);
    assert!(rt; has_this_text(rt.alloc(), &[7], "log 1\nl 0 7 0\n")?);
    Ok(())
}
