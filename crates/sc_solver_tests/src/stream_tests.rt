//! Verdicts on logs that come in pieces, for the goal `false`, where clause 1 is the atom `true` and
//! clause 2 its negation.

use crate::problems::{Question, is_so};
use crate::schemas::USER_DOC;
use sc_checker::{LogChecker, Reason, Verdict};
use sc_footprint::Problem;
use std::alloc::{AllocError, Global};
use std::test::Fail;
use th_defs::Defs;

/// Whether a log's text, byte by byte, has this verdict.
#[derive(Drop)]
struct HasByBytes<'r> {
    text: &'r str,
    verdict: Verdict,
}

fn feed_bytes(checker: &mut LogChecker<'_, '_, Defs>, bytes: &[u8]) -> Result<(), AllocError> {
    for byte in bytes {
        checker.feed(&[*byte])?;
    }
    Ok(())
}

impl Question for HasByBytes<'_> {
    fn ask(&self, alloc: Global, problem: &Problem<'_>) -> Result<bool, AllocError> {
        let mut checker = LogChecker::new(alloc, &Defs, problem)?;
        feed_bytes(&mut checker, self.text.as_bytes())?;
        Ok(checker.end()? == self.verdict)
    }
}

/// Whether a log's text, cut in two at a place, has this verdict.
#[derive(Drop)]
struct HasInTwo<'r> {
    text: &'r str,
    place: usize,
    verdict: Verdict,
}

fn feed_in_two(
    checker: &mut LogChecker<'_, '_, Defs>,
    bytes: &[u8],
    place: usize,
) -> Result<(), AllocError> {
    let place = place.min(bytes.len());
    checker.feed(&bytes[..place])?;
    checker.feed(&bytes[place..])
}

impl Question for HasInTwo<'_> {
    fn ask(&self, alloc: Global, problem: &Problem<'_>) -> Result<bool, AllocError> {
        let mut checker = LogChecker::new(alloc, &Defs, problem)?;
        feed_in_two(&mut checker, self.text.as_bytes(), self.place)?;
        Ok(checker.end()? == self.verdict)
    }
}

const REFUTES: &str = "log 1\nl 0 1 2 0\n";

#[test]
fn a_log_that_refutes_by_bytes(rt: HostRuntime) -> Result<(), Fail> {
    let question = HasByBytes {
        text: REFUTES,
        verdict: Verdict::Refuted,
    };
    assert!(rt; is_so(rt.alloc(), USER_DOC, "f", &question));
    Ok(())
}

/// Logs that are rejected, each with the step at fault and the reason.
const REJECTED: &[(&str, u64, Reason)] = &[
    ("log 1\nl 0 2 0\n", 1, Reason::NotRefuted),
    ("log 1\n", 0, Reason::NotEmpty),
    ("log 2\nl 0 1 2 0\n", 0, Reason::Malformed),
    ("log 1\nl 0 1 2 0", 1, Reason::Malformed),
    ("log 1\nl 0 0\n", 1, Reason::Malformed),
    ("log 1\nl 0 1 3 0\n", 1, Reason::NotRefuted),
    ("log 1\nl 1 0 1 0\n", 1, Reason::NotEmpty),
    ("log 1\nl 2 0 1 2 0\n", 1, Reason::NotRefuted),
    ("log 1\nt EQ99 1\n", 1, Reason::NoInstance),
    ("log 1\nl 0 1 2 0\nl 0 9 0\n", 2, Reason::NotRefuted),
    ("", 0, Reason::NotEmpty),
];

#[test]
fn logs_that_are_rejected_by_bytes(rt: HostRuntime) -> Result<(), Fail> {
    for &(text, step, reason) in REJECTED {
        let verdict = Verdict::Rejected { step, reason };
        let so = is_so(rt.alloc(), USER_DOC, "f", &HasByBytes { text, verdict });
        assert!(rt; so, "{text}");
    }
    Ok(())
}

#[test]
fn one_verdict_however_it_is_cut(rt: HostRuntime) -> Result<(), Fail> {
    for place in 0..17usize {
        let question = HasInTwo {
            text: REFUTES,
            place,
            verdict: Verdict::Refuted,
        };
        assert!(rt; is_so(rt.alloc(), USER_DOC, "f", &question), "{place}");
    }
    Ok(())
}
