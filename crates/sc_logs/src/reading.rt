//! Reads the text of a log.
ghost use Rattle.std.specs.Prelude.{◌≡◌, ◌∷◌, ◌++◌, ℕ, List, Result, IfOk, IfErr, IsTrue, MatchOption};
ghost use Rattle.sc_lists.specs.Told.{Gives};
ghost use Rattle.sc_clauses.specs.declared.step.Step.{Step};
ghost use Rattle.sc_logs.specs.Readings.{IfTold, AreWritable, BeginsWith, StopsAt, IsFault, IsText, IsReading};
ghost use Rattle.sc_logs.specs.Texts.{has_no_newline, step_line, steps_text, first_line, log_text};
ghost use Rattle.sc_logs.specs.Writable.{is_writable};

use crate::cutting::cut_at;
use crate::lines::read_step;
use crate::log::Log;
use sc_clauses::Step;
use sc_lists::{Fault, Seq};
use std::alloc::{AllocError, Global};

/// The text isn't that of a log.
#[derive(Clone, Copy, Debug, PartialEq, Eq)]
pub struct Malformed {
    /// The first line that isn't of the form of a log: 0 is the line `log 1`, and the lines of the
    /// steps are counted from 1. A line that isn't ended by a newline is of no form.
    pub step: u64,
}

/// The first line, without the newline that ends it, and what follows.
pub fn cut_line(bytes: &[u8]) -> Option<(&[u8], &[u8])>
    ensures { MatchOption result (IsTrue (has_no_newline bytes.now)) (λ p. (bytes.now ≡ p.0.now ++ 10 ∷ p.1.now)
        × IsTrue (has_no_newline p.0.now)) }
{
    cut_at(bytes, b'\n')
}

/// The step of the first line, and what follows that line.
fn next_step(alloc: Global, bytes: &[u8]) -> Result<Option<(Step, &[u8])>, AllocError>
    ensures { IfOk result (λ o. MatchOption o ((s : Step) → IsTrue (is_writable s)
        → ¬ BeginsWith bytes.now s) (λ p. IsTrue (is_writable p.0) × (bytes.now ≡ step_line p.0 ++ 10 ∷ p.1.now))) }
{
    let Some((line, rest)) = cut_line(bytes) else {
        return Ok(None);
    };
    let Some(step) = read_step(alloc, line)? else {
        return Ok(None);
    };
    Ok(Some((step, rest)))
}

/// The steps of lines.
fn read_steps(alloc: Global, bytes: &[u8]) -> Result<Seq<Step>, Fault<Malformed>>
    ensures found { IfOk result (λ steps. AreWritable steps × (bytes.now ≡ steps_text steps)) }
    ensures fault { IfErr result (λ f. IfTold f (λ m. StopsAt bytes.now m.step)) }
{
    let mut steps = Seq::new(alloc);
    let mut rest = bytes;
    let mut number = 0u64;
    while !rest.is_empty() {
        number += 1;
        let Some((step, after)) = next_step(alloc, rest)? else {
            return Err(Fault::Told(Malformed { step: number }));
        };
        steps.push(step)?;
        rest = after;
    }
    Ok(steps)
}

/// What follows the line `log 1`.
fn after_first_line(bytes: &[u8]) -> Option<&[u8]>
    ensures { MatchOption result ((rest : List ℕ) → ¬ (bytes.now ≡ first_line ++ rest)) (λ r. bytes.now ≡ first_line
        ++ r.now) }
{
    bytes.strip_prefix(b"log 1\n")
}

fn read(alloc: Global, bytes: &[u8]) -> Result<Log, Fault<Malformed>>
    ensures found { IfOk result (λ g. AreWritable g × IsText bytes.now g) }
    ensures fault { IfErr result (λ f. IfTold f (λ m. IsFault bytes.now m.step)) }
{
    if bytes.is_empty() {
        return Ok(Log::new(Seq::new(alloc)));
    }
    let Some(rest) = after_first_line(bytes) else {
        return Err(Fault::Told(Malformed { step: 0 }));
    };
    match read_steps(alloc, rest) {
        Ok(steps) => Ok(Log::new(steps)),
        Err(fault) => Err(fault),
    }
}

/// The log whose text these bytes are; no bytes at all are a log without steps. Malformed exactly
/// at the first line that isn't of the form of a log's text.
pub fn read_log(alloc: Global, bytes: &[u8]) -> Result<Log, Fault<Malformed>>
    // The bytes are the text of the log that is read.
    ensures found { IfOk result (λ g. AreWritable g × IsText bytes.now g) }
    // The fault is the first line that is no line of a log.
    ensures fault { IfErr result (λ f. IfTold f (λ m. IsFault bytes.now m.step)) }
    // Where memory serves, a text is read as its log, and other bytes are Malformed.
    ensures exact { (told : Result (List Step) Malformed) → IsReading bytes.now told → Gives result told }
    // What `write_log` writes of a log is read as the log.
    ensures back { (g : List Step) → AreWritable g → bytes.now ≡ log_text g → Gives result (Ok g) }
{
    read(alloc, bytes)
}
