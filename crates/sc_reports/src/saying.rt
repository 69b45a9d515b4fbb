//! Tells what is said of a log.
ghost use Rattle.std.specs.Prelude.{◌≡◌, ◌<◌, ◌++◌, ℕ, List, Option, Some, length, slice_get, IfOk, OnOk};
ghost use Rattle.sc_outside.specs.Counts.{Rose};
ghost use Rattle.sc_schema.specs.Declarations.{environments};
ghost use Rattle.sc_schema.specs.declared.declarations.Env.{Env as AnyEnv};
ghost use Rattle.sc_reports.specs.Analyses.{asked_within};
ghost use Rattle.sc_reports.specs.Claims.{answer_code, answer_text, answer_view, reason_name, rejected_text, Checked, Claims, IsShort};

use crate::analysing::EnvAnswer;
use crate::claims::Answer;
use crate::environment::environment_at;
use crate::line::line_of;
use sc_checker::Reason;
use sc_inputs::Claim;
use sc_inputs::put::{put, put_number};
use sc_outside::{Sink, SinkFault};
use sc_schema::Env;
use std::alloc::{AllocError, Global};

fn reason_name(reason: Reason) -> &'static [u8]
    ensures { result.now ≡ reason_name reason }
{
    match reason {
        Reason::Malformed => b"Malformed",
        Reason::NoInstance => b"NoInstance",
        Reason::NotRefuted => b"NotRefuted",
        Reason::NotEmpty => b"NotEmpty",
    }
}

#[tactic(auto, unfolding(crate::specs::Claims::rejected_text))]
fn put_rejected(out: &mut Vec<u8>, step: u64, reason: Reason) -> Result<(), AllocError>
    ensures { OnOk result (out.new.items ≡ out.old.items ++ rejected_text step reason) }
{
    put(out, b"error 14 step ")?;
    put_number(out, step)?;
    put(out, b" ")?;
    put(out, reason_name(reason))?;
    put(out, b"\n")
}

/// The line of what is said of a log, with its newline.
fn line_of_answer(alloc: Global, env: &Env, answer: Answer) -> Result<Vec<u8>, AllocError>
    ensures { IfOk result (λ v. v.items ≡ answer_text env.now (answer_view answer)) }
{
    match answer {
        Answer::Accepted => Vec::from_slice(alloc, b"accepted\n"),
        Answer::Rejected(step, reason) => {
            let mut out = Vec::new(alloc);
            put_rejected(&mut out, step, reason)?;
            Ok(out)
        }
        Answer::OverLimit => line_of(alloc, env, 0, &EnvAnswer::OverLimit),
    }
}

/// The status of what is said of a log.
fn answer_code(answer: Answer) -> u8
    ensures { result ≡ answer_code (answer_view answer) }
{
    match answer {
        Answer::Accepted => 0,
        Answer::Rejected(_, _) => 14,
        Answer::OverLimit => 2,
    }
}

/// Puts out what is said of the log of a claim. Gives the status.
pub fn put_said<O: Sink>(alloc: Global, claim: &Claim<'_>, answer: Answer, out: &mut O) -> u8
    requires { claim.now.environment < length (environments claim.now.asking.schema) }
    ensures puts { (content : Option (List ℕ)) (env : AnyEnv)
        → slice_get (environments claim.now.asking.schema) claim.now.environment ≡ Some env
        → IsShort content → Claims content (asked_within claim.now.asking 0) env (answer_view answer)
        → Checked content (asked_within claim.now.asking 0) env (O.written out.old) (O.written out.new) (Rose
        (O.faults out.old) (O.faults out.new)) result }
    ensures told { O.faults out.old < O.faults out.new → result ≡ 21 }
{
    let env = environment_at(&claim.asking.schema, claim.environment);
    let Ok(text) = line_of_answer(alloc, env, answer) else {
        return 30;
    };
    match out.write(&text) {
        Ok(()) => answer_code(answer),
        Err(SinkFault::Failed) => 21,
        Err(SinkFault::NoMemory) => 30,
    }
}
