//! The line of an environment.
ghost use Rattle.std.specs.Prelude.{◌≡◌, ◌++◌, OnOk, IfOk, codes};
ghost use Rattle.std.specs.Fmt.{decimal};
ghost use Rattle.sc_world.specs.WellFormed.{IsProperWorld};
ghost use Rattle.sc_world_json.specs.Text.{world_text};
ghost use Rattle.sc_reports.specs.Reports.{verdict_text, line_text};
ghost use Rattle.sc_reports.specs.View.{verdict_view, IsPrintable};

use crate::analysing::EnvAnswer;
use sc_inputs::put::{put, put_number};
use sc_inputs::put_env;
use sc_schema::Env;
use sc_world::World;
use sc_world_json::world_text;
use std::alloc::{AllocError, Global};

fn put_counterexample(alloc: Global, out: &mut Vec<u8>, world: &World) -> Result<(), AllocError>
    requires { IsProperWorld world.now }
    ensures { OnOk result (out.new.items ≡ out.old.items ++ (codes "counterexample " ++ world_text world.now)) }
{
    let text = world_text(alloc, world)?;
    put(out, b"counterexample ")?;
    put(out, text.as_bytes())
}

fn put_unknown(out: &mut Vec<u8>, budget: u64) -> Result<(), AllocError>
    ensures { OnOk result (out.new.items ≡ out.old.items
        ++ (codes "unknown after " ++ (decimal budget ++ codes " units"))) }
{
    put(out, b"unknown after ")?;
    put_number(out, budget)?;
    put(out, b" units")
}

fn put_verdict(
    alloc: Global,
    out: &mut Vec<u8>,
    budget: u64,
    answer: &EnvAnswer,
) -> Result<(), AllocError>
    requires { IsPrintable answer.now }
    ensures { OnOk result (out.new.items ≡ out.old.items ++ verdict_text (verdict_view budget answer.now)) }
{
    match answer {
        EnvAnswer::Holds(_) => put(out, b"holds"),
        EnvAnswer::Violated(world) => put_counterexample(alloc, out, world),
        EnvAnswer::Spent(_) => put_unknown(out, budget),
        EnvAnswer::OverLimit => put(out, b"over limit"),
    }
}

/// The line of an environment that was analysed within a budget, with its newline.
#[tactic(auto, unfolding(crate::specs::Reports::line_text))]
pub fn line_of(
    alloc: Global,
    env: &Env,
    budget: u64,
    answer: &EnvAnswer,
) -> Result<Vec<u8>, AllocError>
    requires { IsPrintable answer.now }
    ensures { IfOk result (λ v. v.items
        ≡ line_text (record { env = env.now; verdict = verdict_view budget answer.now })) }
{
    let mut out = Vec::new(alloc);
    put_env(alloc, &mut out, env)?;
    put(&mut out, b": ")?;
    put_verdict(alloc, &mut out, budget, answer)?;
    put(&mut out, b"\n")?;
    Ok(out)
}
