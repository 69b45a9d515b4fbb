//! The lines of a reduction, its status and its logs.
ghost use Rattle.std.specs.Prelude.{◌≡◌, ◌++◌, codes, slice_get, string_bytes, IfOk, OnOk};
ghost use Rattle.std.specs.Fmt.{decimal};
ghost use Rattle.std.specs.List.{AllByRecursion};
ghost use Rattle.sc_inputs.specs.FaultTexts.{env_text};
ghost use Rattle.sc_schema.specs.Declarations.{environments};
ghost use Rattle.sc_world.specs.WellFormed.{IsProperWorld};
ghost use Rattle.sc_world_json.specs.Text.{world_text};
ghost use Rattle.sc_reduction.specs.Lines.{IsPrintable, fate_line, fate_lines, fate_text, is_open, logs_of, on_env, status_of};

use crate::fate::Fate;
use itoa::Buffer;
use sc_checker::Log;
use sc_lists::{Seq, Text};
use sc_names::put_uid;
use sc_schema::{Env, Schema, environments};
use sc_world::World;
use sc_world_json::world_text;
use std::alloc::{AllocError, Global};

/// Puts an environment, as lines name it, at the end.
#[tactic(auto, unfolding(sc_inputs::specs::FaultTexts::env_text))]
fn put_env(line: &mut String, env: &Env) -> Result<(), AllocError>
    ensures { OnOk result (string_bytes line.new ≡ string_bytes line.old ++ env_text env.now) }
{
    line.push_str("env ")?;
    line.push_str(env.principal.as_str())?;
    line.push_str(" ")?;
    put_uid(line, &env.action)?;
    line.push_str(" ")?;
    line.push_str(env.resource.as_str())
}

/// Puts a word and the environment at a place at the end.
fn put_on_env(
    line: &mut String,
    word: &str,
    schema: &Schema,
    place: usize,
) -> Result<(), AllocError>
    ensures { OnOk result (string_bytes line.new ≡ string_bytes line.old
        ++ on_env word.now (slice_get (environments schema.now) place)) }
{
    line.push_str(word)?;
    match environments(schema).get(place) {
        Some(env) => put_env(line, env),
        None => Ok(()),
    }
}

/// Puts a space and the text of a world at the end.
fn put_world(alloc: Global, line: &mut String, world: &World) -> Result<(), AllocError>
    requires { IsProperWorld world.now }
    ensures { OnOk result (string_bytes line.new ≡ string_bytes line.old ++ (codes " " ++ world_text world.now)) }
{
    let text = world_text(alloc, world)?;
    line.push_str(" ")?;
    line.push_str(&text)
}

/// Puts how many units were spent at the end.
fn put_units(line: &mut String, budget: u64) -> Result<(), AllocError>
    ensures { OnOk result (string_bytes line.new ≡ string_bytes line.old
        ++ (codes " after " ++ (decimal budget ++ codes " units"))) }
{
    let mut buffer = Buffer::new();
    line.push_str(" after ")?;
    line.push_str(buffer.format(budget))?;
    line.push_str(" units")
}

/// Puts what becomes of a policy at the end.
fn put_fate(
    alloc: Global,
    line: &mut String,
    schema: &Schema,
    budget: u64,
    fate: &Fate,
) -> Result<(), AllocError>
    requires { IsPrintable fate.now }
    ensures { OnOk result (string_bytes line.new ≡ string_bytes line.old ++ fate_text schema.now budget fate.now) }
{
    match fate {
        Fate::Dropped => line.push_str("dropped"),
        Fate::Kept(place, world) => {
            put_on_env(line, "kept ", schema, *place)?;
            put_world(alloc, line, world)
        }
        Fate::Unproved(place, _) => {
            put_on_env(line, "unproved ", schema, *place)?;
            put_units(line, budget)
        }
        Fate::TooLarge(place) => put_on_env(line, "over limit ", schema, *place),
    }
}

/// The line of the policy at a place, with its newline.
#[tactic(auto, unfolding(crate::specs::Lines::fate_line))]
fn line_of(
    alloc: Global,
    schema: &Schema,
    budget: u64,
    place: usize,
    fate: &Fate,
) -> Result<Text, AllocError>
    requires { IsPrintable fate.now }
    ensures { IfOk result (λ line. line ≡ fate_line schema.now budget place fate.now) }
{
    let mut line = String::from_str(alloc, "policy")?;
    let mut buffer = Buffer::new();
    line.push_str(buffer.format(place))?;
    line.push_str(" ")?;
    put_fate(alloc, &mut line, schema, budget, fate)?;
    line.push_str("\n")?;
    Text::from_string(line)
}

/// The lines of a reduction under a schema, within a budget: one for each policy, by its place, with its newline.
pub fn lines_of(
    alloc: Global,
    schema: &Schema,
    budget: u64,
    fates: &[Fate],
) -> Result<Seq<Text>, AllocError>
    requires { AllByRecursion IsPrintable fates.now }
    ensures { IfOk result (λ lines. lines ≡ fate_lines schema.now budget fates.now) }
{
    let mut lines = Seq::new(alloc);
    for (place, fate) in fates.iter().enumerate() {
        lines.push(line_of(alloc, schema, budget, place, fate)?)?;
    }
    Ok(lines)
}

/// Whether it isn't known of a policy whether it matters.
fn is_open(fate: &Fate) -> bool
    ensures { result ≡ is_open fate.now }
{
    match fate {
        Fate::Dropped => false,
        Fate::Kept(_, _) => false,
        Fate::Unproved(_, _) => true,
        Fate::TooLarge(_) => true,
    }
}

/// The status of a whole report on a reduction: 2 where it isn't known of some policy whether it matters, else 0.
pub fn code_of(fates: &[Fate]) -> u8
    ensures { result ≡ status_of fates.now }
{
    for fate in fates {
        if is_open(fate) {
            return 2;
        }
    }
    0
}

/// The logs of the policies for which the budget was spent, by place.
pub fn logs_of(alloc: Global, fates: Seq<Fate>) -> Result<Vec<Log>, AllocError>
    ensures { IfOk result (λ logs. logs.items ≡ logs_of fates) }
{
    let mut logs = Vec::new(alloc);
    for fate in fates.into_vec() {
        if let Fate::Unproved(_, log) = fate {
            logs.push(log)?;
        }
    }
    Ok(logs)
}
