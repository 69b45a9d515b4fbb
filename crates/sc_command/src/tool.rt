//! The command line, as `clap` is told it.
ghost use Rattle.std.specs.Prelude.{◌≡◌, IfOk, false};
ghost use Rattle.clap.specs.Words.{app_of, rule_of};
ghost use Rattle.sc_command.specs.CommandLine.{analyse_line, asking, bare_tool, check_line, generate_line, log_line, logging_line, on_files, option, reduce_line, replay_line, required, served_line, tool};

use clap::{Arg, ArgAction, Command};
use std::alloc::{AllocError, Global};

/// An option that may be left out.
fn option<'w>(alloc: Global, name: &'w str) -> Arg<'w>
    ensures rule { rule_of result ≡ option name.entry.now }
    ensures local { result.global ≡ false }
{
    Arg::new(alloc, name).long(name).action(ArgAction::Set)
}

/// An option that has to be there.
fn required<'w>(alloc: Global, name: &'w str) -> Arg<'w>
    ensures rule { rule_of result ≡ required name.entry.now }
    ensures local { result.global ≡ false }
{
    option(alloc, name).required(true)
}

/// The subcommand of this name, with the options that each has.
fn on_files<'w>(alloc: Global, name: &'w str) -> Result<Command<'w>, AllocError>
    ensures { IfOk result (λ c. app_of c ≡ on_files name.entry.now) }
{
    Command::new(alloc, name)
        .arg(required(alloc, "schema"))?
        .arg(required(alloc, "policies"))
}

/// The subcommand of this name, with the options of each that asks a question.
fn asking<'w>(alloc: Global, name: &'w str) -> Result<Command<'w>, AllocError>
    ensures { IfOk result (λ c. app_of c ≡ asking name.entry.now) }
{
    on_files(alloc, name)?
        .arg(option(alloc, "against"))?
        .arg(required(alloc, "query"))
}

fn analyse_line<'w>(alloc: Global) -> Result<Command<'w>, AllocError>
    ensures { IfOk result (λ c. app_of c ≡ analyse_line) }
{
    asking(alloc, "analyse")?.arg(required(alloc, "budget"))
}

fn replay_line<'w>(alloc: Global) -> Result<Command<'w>, AllocError>
    ensures { IfOk result (λ c. app_of c ≡ replay_line) }
{
    on_files(alloc, "replay")?.arg(required(alloc, "world"))
}

fn log_line<'w>(alloc: Global) -> Result<Command<'w>, AllocError>
    ensures { IfOk result (λ c. app_of c ≡ log_line) }
{
    asking(alloc, "log")?
        .arg(required(alloc, "budget"))?
        .arg(required(alloc, "env"))
}

fn check_line<'w>(alloc: Global) -> Result<Command<'w>, AllocError>
    ensures { IfOk result (λ c. app_of c ≡ check_line) }
{
    asking(alloc, "check")?
        .arg(required(alloc, "env"))?
        .arg(required(alloc, "log"))
}

fn reduce_line<'w>(alloc: Global) -> Result<Command<'w>, AllocError>
    ensures { IfOk result (λ c. app_of c ≡ reduce_line) }
{
    on_files(alloc, "reduce")?.arg(required(alloc, "budget"))
}

fn generate_line<'w>(alloc: Global) -> Result<Command<'w>, AllocError>
    ensures { IfOk result (λ c. app_of c ≡ generate_line) }
{
    Command::new(alloc, "generate").arg(required(alloc, "size"))
}

fn bare_tool<'w>(alloc: Global) -> Command<'w>
    ensures { app_of result ≡ bare_tool }
{
    Command::new(alloc, "cedar_symcc")
        .no_binary_name(true)
        .subcommand_required(true)
}

/// The command line with the commands that read no log and write none.
fn served_line<'w>(alloc: Global) -> Result<Command<'w>, AllocError>
    ensures { IfOk result (λ c. app_of c ≡ served_line) }
{
    let line = bare_tool(alloc).subcommand(analyse_line(alloc)?)?;
    line.subcommand(replay_line(alloc)?)
}

/// The command line with these, and with those that write a log and read one.
fn logging_line<'w>(alloc: Global) -> Result<Command<'w>, AllocError>
    ensures { IfOk result (λ c. app_of c ≡ logging_line) }
{
    let line = served_line(alloc)?.subcommand(log_line(alloc)?)?;
    line.subcommand(check_line(alloc)?)
}

/// The whole command line.
pub(crate) fn tool<'w>(alloc: Global) -> Result<Command<'w>, AllocError>
    ensures { IfOk result (λ c. app_of c ≡ tool) }
{
    let line = logging_line(alloc)?.subcommand(reduce_line(alloc)?)?;
    line.subcommand(generate_line(alloc)?)
}
