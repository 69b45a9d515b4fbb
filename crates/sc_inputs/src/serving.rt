//! The commands, by what is done: with the policies of files under a schema, or with generated policies.
ghost use Rattle.std.specs.Prelude.{◌≡◌, IfNone, IfOk, IfSome};
ghost use Rattle.sc_command.specs.CommandLine.{Commands, asked_view, command_view, words_view};
ghost use Rattle.sc_inputs.specs.Serving.{IsNoCommand, aim_view, asked_for, work_view};

use sc_command::{Analyse, Asked, Check, Command, Generate, Log, Reduce, Replay, command_of};
use sc_question::Question;
use std::alloc::{AllocError, Global};

/// What a question is asked for.
#[derive(Clone, Copy)]
pub enum Aim<'w> {
    /// To report on each environment, within so many units of work each.
    Report(u64),
    /// To write the log of the environment at a place, within so many units of work.
    Log(u64, u32),
    /// To check a log of the environment at a place, in the file of this name.
    Check(u32, &'w str),
    /// To find which policies do nothing, within so many units of work for each in each environment. It is asked of one set
    /// whether fewer of its policies are equivalent to it.
    Reduce(u64),
}

/// What is done with a policy file.
#[derive(Clone, Copy)]
pub enum Task<'w> {
    /// To ask a question of the policies, and of those of another file where it takes two sets.
    Ask(Question, Option<&'w str>, Aim<'w>),
    /// To tell what they do in the world of the file of this name.
    Replay(&'w str),
}

/// A command over a policy file.
#[derive(Clone, Copy)]
pub struct Served<'w> {
    /// The name of the schema file.
    pub schema: &'w str,
    /// The name of the policy file.
    pub policies: &'w str,
    /// What is done.
    pub task: Task<'w>,
}

/// What the words ask to be done.
#[derive(Clone, Copy)]
pub enum Work<'w> {
    /// Something with the policies of files.
    OnFiles(Served<'w>),
    /// To ask a question of so many generated policies.
    Generate(u64),
}

/// Work on files, to ask a question for an aim.
fn asking<'w>(asked: Asked<'w>, aim: Aim<'w>) -> Work<'w>
    ensures { asked_for (asked_view asked.entry) (aim_view aim.entry) ≡ work_view result }
{
    Work::OnFiles(Served {
        schema: asked.schema,
        policies: asked.policies,
        task: Task::Ask(asked.question, asked.against, aim),
    })
}

/// A command by what it does.
fn as_work<'w>(command: &Command<'w>) -> Work<'w>
    ensures { command_view command.now ≡ work_view result }
{
    match command {
        Command::Analyse(Analyse { asked, budget }) => asking(*asked, Aim::Report(*budget)),
        Command::Log(
            Log {
                asked,
                budget,
                environment,
            },
        ) => asking(*asked, Aim::Log(*budget, *environment)),
        Command::Check(
            Check {
                asked,
                environment,
                log,
            },
        ) => asking(*asked, Aim::Check(*environment, *log)),
        Command::Reduce(Reduce { asked, budget }) => asking(*asked, Aim::Reduce(*budget)),
        Command::Generate(Generate { size }) => Work::Generate(*size),
        Command::Replay(
            Replay {
                schema,
                policies,
                world,
            },
        ) => Work::OnFiles(Served {
            schema,
            policies,
            task: Task::Replay(*world),
        }),
    }
}

/// What the words ask to be done, if they are a command.
pub fn work_of<'w>(alloc: Global, words: &'w [String]) -> Result<Option<Work<'w>>, AllocError>
    ensures found { IfOk result (λ o. IfSome o (λ work. Commands (words_view words.now) (work_view work))) }
    ensures none { IfOk result (λ o. IfNone o (IsNoCommand (words_view words.now))) }
{
    let Some(command) = command_of(alloc, words)? else {
        return Ok(None);
    };
    Ok(Some(as_work(&command)))
}
