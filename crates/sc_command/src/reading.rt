//! Reads the words of the command line.
ghost use Rattle.std.specs.Prelude.{◌≡◌, ◌≢◌, ℕ, List, [], IfNone, IfOk, IfSome, Some, None, codes, option_map};
ghost use Rattle.clap.specs.Words.{Text as AnyText, fault_of, found_of, rows_of, subcommand_of, subcommand_rows_of};
ghost use Rattle.sc_question.specs.Questions.{name_of};
ghost use Rattle.sc_question.specs.declared.question.Question.{Question as AnyQuestion};
ghost use Rattle.sc_command.specs.CommandLine.{Analyse as AnyAnalyse, Asked as AnyAsked, Check as AnyCheck, Command as AnyCommand, Commands, Generate as AnyGenerate, HasBudget, HasPlace, HasSize, IsAnalyse, IsAsked, IsCheck, IsGenerate, IsLog, IsReduce, IsReplay, Log as AnyLog, Reads, Reduce as AnyReduce, Replay as AnyReplay, analyse_view, asked_view, check_view, command_view, generate_view, given_of, log_view, reduce_view, replay_view, tool, words_view};

use crate::command::{Analyse, Asked, Check, Command, Generate, Log, Reduce, Replay};
use crate::numbers::{budget_of, place_of, size_of};
use crate::tool::tool;
use clap::ArgMatches;
use clap::error::ErrorKind;
use sc_question::{Question, question_named, takes_two};
use std::alloc::{AllocError, Global};

/// What an option was given.
fn given<'w>(values: &ArgMatches<'w>, name: &str) -> Option<&'w str>
    ensures { option_map (λ text. text.now) result ≡ given_of values.now name.now }
{
    values.get_str(name)
}

fn question_of(values: &ArgMatches) -> Option<Question>
    ensures found { IfSome result (λ q. given_of values.now (codes "query") ≡ Some (name_of q)) }
    ensures none { IfNone result ((q : AnyQuestion) → given_of values.now (codes "query") ≢ Some (name_of q)) }
{
    let Some(query) = given(values, "query") else {
        return None;
    };
    question_named(query)
}

fn units_of(values: &ArgMatches) -> Option<u64>
    ensures found { IfSome result (HasBudget (given_of values.now)) }
    ensures none { IfNone result ((n : ℕ) → HasBudget (given_of values.now) n → ⊥) }
{
    let Some(text) = given(values, "budget") else {
        return None;
    };
    budget_of(text)
}

fn environment_of(values: &ArgMatches) -> Option<u32>
    ensures found { IfSome result (HasPlace (given_of values.now)) }
    ensures none { IfNone result ((n : ℕ) → HasPlace (given_of values.now) n → ⊥) }
{
    let Some(text) = given(values, "env") else {
        return None;
    };
    place_of(text)
}

fn asked_of<'w>(values: &ArgMatches<'w>) -> Option<Asked<'w>>
    ensures found { IfSome result (λ a. IsAsked (given_of values.now) (asked_view a)) }
    ensures none { IfNone result ((a : AnyAsked) → IsAsked (given_of values.now) a → ⊥) }
{
    let Some(schema) = given(values, "schema") else {
        return None;
    };
    let Some(policies) = given(values, "policies") else {
        return None;
    };
    let Some(question) = question_of(values) else {
        return None;
    };
    let against = given(values, "against");
    if against.is_some() != takes_two(question) {
        return None;
    }
    Some(Asked {
        schema,
        policies,
        against,
        question,
    })
}

fn analyse_of<'w>(values: &ArgMatches<'w>) -> Option<Analyse<'w>>
    ensures found { IfSome result (λ a. IsAnalyse (given_of values.now) (analyse_view a)) }
    ensures none { IfNone result ((a : AnyAnalyse) → IsAnalyse (given_of values.now) a → ⊥) }
{
    let Some(asked) = asked_of(values) else {
        return None;
    };
    let Some(budget) = units_of(values) else {
        return None;
    };
    Some(Analyse { asked, budget })
}

fn log_of<'w>(values: &ArgMatches<'w>) -> Option<Log<'w>>
    ensures found { IfSome result (λ l. IsLog (given_of values.now) (log_view l)) }
    ensures none { IfNone result ((l : AnyLog) → IsLog (given_of values.now) l → ⊥) }
{
    let Some(asked) = asked_of(values) else {
        return None;
    };
    let Some(budget) = units_of(values) else {
        return None;
    };
    let Some(environment) = environment_of(values) else {
        return None;
    };
    Some(Log {
        asked,
        budget,
        environment,
    })
}

fn check_of<'w>(values: &ArgMatches<'w>) -> Option<Check<'w>>
    ensures found { IfSome result (λ c. IsCheck (given_of values.now) (check_view c)) }
    ensures none { IfNone result ((c : AnyCheck) → IsCheck (given_of values.now) c → ⊥) }
{
    let Some(asked) = asked_of(values) else {
        return None;
    };
    let Some(environment) = environment_of(values) else {
        return None;
    };
    let Some(log) = given(values, "log") else {
        return None;
    };
    Some(Check {
        asked,
        environment,
        log,
    })
}

fn replay_of<'w>(values: &ArgMatches<'w>) -> Option<Replay<'w>>
    ensures found { IfSome result (λ r. IsReplay (given_of values.now) (replay_view r)) }
    ensures none { IfNone result ((r : AnyReplay) → IsReplay (given_of values.now) r → ⊥) }
{
    let Some(schema) = given(values, "schema") else {
        return None;
    };
    let Some(policies) = given(values, "policies") else {
        return None;
    };
    let Some(world) = given(values, "world") else {
        return None;
    };
    Some(Replay {
        schema,
        policies,
        world,
    })
}

fn reduce_of<'w>(values: &ArgMatches<'w>) -> Option<Reduce<'w>>
    ensures found { IfSome result (λ r. IsReduce (given_of values.now) (reduce_view r)) }
    ensures none { IfNone result ((r : AnyReduce) → IsReduce (given_of values.now) r → ⊥) }
{
    let Some(schema) = given(values, "schema") else {
        return None;
    };
    let Some(policies) = given(values, "policies") else {
        return None;
    };
    let Some(budget) = units_of(values) else {
        return None;
    };
    let asked = Asked {
        schema,
        policies,
        against: None,
        question: Question::Equivalent,
    };
    Some(Reduce { asked, budget })
}

fn policies_asked(values: &ArgMatches) -> Option<u64>
    ensures found { IfSome result (HasSize (given_of values.now)) }
    ensures none { IfNone result ((n : ℕ) → HasSize (given_of values.now) n → ⊥) }
{
    let Some(text) = given(values, "size") else {
        return None;
    };
    size_of(text)
}

fn generate_of(values: &ArgMatches) -> Option<Generate>
    ensures found { IfSome result (λ g. IsGenerate (given_of values.now) (generate_view g)) }
    ensures none { IfNone result ((g : AnyGenerate) → IsGenerate (given_of values.now) g → ⊥) }
{
    let Some(size) = policies_asked(values) else {
        return None;
    };
    Some(Generate { size })
}

/// The subcommand that the words name, and what its options were given.
fn entered<'m, 'w>(matches: &'m ArgMatches<'w>) -> Option<(&'w str, &'m ArgMatches<'w>)>
    ensures { option_map (λ p. (p.0.now, rows_of (found_of p.1.now))) result ≡ subcommand_rows_of matches.now }
{
    matches.subcommand()
}

fn command_in<'w>(matches: &ArgMatches<'w>) -> Option<Command<'w>>
    ensures found { IfSome result (λ c. Reads (subcommand_rows_of matches.now) (command_view c)) }
    ensures none { IfNone result ((c : AnyCommand) → Reads (subcommand_rows_of matches.now) c → ⊥) }
{
    let Some((name, values)) = entered(matches) else {
        return None;
    };
    if name == "analyse" {
        return Some(Command::Analyse(analyse_of(values)?));
    }
    if name == "replay" {
        return Some(Command::Replay(replay_of(values)?));
    }
    if name == "log" {
        return Some(Command::Log(log_of(values)?));
    }
    if name == "check" {
        return Some(Command::Check(check_of(values)?));
    }
    if name == "reduce" {
        return Some(Command::Reduce(reduce_of(values)?));
    }
    if name == "generate" {
        return Some(Command::Generate(generate_of(values)?));
    }
    None
}

/// What `clap` makes of the words, where it accepts them.
fn matches_of<'w>(alloc: Global, words: &'w [String]) -> Result<Option<ArgMatches<'w>>, AllocError>
    ensures accepted { IfOk result (λ o. IfSome o (λ m. fault_of tool (words_view words.now) ≡ [])) }
    ensures entered { IfOk result (λ o. IfSome o
        (λ m. subcommand_rows_of m ≡ subcommand_of tool (words_view words.now))) }
    ensures refused { IfOk result (λ o. IfNone o (fault_of tool (words_view words.now) ≢ [])) }
{
    match tool(alloc)?.try_get_matches_from(words) {
        Ok(matches) => Ok(Some(matches)),
        Err(error) => match error.kind() {
            ErrorKind::OutOfMemory => Err(AllocError),
            _ => Ok(None),
        },
    }
}

/// The command that the words behind the program's name are, if they are one.
///
/// # Errors
///
/// Want of memory.
pub fn command_of(alloc: Global, words: &[String]) -> Result<Option<Command<'_>>, AllocError>
    ensures found { IfOk result (λ o. IfSome o (λ c. Commands (words_view words.now) (command_view c))) }
    ensures none { IfOk result (λ o. IfNone o ((c : AnyCommand) → Commands (words_view words.now) c → ⊥)) }
{
    let Some(matches) = matches_of(alloc, words)? else {
        return Ok(None);
    };
    Ok(command_in(&matches))
}

/// Words are one command at most.
#[tactic(auto, using(crate::proofs::CommandLaws::one_command))]
pub fn command_laws()
    ensures { (words : List AnyText) (c d : AnyCommand) → Commands words c → Commands words d → c ≡ d }
{}
