//! Which command the words of a line are.
use sc_command::{Analyse, Asked, Check, Command, Generate, Log, Reduce, Replay, command_of};
use sc_question::Question;
use std::alloc::{AllocError, Global};

/// The words of a line, between its spaces.
fn words_of(alloc: Global, line: &str) -> Result<Vec<String>, AllocError> {
    let mut words = Vec::new(alloc);
    for word in line.split(' ') {
        words.push(String::from_str(alloc, word)?)?;
    }
    Ok(words)
}

fn reads(alloc: Global, line: &str, wanted: Option<Command<'_>>) -> Result<bool, AllocError> {
    let words = words_of(alloc, line)?;
    Ok(command_of(alloc, &words)? == wanted)
}

fn is_refused(alloc: Global, line: &str) -> bool {
    reads(alloc, line, None).unwrap_or(false)
}

fn are_refused(alloc: Global, lines: &[&str]) -> bool {
    for &line in lines {
        if !is_refused(alloc, line) {
            return false;
        }
    }
    true
}

fn analyses(alloc: Global, line: &str, wanted: Analyse<'_>) -> bool {
    reads(alloc, line, Some(Command::Analyse(wanted))).unwrap_or(false)
}

fn all_analyse(alloc: Global, wanted: Analyse<'_>, lines: &[&str]) -> bool {
    for &line in lines {
        if !analyses(alloc, line, wanted) {
            return false;
        }
    }
    true
}

fn replays(alloc: Global, line: &str, wanted: Replay<'_>) -> bool {
    reads(alloc, line, Some(Command::Replay(wanted))).unwrap_or(false)
}

fn denies<'w>(schema: &'w str, policies: &'w str, budget: u64) -> Analyse<'w> {
    Analyse {
        asked: Asked {
            schema,
            policies,
            against: None,
            question: Question::AlwaysDenies,
        },
        budget,
    }
}

fn asked<'w>(question: Question, against: Option<&'w str>) -> Asked<'w> {
    Asked {
        schema: "s",
        policies: "p",
        against,
        question,
    }
}

fn asks<'w>(question: Question, against: Option<&'w str>) -> Analyse<'w> {
    Analyse {
        asked: asked(question, against),
        budget: 10,
    }
}

/// Lines that ask the same, their options in another order.
const IN_ANY_ORDER: &[&str] = &[
    "analyse --schema s --policies p --query always-denies --budget 10",
    "analyse --budget 10 --query always-denies --policies p --schema s",
    "analyse --policies p --budget 10 --schema s --query always-denies",
];

#[test]
fn options_come_in_any_order(rt: HostRuntime) {
    assert!(rt; all_analyse(rt.alloc(), denies("s", "p", 10), IN_ANY_ORDER));
}

/// Lines that ask the same, with values behind equals signs.
const WITH_EQUALS_SIGNS: &[&str] = &[
    "analyse --schema=-s --policies=p=q --query=always-denies --budget=10",
    "analyse --schema=-s --policies p=q --query always-denies --budget=10",
];

#[test]
fn a_value_may_stand_behind_an_equals_sign(rt: HostRuntime) {
    assert!(rt; all_analyse(rt.alloc(), denies("-s", "p=q", 10), WITH_EQUALS_SIGNS));
}

/// Lines whose schema has no name.
const WITH_AN_EMPTY_NAME: &[&str] = &[
    "analyse --schema= --policies p --query always-denies --budget 10",
    "analyse --schema  --policies p --query always-denies --budget 10",
];

#[test]
fn a_name_may_be_empty(rt: HostRuntime) {
    assert!(rt; all_analyse(rt.alloc(), denies("", "p", 10), WITH_AN_EMPTY_NAME));
}

#[test]
fn a_hyphen_alone_is_a_value(rt: HostRuntime) {
    let line = "analyse --schema - --policies p --query always-denies --budget 10";
    assert!(rt; analyses(rt.alloc(), line, denies("-", "p", 10)));
}

#[test]
fn two_hyphens_may_end_the_options(rt: HostRuntime) {
    let line = "analyse --schema s --policies p --query always-denies --budget 10 --";
    assert!(rt; analyses(rt.alloc(), line, denies("s", "p", 10)));
}

/// Lines with words behind two hyphens.
const BEHIND_TWO_HYPHENS: &[&str] = &[
    "analyse --schema s --policies p --query always-denies --budget 10 -- x",
    "analyse --schema s --policies p --query always-denies -- --budget 10",
    "analyse --schema s --policies p --query always-denies --budget 10 -- --",
];

#[test]
fn nothing_stands_behind_two_hyphens(rt: HostRuntime) {
    assert!(rt; are_refused(rt.alloc(), BEHIND_TWO_HYPHENS));
}

#[test]
fn questions_of_one_set(rt: HostRuntime) {
    let alloc = rt.alloc();
    let line = "analyse --schema s --policies p --query never-errors --budget 10";
    assert!(rt; analyses(alloc, line, asks(Question::NeverErrors, None)));
    let line = "analyse --schema s --policies p --query always-allows --budget 10";
    assert!(rt; analyses(alloc, line, asks(Question::AlwaysAllows, None)));
}

#[test]
fn questions_of_two_sets(rt: HostRuntime) {
    let alloc = rt.alloc();
    let line = "analyse --schema s --policies p --against q --query implies --budget 10";
    assert!(rt; analyses(alloc, line, asks(Question::Implies, Some("q"))));
    let line = "analyse --against=q --schema s --policies p --query equivalent --budget 10";
    assert!(rt; analyses(alloc, line, asks(Question::Equivalent, Some("q"))));
    let line = "analyse --schema s --policies p --query disjoint --budget 10 --against q";
    assert!(rt; analyses(alloc, line, asks(Question::Disjoint, Some("q"))));
}

/// Lines that ask of two sets and name one.
const WITHOUT_A_SECOND_SET: &[&str] = &[
    "analyse --schema s --policies p --query implies --budget 10",
    "analyse --schema s --policies p --query equivalent --budget 10",
    "analyse --schema s --policies p --query disjoint --budget 10",
];

#[test]
fn a_second_set_has_to_be_there(rt: HostRuntime) {
    assert!(rt; are_refused(rt.alloc(), WITHOUT_A_SECOND_SET));
}

/// Lines that ask of one set and name two.
const WITH_A_SECOND_SET: &[&str] = &[
    "analyse --schema s --policies p --against q --query never-errors --budget 10",
    "analyse --schema s --policies p --against q --query always-allows --budget 10",
    "analyse --schema s --policies p --against q --query always-denies --budget 10",
];

#[test]
fn a_second_set_has_to_be_asked_of(rt: HostRuntime) {
    assert!(rt; are_refused(rt.alloc(), WITH_A_SECOND_SET));
}

/// Lines whose question is none.
const OTHER_QUESTIONS: &[&str] = &[
    "analyse --schema s --policies p --query always --budget 10",
    "analyse --schema s --policies p --query Always-Denies --budget 10",
    "analyse --schema s --policies p --query= --budget 10",
];

#[test]
fn other_questions_are_refused(rt: HostRuntime) {
    assert!(rt; are_refused(rt.alloc(), OTHER_QUESTIONS));
}

#[test]
fn budgets(rt: HostRuntime) {
    let alloc = rt.alloc();
    let line = "analyse --schema s --policies p --query always-denies --budget 1";
    assert!(rt; analyses(alloc, line, denies("s", "p", 1)));
    let line = "analyse --schema s --policies p --query always-denies --budget 000001";
    assert!(rt; analyses(alloc, line, denies("s", "p", 1)));
    let line = "analyse --schema s --policies p --query always-denies --budget 1000000000";
    assert!(rt; analyses(alloc, line, denies("s", "p", 1_000_000_000)));
}

/// Lines whose budget is none.
const OTHER_BUDGETS: &[&str] = &[
    "analyse --schema s --policies p --query always-denies --budget 0",
    "analyse --schema s --policies p --query always-denies --budget 1000000001",
    "analyse --schema s --policies p --query always-denies --budget 18446744073709551617",
    "analyse --schema s --policies p --query always-denies --budget +5",
    "analyse --schema s --policies p --query always-denies --budget=-5",
    "analyse --schema s --policies p --query always-denies --budget 1e3",
    "analyse --schema s --policies p --query always-denies --budget 1_000",
    "analyse --schema s --policies p --query always-denies --budget ",
];

#[test]
fn other_budgets_are_refused(rt: HostRuntime) {
    assert!(rt; are_refused(rt.alloc(), OTHER_BUDGETS));
}

/// Lines that lack an option, or its value.
const WITHOUT_AN_OPTION: &[&str] = &[
    "analyse --policies p --query always-denies --budget 10",
    "analyse --schema s --query always-denies --budget 10",
    "analyse --schema s --policies p --budget 10",
    "analyse --schema s --policies p --query always-denies",
    "analyse --schema s --policies p --query always-denies --budget",
];

#[test]
fn each_option_has_to_be_there(rt: HostRuntime) {
    assert!(rt; are_refused(rt.alloc(), WITHOUT_AN_OPTION));
}

/// Lines with an option twice.
const WITH_AN_OPTION_TWICE: &[&str] = &[
    "analyse --schema s --schema s --policies p --query always-denies --budget 10",
    "analyse --schema s --policies p --query always-denies --budget=10 --budget=10",
    "analyse --schema s --policies p --against q --against q --query implies --budget 10",
];

#[test]
fn no_option_comes_twice(rt: HostRuntime) {
    assert!(rt; are_refused(rt.alloc(), WITH_AN_OPTION_TWICE));
}

/// Lines with an option where a value is to stand.
const WITHOUT_A_VALUE: &[&str] = &[
    "analyse --schema -s --policies p --query always-denies --budget 10",
    "analyse --schema -- --policies p --query always-denies --budget 10",
    "analyse --schema --policies p --query always-denies --budget 10",
];

#[test]
fn an_option_is_no_value(rt: HostRuntime) {
    assert!(rt; are_refused(rt.alloc(), WITHOUT_A_VALUE));
}

/// Lines with words that no command has.
const OTHER_WORDS: &[&str] = &[
    "analyse --schema s --policies p --query always-denies --budget 10 x",
    "analyse --schema s --policies p --query always-denies --budget 10 -s",
    "analyse --schema s --policies p --query always-denies --budget 10 --log",
    "analyse --schema s --policies p --query always-denies --budget 10 --world w",
    "analyse --sch s --policies p --query always-denies --budget 10",
    "analyse s p always-denies 10",
];

#[test]
fn other_words_are_refused(rt: HostRuntime) {
    assert!(rt; are_refused(rt.alloc(), OTHER_WORDS));
}

/// Lines that begin with no command.
const WITHOUT_A_COMMAND: &[&str] = &[
    "",
    "analyze --schema s --policies p --query always-denies --budget 10",
    "--schema s --policies p --query always-denies --budget 10",
    "--schema s analyse --policies p --query always-denies --budget 10",
    "-- analyse --schema s --policies p --query always-denies --budget 10",
    "cedar_symcc analyse --schema s --policies p --query always-denies --budget 10",
];

#[test]
fn a_command_has_to_be_there(rt: HostRuntime) {
    assert!(rt; are_refused(rt.alloc(), WITHOUT_A_COMMAND));
}

#[test]
fn no_words_are_no_command(rt: HostRuntime) {
    let words: [String; 0] = [];
    let read = command_of(rt.alloc(), &words);
    assert!(rt; matches!(read, Ok(None)));
}

/// Lines that ask for help.
const HELP: &[&str] = &[
    "--help",
    "-h",
    "help",
    "help analyse",
    "--version",
    "analyse --help",
    "analyse -h",
    "analyse --schema s --policies p --query always-denies --budget 10 --help",
];

#[test]
fn help_is_no_command(rt: HostRuntime) {
    assert!(rt; are_refused(rt.alloc(), HELP));
}

#[test]
fn worlds_are_replayed(rt: HostRuntime) {
    let wanted = Replay {
        schema: "s",
        policies: "p",
        world: "w",
    };
    assert!(rt;
        replays(
            rt.alloc(),
            "replay --schema s --policies p --world w",
            wanted
        )
    );
    assert!(rt;
        replays(
            rt.alloc(),
            "replay --world=w --schema s --policies p",
            wanted
        )
    );
}

fn is_log(alloc: Global, line: &str, environment: u32) -> bool {
    let wanted = Log {
        asked: asked(Question::Implies, Some("q")),
        budget: 10,
        environment,
    };
    reads(alloc, line, Some(Command::Log(wanted))).unwrap_or(false)
}

fn is_check(alloc: Global, line: &str, environment: u32) -> bool {
    let wanted = Check {
        asked: asked(Question::AlwaysDenies, None),
        environment,
        log: "l",
    };
    reads(alloc, line, Some(Command::Check(wanted))).unwrap_or(false)
}

#[test]
fn logs_are_written_and_checked(rt: HostRuntime) {
    let alloc = rt.alloc();
    let line = "log --schema s --policies p --against q --query implies --budget 10 --env 0";
    assert!(rt; is_log(alloc, line, 0));
    let line = "log --env=007 --schema s --policies p --against q --query implies --budget 10";
    assert!(rt; is_log(alloc, line, 7));
    let line = "check --schema s --policies p --query always-denies --env 4294967295 --log l";
    assert!(rt; is_check(alloc, line, u32::MAX));
    let line = "check --log=l --env 1 --schema s --policies p --query always-denies";
    assert!(rt; is_check(alloc, line, 1));
}

/// Lines of logs whose environment, or another option, is none of theirs.
const OTHER_PLACES: &[&str] = &[
    "check --schema s --policies p --query always-denies --log l --env 4294967296",
    "check --schema s --policies p --query always-denies --log l --env 18446744073709551616",
    "check --schema s --policies p --query always-denies --log l --env +1",
    "check --schema s --policies p --query always-denies --log l --env=-1",
    "check --schema s --policies p --query always-denies --log l --env ",
    "check --schema s --policies p --query always-denies --log l",
    "check --schema s --policies p --query always-denies --env 0",
    "check --schema s --policies p --query implies --log l --env 0",
    "check --schema s --policies p --query always-denies --budget 10 --log l --env 0",
    "log --schema s --policies p --query always-denies --budget 10",
    "log --schema s --policies p --query always-denies --env 0",
    "log --schema s --policies p --query always-denies --budget 10 --env 0 --log l",
    "analyse --schema s --policies p --query always-denies --budget 10 --env 0",
];

#[test]
fn other_places_are_refused(rt: HostRuntime) {
    assert!(rt; are_refused(rt.alloc(), OTHER_PLACES));
}

fn is_reduction(alloc: Global, line: &str, budget: u64) -> bool {
    let wanted = Reduce {
        asked: asked(Question::Equivalent, None),
        budget,
    };
    reads(alloc, line, Some(Command::Reduce(wanted))).unwrap_or(false)
}

#[test]
fn reductions_are_read(rt: HostRuntime) {
    let alloc = rt.alloc();
    assert!(rt; is_reduction(alloc, "reduce --schema s --policies p --budget 10", 10));
    assert!(rt; is_reduction(alloc, "reduce --budget=007 --policies=p --schema s", 7));
}

/// Lines with the options of another command.
const OPTIONS_OF_OTHERS: &[&str] = &[
    "replay --schema s --policies p",
    "replay --schema s --policies p --world w --budget 10",
    "analyse --schema s --policies p --world w",
    "reduce --schema s --policies p",
    "reduce --schema s --policies p --budget 0",
    "reduce --schema s --policies p --budget 10 --env 0",
    "reduce --schema s --policies p --budget 10 --query equivalent",
    "reduce --schema s --policies p --against q --budget 10",
];

#[test]
fn each_command_has_its_own_options(rt: HostRuntime) {
    assert!(rt; are_refused(rt.alloc(), OPTIONS_OF_OTHERS));
}

/// Lines that generate policies, and how many.
const SIZES: &[(&str, u64)] = &[
    ("generate --size 1", 1),
    ("generate --size 003", 3),
    ("generate --size=1000", 1000),
];

fn generates(alloc: Global, line: &str, size: u64) -> bool {
    reads(alloc, line, Some(Command::Generate(Generate { size }))).unwrap_or(false)
}

#[test]
fn policies_are_generated(rt: HostRuntime) {
    for &(line, size) in SIZES {
        assert!(rt; generates(rt.alloc(), line, size), "{line}");
    }
}

/// Lines with a size that is none, with none, or with another option.
const OTHER_SIZES: &[&str] = &[
    "generate --size 0",
    "generate --size 1001",
    "generate --size 18446744073709551617",
    "generate --size +3",
    "generate --size=-3",
    "generate --size 3.0",
    "generate --size ",
    "generate --size",
    "generate",
    "generate 3",
    "generate --size 3 --size 3",
    "generate --size 3 --budget 10",
    "analyse --schema s --policies p --query always-denies --budget 10 --size 3",
];

#[test]
fn other_sizes_are_refused(rt: HostRuntime) {
    assert!(rt; are_refused(rt.alloc(), OTHER_SIZES));
}
