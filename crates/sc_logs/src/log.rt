//! Logs of a refutation.
ghost use Rattle.std.specs.Prelude.{◌≡◌, IsTrue};
ghost use Rattle.std.specs.List.{list_all};
ghost use Rattle.sc_logs.specs.Writable.{is_lit, is_hint, are_hints, is_learned, is_writable};
ghost use Rattle.sc_footprint.specs.Written.{is_number, is_letter_or_digit, is_rule_word, is_word, is_instance};

use sc_clauses::{Instance, Learned, Lit, Step, Word};
use sc_lists::Seq;
use std::marker::Model;

/// The steps of a refutation, numbered from 1. Each of them has a text.
#[derive(Drop)]
pub struct Log {
    steps: Seq<Step>,
}

impl Model for Log {
    ghost use Rattle.std.specs.Prelude.{List, IsTrue};
    ghost use Rattle.std.specs.List.{list_all};
    ghost use Rattle.sc_clauses.specs.declared.step.Step.{Step};
    ghost use Rattle.sc_logs.specs.Writable.{is_writable};

    ghost Value = { List Step };

    ghost view = { λ g. g.steps };

    ghost invariant = { λ g. IsTrue (list_all is_writable g.steps) };
}

impl Log {
    /// The log of steps that each have a text.
    pub fn new(steps: Seq<Step>) -> Log
        requires { IsTrue (list_all is_writable steps) }
        ensures { result ≡ steps }
    {
        Log { steps }
    }

    /// The steps.
    pub fn steps(&self) -> &[Step]
        ensures value { result.now ≡ self.now }
        ensures writable { IsTrue (list_all is_writable self.now) }
    {
        self.steps.as_slice()
    }
}

/// Whether a number has at most 18 digits.
fn is_number(number: u64) -> bool
    ensures { result ≡ is_number number }
{
    number < 1_000_000_000_000_000_000
}

fn are_letters_and_digits(bytes: &[u8]) -> bool
    ensures { result ≡ list_all is_letter_or_digit bytes.now }
{
    bytes.iter().all(|byte| byte.is_ascii_alphanumeric())
}

/// Whether a text is one or more letters and digits.
pub(crate) fn is_rule_word(bytes: &[u8]) -> bool
    ensures { result ≡ is_rule_word bytes.now }
{
    let all = are_letters_and_digits(bytes);
    !bytes.is_empty() && all
}

fn is_word(word: &Word) -> bool
    ensures { result ≡ is_word word.now }
{
    match word {
        Word::Number(number) => is_number(*number),
        Word::Signs(signs) => !signs.is_empty(),
    }
}

fn is_lit(lit: Lit) -> bool
    ensures { result ≡ is_lit lit }
{
    0 < lit.atom && is_number(lit.atom)
}

pub(crate) fn is_hint(hint: u64) -> bool
    ensures { result ≡ is_hint hint }
{
    0 < hint && is_number(hint)
}

fn are_words(words: &[Word]) -> bool
    ensures { result ≡ list_all is_word words.now }
{
    words.iter().all(|word| is_word(word))
}

fn are_lits(lits: &[Lit]) -> bool
    ensures { result ≡ list_all is_lit lits.now }
{
    lits.iter().all(|lit| is_lit(*lit))
}

fn all_hints(hints: &[u64]) -> bool
    ensures { result ≡ list_all is_hint hints.now }
{
    hints.iter().all(|hint| is_hint(*hint))
}

fn are_hints(hints: &[u64]) -> bool
    ensures { result ≡ are_hints hints.now }
{
    let all = all_hints(hints);
    !hints.is_empty() && all
}

fn is_instance(instance: &Instance) -> bool
    ensures { result ≡ is_instance instance.now }
{
    let is_rule = is_rule_word(instance.rule.as_str().as_bytes());
    let words = are_words(instance.words.as_slice());
    is_rule && words
}

fn is_learned(learned: &Learned) -> bool
    ensures { result ≡ is_learned learned.now }
{
    let lits = are_lits(learned.clause.as_slice());
    let hints = are_hints(learned.hints.as_slice());
    lits && hints
}

/// Whether a step has a text: its rule's word is one or more letters and digits, its numbers have
/// at most 18 digits, its literals and hints are other than 0, its signs are one or more, and a
/// learned clause has at least one hint.
pub fn is_writable(step: &Step) -> bool
    ensures { result ≡ is_writable step.now }
{
    match step {
        Step::Instance(instance) => is_instance(instance),
        Step::Learned(learned) => is_learned(learned),
    }
}

/// Whether each step has a text.
pub fn are_writable(steps: &Seq<Step>) -> bool
    ensures { result ≡ list_all is_writable steps.now }
{
    steps.as_slice().iter().all(|step| is_writable(step))
}
