//! Writes the text of a log.
ghost use Rattle.std.specs.Prelude.{◌≡◌, ◌++◌, ◌∷◌, [], map, decimal, string_bytes, IfOk, OnOk};
ghost use Rattle.sc_logs.specs.Texts.{sign_text, word_text, lit_text, spaced, instance_words, learned_words, step_line, log_text};
ghost use Rattle.std.specs.List.{join_with_byte};

use crate::log::Log;
use itoa::Buffer;
use sc_clauses::{Instance, Learned, Lit, Step, Word};
use std::alloc::{AllocError, Global};

fn write_number(text: &mut String, number: u64) -> Result<(), AllocError>
    ensures { OnOk result (string_bytes text.new ≡ string_bytes text.old ++ decimal number) }
{
    let mut buffer = Buffer::new();
    text.push_str(buffer.format(number))
}

fn write_lit(text: &mut String, lit: Lit) -> Result<(), AllocError>
    ensures { OnOk result (string_bytes text.new ≡ string_bytes text.old ++ lit_text lit) }
{
    if lit.negated {
        text.push_str("-")?;
    }
    write_number(text, lit.atom)
}

fn sign_word(sign: Option<bool>) -> &'static str
    ensures { result.now ≡ sign_text sign ∷ [] }
{
    match sign {
        Some(true) => "+",
        Some(false) => "-",
        None => ".",
    }
}

fn write_signs(text: &mut String, signs: &[Option<bool>]) -> Result<(), AllocError>
    ensures { OnOk result (string_bytes text.new ≡ string_bytes text.old ++ map sign_text signs.now) }
{
    for sign in signs {
        text.push_str(sign_word(*sign))?;
    }
    Ok(())
}

fn write_word(text: &mut String, word: &Word) -> Result<(), AllocError>
    ensures { OnOk result (string_bytes text.new ≡ string_bytes text.old ++ word_text word.now) }
{
    match word {
        Word::Number(number) => write_number(text, *number),
        Word::Signs(signs) => write_signs(text, signs.as_slice()),
    }
}

fn write_words(text: &mut String, words: &[Word]) -> Result<(), AllocError>
    ensures { OnOk result (string_bytes text.new ≡ string_bytes text.old ++ spaced (map word_text words.now)) }
{
    for word in words {
        text.push_str(" ")?;
        write_word(text, word)?;
    }
    Ok(())
}

fn write_lits(text: &mut String, lits: &[Lit]) -> Result<(), AllocError>
    ensures { OnOk result (string_bytes text.new ≡ string_bytes text.old ++ spaced (map lit_text lits.now)) }
{
    for lit in lits {
        text.push_str(" ")?;
        write_lit(text, *lit)?;
    }
    Ok(())
}

fn write_hints(text: &mut String, hints: &[u64]) -> Result<(), AllocError>
    ensures { OnOk result (string_bytes text.new ≡ string_bytes text.old ++ spaced (map decimal hints.now)) }
{
    for hint in hints {
        text.push_str(" ")?;
        write_number(text, *hint)?;
    }
    Ok(())
}

#[tactic(auto, using(crate::proofs::TextLaws::instance_written))]
fn write_instance(text: &mut String, instance: &Instance) -> Result<(), AllocError>
    ensures { OnOk result (string_bytes text.new ≡ string_bytes text.old
        ++ join_with_byte 32 ((116 ∷ []) ∷ instance_words instance.now)) }
{
    text.push_str("t ")?;
    text.push_str(instance.rule.as_str())?;
    write_words(text, instance.words.as_slice())
}

#[tactic(auto, using(crate::proofs::TextLaws::learned_written))]
fn write_learned(text: &mut String, learned: &Learned) -> Result<(), AllocError>
    ensures { OnOk result (string_bytes text.new ≡ string_bytes text.old
        ++ join_with_byte 32 ((108 ∷ []) ∷ learned_words learned.now)) }
{
    text.push_str("l")?;
    write_lits(text, learned.clause.as_slice())?;
    text.push_str(" 0")?;
    write_hints(text, learned.hints.as_slice())?;
    text.push_str(" 0")
}

/// Writes the line of a step, without its newline. Its one fault is want of memory.
pub fn write_step(text: &mut String, step: &Step) -> Result<(), AllocError>
    ensures { OnOk result (string_bytes text.new ≡ string_bytes text.old ++ step_line step.now) }
{
    match step {
        Step::Instance(instance) => write_instance(text, instance),
        Step::Learned(learned) => write_learned(text, learned),
    }
}

/// The text of a log: the line `log 1`, then one for each step. Its one fault is want of memory.
pub fn write_log(alloc: Global, log: &Log) -> Result<String, AllocError>
    ensures { IfOk result (λ text. string_bytes text ≡ log_text log.now) }
{
    let mut text = String::from_str(alloc, "log 1\n")?;
    for step in log.steps() {
        write_step(&mut text, step)?;
        text.push_str("\n")?;
    }
    Ok(text)
}
