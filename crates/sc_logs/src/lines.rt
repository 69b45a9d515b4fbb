//! Reads the line of a step.
ghost use Rattle.std.specs.Prelude.{◌≡◌, ◌∷◌, ℕ, List, IfOk, MatchBool, if◌then◌else◌};
ghost use Rattle.std.specs.Str.{bytes_eq};
ghost use Rattle.sc_logs.specs.Readings.{Reads};
ghost use Rattle.sc_logs.specs.Texts.{instance_words, hint_words, learned_words, step_line};
ghost use Rattle.sc_logs.specs.Writable.{are_hints, is_learned, is_writable};
ghost use Rattle.sc_footprint.specs.Written.{is_rule_word, is_instance};

use crate::line_words::LineWords;
use crate::log::is_rule_word;
use crate::words::{read_hints, read_lits, words_of};
use sc_clauses::{Instance, Learned, Lit, Step};
use sc_lists::{Seq, Text};
use std::alloc::{AllocError, Global};
use std::str;

/// Memory for the literals and the hints of a learned clause, which serves one line after another.
#[derive(Drop)]
pub struct Room {
    /// The literals of the clause.
    pub clause: Vec<Lit>,
    /// The numbers of its literals, where the line was read in one pass.
    pub codes: Vec<u32>,
    /// The hints.
    pub hints: Vec<u64>,
}

impl Room {
    /// No memory yet.
    pub fn new(alloc: Global) -> Room {
        Room {
            clause: Vec::new(alloc),
            codes: Vec::new(alloc),
            hints: Vec::new(alloc),
        }
    }
}

fn is_same(a: &[u8], b: &[u8]) -> bool
    ensures { result ≡ bytes_eq a.now b.now }
{
    a == b
}

/// Takes the first word of a line, and tells whether it is this one.
fn begins(words: &mut LineWords<'_>, first: &[u8]) -> bool
    ensures { MatchBool result (words.old ≡ first.now ∷ words.new) ((rest : List (List ℕ))
        → ¬ (words.old ≡ first.now ∷ rest)) }
{
    match words.next_word() {
        Some(word) => is_same(word, first),
        None => false,
    }
}

/// The rule's word, which is letters and digits.
fn rule_of(alloc: Global, word: &[u8]) -> Result<Option<Text>, AllocError>
    ensures { IfOk result (Reads is_rule_word (λ rule. rule) word.now) }
{
    if !is_rule_word(word) {
        return Ok(None);
    }
    let Ok(text) = str::from_utf8(word) else {
        return Ok(None);
    };
    let rule = Text::from_str(alloc, text)?;
    Ok(Some(rule))
}

fn instance_of(alloc: Global, words: &mut LineWords<'_>) -> Result<Option<Instance>, AllocError>
    ensures { IfOk result (Reads is_instance instance_words words.old) }
{
    let Some(first) = words.next_word() else {
        return Ok(None);
    };
    let Some(rule) = rule_of(alloc, first)? else {
        return Ok(None);
    };
    let Some(words) = words_of(alloc, words)? else {
        return Ok(None);
    };
    Ok(Some(Instance { rule, words }))
}

/// The instance whose line this is, without its newline.
pub fn read_instance(alloc: Global, line: &[u8]) -> Result<Option<Instance>, AllocError>
    ensures { IfOk result (Reads is_instance (λ i. step_line (Step.Instance i)) line.now) }
{
    let mut words = LineWords::new(line);
    if !begins(&mut words, b"t") {
        return Ok(None);
    }
    instance_of(alloc, &mut words)
}

/// Reads the hints that end a line, one at least, and the `0` after them. Tells whether there are
/// such.
fn read_last_hints(words: &mut LineWords<'_>, hints: &mut Vec<u64>) -> Result<bool, AllocError>
    ensures { IfOk result (λ found. Reads are_hints hint_words words.old
        (if found then Some hints.new.items else None)) }
{
    if !read_hints(words, hints)? {
        return Ok(false);
    }
    if hints.is_empty() {
        return Ok(false);
    }
    match words.next_word() {
        None => Ok(true),
        Some(_) => Ok(false),
    }
}

/// Reads a learned clause and its hints. Tells whether the words are such.
fn read_clause(words: &mut LineWords<'_>, room: &mut Room) -> Result<bool, AllocError>
    ensures { IfOk result (λ found. Reads is_learned learned_words words.old
        (if found then Some (record { clause = room.new.clause.items; hints = room.new.hints.items }) else None)) }
{
    if !read_lits(words, &mut room.clause)? {
        return Ok(false);
    }
    if !read_last_hints(words, &mut room.hints)? {
        return Ok(false);
    }
    Ok(true)
}

/// Reads a learned clause and its hints. Tells whether this is the line of such, without its
/// newline.
pub fn read_learned(line: &[u8], room: &mut Room) -> Result<bool, AllocError>
    ensures { IfOk result (λ found. Reads is_learned (λ l. step_line (Step.Learned l)) line.now
        (if found then Some (record { clause = room.new.clause.items; hints = room.new.hints.items }) else None)) }
{
    let mut words = LineWords::new(line);
    if !begins(&mut words, b"l") {
        return Ok(false);
    }
    read_clause(&mut words, room)
}

/// The step whose line this is, without its newline.
pub(crate) fn read_step(alloc: Global, line: &[u8]) -> Result<Option<Step>, AllocError>
    ensures { IfOk result (Reads is_writable step_line line.now) }
{
    let mut room = Room::new(alloc);
    if read_learned(line, &mut room)? {
        let Room {
            clause,
            codes: _,
            hints,
        } = room;
        return Ok(Some(Step::Learned(Learned {
            clause: Seq::from_vec(clause),
            hints: Seq::from_vec(hints),
        })));
    }
    match read_instance(alloc, line)? {
        Some(instance) => Ok(Some(Step::Instance(instance))),
        None => Ok(None),
    }
}
