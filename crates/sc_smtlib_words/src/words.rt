//! The words of a line, read byte by byte.
ghost use Rattle.std.specs.Prelude.{◌≡◌, ◌++◌, ◌∷◌, [], IfOk, OnOk};
ghost use Rattle.sc_smtlib_words.specs.Words.{alone, ended, is_special, next_mode, so_far, words};

use sc_lists::Seq;
use std::alloc::{AllocError, Global};
use std::mem;

/// Where a byte stands.
#[derive(Clone, Copy)]
pub(crate) enum Mode {
    /// Between two words.
    Between,
    /// In a word without bars and quotes.
    InWord,
    /// Behind a bar, up to the next one.
    InBars,
    /// Behind a quote, up to the next one.
    InText,
    /// Behind a quote, which ends the text unless another one follows.
    AtQuote,
}

pub(crate) fn is_special(b: u8) -> bool
    ensures { result ≡ is_special b }
{
    b == 32 || b == 40 || b == 41
}

fn next_mode(mode: Mode, b: u8) -> Mode
    ensures { result ≡ next_mode mode b }
{
    match mode {
        Mode::Between => {
            if is_special(b) {
                Mode::Between
            } else if b == 124 {
                Mode::InBars
            } else if b == 34 {
                Mode::InText
            } else {
                Mode::InWord
            }
        }
        Mode::InWord => {
            if is_special(b) {
                Mode::Between
            } else {
                Mode::InWord
            }
        }
        Mode::InBars => {
            if b == 124 {
                Mode::Between
            } else {
                Mode::InBars
            }
        }
        Mode::InText => { if b == 34 { Mode::AtQuote } else { Mode::InText } }
        Mode::AtQuote => { if b == 34 { Mode::InText } else { Mode::Between } }
    }
}

/// Ends the word so far.
fn finish(alloc: Global, now: &mut Vec<u8>, words: &mut Vec<Seq<u8>>) -> Result<(), AllocError>
    ensures now { OnOk result (now.new.items ≡ []) }
    ensures words { OnOk result (words.new.items ≡ words.old.items ++ now.old.items ∷ []) }
{
    let word = mem::replace(now, Vec::new(alloc));
    words.push(Seq::from_vec(word))?;
    Ok(())
}

/// Puts a parenthesis as a word of its own.
fn stand_alone(alloc: Global, words: &mut Vec<Seq<u8>>, b: u8) -> Result<(), AllocError>
    ensures { OnOk result (words.new.items ≡ words.old.items ++ alone b) }
{
    if b == 40 || b == 41 {
        let mut word = Vec::new(alloc);
        word.push(b)?;
        words.push(Seq::from_vec(word))?;
        return Ok(());
    }
    Ok(())
}

/// Ends the word so far at a byte that is no part of it.
fn finish_before(
    alloc: Global,
    now: &mut Vec<u8>,
    words: &mut Vec<Seq<u8>>,
    b: u8,
) -> Result<(), AllocError>
    ensures now { OnOk result (now.new.items ≡ []) }
    ensures words { OnOk result (words.new.items ≡ words.old.items ++ now.old.items ∷ alone b) }
{
    finish(alloc, now, words)?;
    stand_alone(alloc, words, b)?;
    Ok(())
}

/// Takes in a byte that is part of the word so far.
fn go_on(now: &mut Vec<u8>, b: u8) -> Result<(), AllocError>
    ensures { OnOk result (now.new.items ≡ now.old.items ++ b ∷ []) }
{
    now.push(b)?;
    Ok(())
}

/// Takes in the next byte.
fn take_in(
    alloc: Global,
    mode: Mode,
    now: &mut Vec<u8>,
    words: &mut Vec<Seq<u8>>,
    b: u8,
) -> Result<(), AllocError>
    ensures now { OnOk result (now.new.items ≡ so_far mode now.old.items b) }
    ensures words { OnOk result (words.new.items ≡ words.old.items ++ ended mode now.old.items b) }
{
    match mode {
        Mode::Between => {
            now.clear();
            if is_special(b) {
                stand_alone(alloc, words, b)
            } else {
                go_on(now, b)
            }
        }
        Mode::InWord => {
            if is_special(b) {
                finish_before(alloc, now, words, b)
            } else {
                go_on(now, b)
            }
        }
        Mode::InBars => {
            go_on(now, b)?;
            if b == 124 {
                finish(alloc, now, words)
            } else {
                Ok(())
            }
        }
        Mode::InText => go_on(now, b),
        Mode::AtQuote => {
            if b == 34 {
                go_on(now, b)
            } else {
                finish_before(alloc, now, words, b)
            }
        }
    }
}

/// The words of a line.
#[tactic(auto, unfolding(crate::specs::Words::words))]
pub fn words_of(alloc: Global, text: &[u8]) -> Result<Vec<Seq<u8>>, AllocError>
    ensures { IfOk result (λ ws. ws.items ≡ words text.now) }
{
    let mut mode = Mode::Between;
    let mut now = Vec::new(alloc);
    let mut words = Vec::new(alloc);
    for b in text {
        take_in(alloc, mode, &mut now, &mut words, *b)?;
        mode = next_mode(mode, *b);
    }
    match mode {
        Mode::Between => Ok(words),
        _ => {
            words.push(Seq::from_vec(now))?;
            Ok(words)
        }
    }
}
