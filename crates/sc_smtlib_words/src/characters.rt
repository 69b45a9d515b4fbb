//! Characters of texts and of fields' names, byte by byte.
ghost use Rattle.std.specs.Prelude.{◌≡◌, ◌≤◌, ◌++◌, ◌∷◌, [], IfOk, OnOk};
ghost use Rattle.std.specs.Char.{digit_value};
ghost use Rattle.sc_smtlib_words.specs.Characters.{label_at, label_in, label_next, more_hex, text_at, text_in, text_next};

use sc_lists::Seq;
use std::alloc::{AllocError, Global};

/// Where a byte stands.
#[derive(Clone, Copy)]
pub(crate) enum Place {
    /// At a character that stands for itself.
    Plain,
    /// Behind a quote.
    Quote,
    /// Behind a backslash.
    Slash,
    /// Behind the letter that follows it.
    Letter,
    /// In braces, behind digits of this value.
    Hex(u32),
}

/// The value of a hexadecimal digit.
fn digit(b: u8) -> u32
    ensures value { result ≡ digit_value b }
    ensures small { result ≤ 36 }
{
    if b < 48 {
        36
    } else if b < 58 {
        (b - 48) as u32
    } else if b < 65 {
        36
    } else if b < 91 {
        (b - 55) as u32
    } else if b < 97 {
        36
    } else if b < 123 {
        (b - 87) as u32
    } else {
        36
    }
}

fn more_hex(n: u32, b: u8) -> u32
    ensures { result ≡ more_hex n b }
{
    if n < 16_777_216 { n * 16 + digit(b) } else { n }
}

fn text_next(place: Place, b: u8) -> Place
    ensures { result ≡ text_next place b }
{
    match place {
        Place::Plain => {
            if b == 34 {
                Place::Quote
            } else if b == 92 {
                Place::Slash
            } else {
                Place::Plain
            }
        }
        Place::Quote => Place::Plain,
        Place::Slash => Place::Letter,
        Place::Letter => Place::Hex(0),
        Place::Hex(n) => {
            if b == 125 {
                Place::Plain
            } else {
                Place::Hex(more_hex(n, b))
            }
        }
    }
}

fn label_next(place: Place, b: u8) -> Place
    ensures { result ≡ label_next place b }
{
    match place {
        Place::Hex(n) => {
            if b == 125 {
                Place::Plain
            } else {
                Place::Hex(more_hex(n, b))
            }
        }
        _ => {
            if b == 123 {
                Place::Hex(0)
            } else {
                Place::Plain
            }
        }
    }
}

fn push(out: &mut Vec<u32>, c: u32) -> Result<(), AllocError>
    ensures { OnOk result (out.new.items ≡ out.old.items ++ c ∷ []) }
{
    out.push(c)?;
    Ok(())
}

fn take_text(out: &mut Vec<u32>, place: Place, b: u8) -> Result<(), AllocError>
    ensures { OnOk result (out.new.items ≡ out.old.items ++ text_at place b) }
{
    match place {
        Place::Plain => {
            if b == 34 || b == 92 {
                Ok(())
            } else {
                push(out, b as u32)
            }
        }
        Place::Quote => push(out, b as u32),
        Place::Slash => Ok(()),
        Place::Letter => Ok(()),
        Place::Hex(n) => { if b == 125 { push(out, n) } else { Ok(()) } }
    }
}

fn take_label(out: &mut Vec<u32>, place: Place, b: u8) -> Result<(), AllocError>
    ensures { OnOk result (out.new.items ≡ out.old.items ++ label_at place b) }
{
    match place {
        Place::Hex(n) => { if b == 125 { push(out, n) } else { Ok(()) } }
        _ => {
            if b == 123 {
                Ok(())
            } else {
                push(out, b as u32)
            }
        }
    }
}

/// The characters that a written text could only stand for, where it is one.
#[tactic(auto, unfolding(crate::specs::Characters::text_in))]
pub fn text_of(alloc: Global, bytes: &[u8]) -> Result<Seq<u32>, AllocError>
    ensures { IfOk result (λ t. t ≡ text_in bytes.now) }
{
    let mut place = Place::Plain;
    let mut out = Vec::new(alloc);
    for b in bytes {
        take_text(&mut out, place, *b)?;
        place = text_next(place, *b);
    }
    Ok(Seq::from_vec(out))
}

/// The characters that a written name of a field could only stand for, where it is one.
#[tactic(auto, unfolding(crate::specs::Characters::label_in))]
pub fn label_of(alloc: Global, bytes: &[u8]) -> Result<Seq<u32>, AllocError>
    ensures { IfOk result (λ t. t ≡ label_in bytes.now) }
{
    let mut place = Place::Plain;
    let mut out = Vec::new(alloc);
    for b in bytes {
        take_label(&mut out, place, *b)?;
        place = label_next(place, *b);
    }
    Ok(Seq::from_vec(out))
}
