//! Texts and names of fields, as they are written in a script.
ghost use Rattle.std.specs.Prelude.{◌≡◌, ◌<◌, ◌++◌, ◌∷◌, [], false, IfOk, OnOk, MatchOption};
ghost use Rattle.std.specs.Fmt.{digits, digit_glyph};
ghost use Rattle.std.specs.Str.{chars};
ghost use Rattle.sc_smtlib_forms.specs.Characters as texts;

use crate::filling::put_bytes;
use std::alloc::{AllocError, Global};

/// The digit of a number below 16, in lower case.
fn glyph(digit: u32) -> u8
    requires { digit < 16 }
    ensures { result ≡ digit_glyph false digit }
{
    if digit < 10 {
        48 + digit as u8
    } else {
        87 + digit as u8
    }
}

/// The hexadecimal digits of a number.
#[tactic(auto, using(crate::proofs::DigitLaws::ends_here, crate::proofs::DigitLaws::all_turns))]
fn hexadecimal(alloc: Global, number: u32) -> Result<Vec<u8>, AllocError>
    ensures { IfOk result (λ v. v.items ≡ digits 16 false number) }
{
    let mut out = Vec::new(alloc);
    let mut left = number;
    for turn in 0..64u32 {
        out.insert(0, glyph(left % 16))?;
        if left / 16 == 0 {
            return Ok(out);
        }
        left /= 16;
    }
    Ok(out)
}

fn put_byte(out: &mut Vec<u8>, b: u8) -> Result<(), AllocError>
    ensures { OnOk result (out.new.items ≡ out.old.items ++ b ∷ []) }
{
    out.push(b)?;
    Ok(())
}

fn put_braces(out: &mut Vec<u8>, alloc: Global, c: u32) -> Result<(), AllocError>
    ensures { OnOk result (out.new.items ≡ out.old.items ++ texts.in_braces c) }
{
    let number = hexadecimal(alloc, c)?;
    put_byte(out, b'{')?;
    put_bytes(out, number.as_slice())?;
    put_byte(out, b'}')?;
    Ok(())
}

fn is_letter_or_digit(c: u32) -> bool
    ensures { result ≡ texts.is_letter_or_digit c }
{
    c == 95 || (48 <= c && c <= 57 || (65 <= c && c <= 90 || 97 <= c && c <= 122))
}

fn put_label_character(out: &mut Vec<u8>, alloc: Global, c: u32) -> Result<(), AllocError>
    ensures { OnOk result (out.new.items ≡ out.old.items ++ texts.label_character c) }
{
    if is_letter_or_digit(c) {
        put_byte(out, c as u8)
    } else {
        put_braces(out, alloc, c)
    }
}

fn put_escape(out: &mut Vec<u8>, alloc: Global, c: u32) -> Result<(), AllocError>
    ensures { OnOk result (out.new.items ≡ out.old.items ++ 92 ∷ 117 ∷ texts.in_braces c) }
{
    put_byte(out, b'\\')?;
    put_byte(out, b'u')?;
    put_braces(out, alloc, c)?;
    Ok(())
}

fn put_quotes(out: &mut Vec<u8>) -> Result<(), AllocError>
    ensures { OnOk result (out.new.items ≡ out.old.items ++ 34 ∷ 34 ∷ []) }
{
    put_byte(out, b'"')?;
    put_byte(out, b'"')?;
    Ok(())
}

/// Puts a character of a text at the end.
pub fn put_text_character(out: &mut Vec<u8>, alloc: Global, c: u32) -> Result<(), AllocError>
    ensures { OnOk result (out.new.items ≡ out.old.items ++ texts.text_character c) }
{
    if c == 34 {
        put_quotes(out)
    } else if c == 92 || (c < 32 || 126 < c) {
        put_escape(out, alloc, c)
    } else {
        put_byte(out, c as u8)
    }
}

/// The first character of a text, and what follows it.
fn split_char(text: &str) -> Option<(char, &str)>
    ensures { MatchOption result (chars text.now ≡ []) (λ x. chars text.now ≡ x.0 ∷ chars x.1.now) }
{
    let mut characters = text.chars();
    let first = characters.next()?;
    Some((first, characters.as_str()))
}

/// A text as it is written between quotes: a quote is doubled, and a backslash and each character
/// outside U+0020 to U+007E is `\u{hex}`.
pub fn written_text(alloc: Global, text: &str) -> Result<Vec<u8>, AllocError>
    ensures { IfOk result (λ v. v.items ≡ texts.inner_text text.now) }
{
    let mut out = Vec::new(alloc);
    let mut rest = text;
    while let Some((c, later)) = split_char(rest) {
        put_text_character(&mut out, alloc, c as u32)?;
        rest = later;
    }
    Ok(out)
}

/// The name of a field as it is written: each character but letters, digits and `_` is `{hex}`.
pub fn written_label(alloc: Global, name: &str) -> Result<Vec<u8>, AllocError>
    ensures { IfOk result (λ v. v.items ≡ texts.label_text name.now) }
{
    let mut out = Vec::new(alloc);
    let mut rest = name;
    while let Some((c, later)) = split_char(rest) {
        put_label_character(&mut out, alloc, c as u32)?;
        rest = later;
    }
    Ok(out)
}
