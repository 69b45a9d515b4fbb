//! The text of a uid, `Type::"id"`, and the escapes in it.
ghost use Rattle.std.specs.Prelude.{◌≡◌, ℕ, List, ◌<◌, ◌++◌, codes, IfOk, OnOk, string_bytes};
ghost use Rattle.std.specs.Char.{digit_char, encode_utf8};
ghost use Rattle.sc_names.specs.declared.uid.Uid.{Uid as AnyUid};
ghost use Rattle.sc_names.specs.Escapes.{hex, escaped_text, uid_text};

use crate::uid::Uid;
use std::alloc::{AllocError, Global};

/// The hexadecimal digit of a number below 16, in lower case.
fn hex_digit(digit: u8) -> char
    requires { digit < 16 }
    ensures { result ≡ digit_char digit }
{
    if digit < 10 {
        (b'0' + digit) as char
    } else {
        (b'a' - 10 + digit) as char
    }
}

/// Puts a number at the end in hexadecimal digits, in lower case and without leading zeros.
fn put_hex(out: &mut String, number: u8) -> Result<(), AllocError>
    ensures { OnOk result (string_bytes out.new ≡ string_bytes out.old ++ hex number) }
{
    if number >= 16 {
        out.push(hex_digit(number / 16))?;
    }
    out.push(hex_digit(number % 16))
}

/// Puts `\u{hex}` at the end.
fn put_code(out: &mut String, number: u8) -> Result<(), AllocError>
    ensures { OnOk result (string_bytes out.new ≡ string_bytes out.old ++ (codes "\\u{" ++ hex number ++ codes "}")) }
{
    out.push_str("\\u{")?;
    put_hex(out, number)?;
    out.push('}')
}

/// Puts a character at the end, escaped.
#[tactic(auto, using(crate::proofs::EscapeLaws::escaped_text_plain), unfolding(crate::specs::Escapes::escaped))]
fn put_char(out: &mut String, c: char) -> Result<(), AllocError>
    ensures { OnOk result (string_bytes out.new ≡ string_bytes out.old ++ escaped_text (encode_utf8 c)) }
{
    match c {
        '\\' => out.push_str("\\\\"),
        '"' => out.push_str("\\\""),
        '\n' => out.push_str("\\n"),
        '\r' => out.push_str("\\r"),
        '\t' => out.push_str("\\t"),
        '\0' => out.push_str("\\0"),
        '\u{1}'..='\u{1f}' | '\u{7f}' => put_code(out, c as u8),
        _ => out.push(c),
    }
}

/// Puts a text at the end, with `\\`, `\"`, `\n`, `\r`, `\t`, `\0` for these characters, and `\u{hex}`
/// for the others below U+0020 and for U+007F. Where memory runs out, a part of it may be put.
#[tactic(auto, using(crate::proofs::EscapeLaws::escaped_text_more))]
pub fn put_escaped(out: &mut String, text: &str) -> Result<(), AllocError>
    ensures { OnOk result (string_bytes out.new ≡ string_bytes out.old ++ escaped_text text.now) }
{
    for c in text.chars() {
        put_char(out, c)?;
    }
    Ok(())
}

/// Puts the text of a uid at the end. Where memory runs out, a part of it may be put.
#[tactic(auto, unfolding(crate::specs::Escapes::uid_text))]
pub fn put_uid(out: &mut String, uid: &Uid) -> Result<(), AllocError>
    ensures { OnOk result (string_bytes out.new ≡ string_bytes out.old ++ uid_text uid.now) }
{
    put_escaped(out, uid.type_name.as_str())?;
    out.push_str("::\"")?;
    put_escaped(out, uid.id.as_str())?;
    out.push_str("\"")
}

/// The text of a uid: its type's name, `::`, and its id in double quotes, both escaped.
pub fn uid_text(alloc: Global, uid: &Uid) -> Result<String, AllocError>
    ensures { IfOk result (λ text. string_bytes text ≡ uid_text uid.now) }
{
    let mut text = String::new(alloc);
    put_uid(&mut text, uid)?;
    Ok(text)
}

/// Distinct uids have distinct texts, whatever their types' names and ids are, and distinct texts
/// are escaped to distinct ones.
#[tactic(auto, using(crate::proofs::EscapeLaws::uid_text_same, crate::proofs::EscapeLaws::escaped_text_same))]
pub fn uid_text_laws()
    ensures uids { (a b : AnyUid) → uid_text a ≡ uid_text b → a ≡ b }
    ensures texts { (s t : List ℕ) → escaped_text s ≡ escaped_text t → s ≡ t }
{}
