//! The tokens of a file with what they say, and what is read of them.
use crate::samples::{at, is_uid};
use sc_lexemes::{
    Cursor, Level, Lexeme, Operator, Shape, Stop, entity, lexemes_of, names, operator_at, path,
    sign_at, string_at, word_at,
};
use sc_lexer::{Kind, tokens};
use sc_lists::Seq;
use sc_pattern::Part;
use std::alloc::Global;

/// The tokens of a file, none where it has a fault.
fn of_file(alloc: Global, file: &str) -> Seq<Lexeme> {
    let Ok(tokens) = tokens(alloc, file.as_bytes()) else {
        return Seq::new(alloc);
    };
    match lexemes_of(alloc, file.as_bytes(), tokens.as_slice()) {
        Ok(lexemes) => lexemes,
        Err(_) => Seq::new(alloc),
    }
}

/// Whether a token is this number.
fn is_number(token: Option<&Lexeme>, digits: &str) -> bool {
    let Some(token) = token else {
        return false;
    };
    match &token.shape {
        Shape::Number(found) => found.as_str() == digits,
        _ => false,
    }
}

fn is_string(ts: &[Lexeme]) -> bool {
    let parts = [Part::Char('a'), Part::Char('*'), Part::Star];
    string_at(ts, 1) == Some((at(5), "a**", parts.as_slice()))
}

fn is_relation(ts: &[Lexeme]) -> bool {
    let relation = operator_at(ts, 3, Level::Relation);
    sign_at(ts, 3, Kind::LessOrEqual) == Some(at(15))
        && relation == Some((at(15), Operator::LessOrEqual))
        && operator_at(ts, 3, Level::Add) == None
}

/// `like "a\**" 07 <=`.
fn are_said(ts: &[Lexeme]) -> bool {
    word_at(ts, 0, "like") == Some(at(0))
        && is_string(ts)
        && is_number(ts.get(2), "07")
        && is_relation(ts)
        && ts.len() == 4
}

#[test]
fn tokens_say(rt: HostRuntime) {
    let list = of_file(rt.alloc(), "like \"a\\**\" 07 <=");
    assert!(rt; are_said(list.as_slice()));
}

/// Whether a file begins with this uid, and the token of this number comes behind it.
fn has_entity(alloc: Global, file: &str, (type_name, id): (&str, &str), end: usize) -> bool {
    let list = of_file(alloc, file);
    let mut cursor = Cursor::outside(0);
    match entity(alloc, list.as_slice(), &mut cursor) {
        Ok(found) => is_uid(&found.uid, type_name, id) && cursor.at == end,
        Err(_) => false,
    }
}

/// How many names a file begins with, and how deep the token behind them lies.
fn count_of_names(alloc: Global, file: &str) -> Option<(usize, usize)> {
    let list = of_file(alloc, file);
    let mut cursor = Cursor::outside(0);
    match names(alloc, list.as_slice(), &mut cursor) {
        Ok(found) => Some((found.len(), cursor.depth)),
        Err(_) => None,
    }
}

/// Why a file begins with no path, and at which token.
fn path_stop(alloc: Global, file: &str) -> Option<(Stop, usize)> {
    let list = of_file(alloc, file);
    let mut cursor = Cursor::outside(0);
    match path(alloc, list.as_slice(), &mut cursor) {
        Ok(_) => None,
        Err(stop) => Some((stop, cursor.at)),
    }
}

#[test]
fn names_and_uids(rt: HostRuntime) {
    let alloc = rt.alloc();
    assert!(rt; has_entity(alloc, "A::B::\"c\" a", ("A::B", "c"), 5));
    assert!(rt; count_of_names(alloc, "a.b.c A") == Some((3, 2)));
    assert!(rt; count_of_names(alloc, "\"a b\".c") == Some((1, 0)));
    assert!(rt; path_stop(alloc, "A::in") == Some((Stop::Unexpected, 2)));
}
