//! Tests of the tokens of policies and of their texts.
use sc_lexer::Kind::{
    And, CloseBrace, CloseParenthesis, Colon, Comma, Dot, DoubleColon, Equal, Less, LessOrEqual,
    Number, OpenBrace, OpenParenthesis, Semicolon, Str, Word,
};
use sc_lexer::LexFault::{BadEscape, BadToken, BadUtf8};
use sc_lexer::Piece::{Char, EscapedStar, Star};
use sc_lexer::{Kind, LexFault, Piece, Span, Token, pieces, text, tokens, unescape};
use sc_lists::{Fault, Seq};
use std::alloc::{AllocError, Global};
use std::test::Fail;

const POLICY: &str = "permit(principal, action, resource) when { context.mfa };";

/// The kinds of its tokens.
const KINDS: &[Kind] = &[
    Word,
    OpenParenthesis,
    Word,
    Comma,
    Word,
    Comma,
    Word,
    CloseParenthesis,
    Word,
    OpenBrace,
    Word,
    Dot,
    Word,
    CloseBrace,
    Semicolon,
];

/// Whether the tokens have these kinds, in order.
fn are_kinds(list: &Seq<Token>, kinds: &[Kind]) -> bool {
    if list.len() != kinds.len() {
        return false;
    }
    list.as_slice()
        .iter()
        .zip(kinds)
        .all(|(token, kind)| token.kind == *kind)
}

/// Whether the tokens of a file have these kinds, in order.
fn has_kinds(alloc: Global, file: &str, kinds: &[Kind]) -> bool {
    match tokens(alloc, file.as_bytes()) {
        Ok(list) => are_kinds(&list, kinds),
        Err(_) => false,
    }
}

/// The token of a file at a place of the list, where there is one.
fn token_at(alloc: Global, file: &[u8], at: usize) -> Option<Token> {
    match tokens(alloc, file) {
        Ok(list) => Some(*list.get(at)?),
        Err(_) => None,
    }
}

fn has_span(token: Option<Token>, start: usize, end: usize) -> bool {
    match token {
        Some(token) => token.span == Span { start, end },
        None => false,
    }
}

fn has_text(file: &[u8], token: Option<Token>, written: &[u8]) -> bool {
    match token {
        Some(token) => text(file, token) == written,
        None => false,
    }
}

#[test]
fn policy(rt: HostRuntime) {
    assert!(rt; has_kinds(rt.alloc(), POLICY, KINDS));
    let context = token_at(rt.alloc(), POLICY.as_bytes(), 10);
    assert!(rt; has_span(context, 43, 50));
    assert!(rt; has_text(POLICY.as_bytes(), context, b"context"));
}

/// Files, each with the kinds of its tokens.
const FILES: &[(&str, &[Kind])] = &[
    ("", &[]),
    (" \t\r\n\u{a0}\u{2003}// nothing", &[]),
    ("// a\n// b\u{2028}c\r", &[]),
    ("// up to here\ra", &[Word]),
    ("a1::_:1a", &[Word, DoubleColon, Word, Colon, Number, Word]),
    ("<=<===&&", &[LessOrEqual, LessOrEqual, Equal, And]),
    ("<<=", &[Less, LessOrEqual]),
    ("\"//\"a\"\\\"\"1", &[Str, Word, Str, Number]),
    ("like // a pattern\n \"a\\*\"", &[Word, Str]),
    ("\"\\n\\r\\t\\0\\\\\\\"\\'\\x7F\\u{10FFFF}\n\"", &[Str]),
];

#[test]
fn longest_match(rt: HostRuntime) {
    for &(file, kinds) in FILES {
        assert!(rt; has_kinds(rt.alloc(), file, kinds), "{file:?}");
    }
}

/// Whether a file has this fault.
fn has_fault(alloc: Global, file: &[u8], fault: LexFault) -> bool {
    match tokens(alloc, file) {
        Ok(_) => false,
        Err(told) => told == Fault::Told(fault),
    }
}

/// Files, each with its fault.
const FAULTS: &[(&[u8], LexFault)] = &[
    (b"\"\\q\"", BadEscape(1)),
    (b"a \"b", BadToken(2)),
    (b"\"\\q", BadToken(0)),
    (b"\"\\\"", BadToken(0)),
    (b"== \"a\\*\"", BadEscape(5)),
    (b"like \"\" \"\\*\"", BadEscape(9)),
    (b"liked \"\\*\"", BadEscape(7)),
    (b"\"\\x80\"", BadEscape(1)),
    (b"\"\\u{D800}\"", BadEscape(1)),
    (b"\"\\u{}\"", BadEscape(1)),
    (b"\"\\u{0000041}\"", BadEscape(1)),
    (b"\"\\q\" #", BadEscape(1)),
    (b"# \"\\q\"", BadToken(0)),
    (b"a&b", BadToken(1)),
    (b"a /b", BadToken(2)),
    (b"ab\xffc", BadUtf8(2)),
    (b"#\xe2\x82", BadUtf8(1)),
];

#[test]
fn faults(rt: HostRuntime) {
    for &(file, fault) in FAULTS {
        assert!(rt; has_fault(rt.alloc(), file, fault), "{file:?}");
    }
}

/// Whether a pattern's token has these pieces.
fn has_pieces(alloc: Global, text: &str, wanted: &[Piece]) -> Result<bool, AllocError> {
    Ok(pieces(alloc, text.as_bytes())?.as_slice() == wanted)
}

/// Tokens, each with the pieces of its pattern.
const PATTERNS: &[(&str, &[Piece])] = &[
    ("\"\"", &[]),
    ("\"a*\\*\"", &[Char('a'), Star, EscapedStar]),
    ("\"\\x2A\\u{2a}é\"", &[Char('*'), Char('*'), Char('é')]),
];

#[test]
fn patterns(rt: HostRuntime) -> Result<(), Fail> {
    for &(text, wanted) in PATTERNS {
        assert!(rt; has_pieces(rt.alloc(), text, wanted)?, "{text}");
    }
    Ok(())
}

/// Whether a string's token stands for this text.
fn stands_for(alloc: Global, token: &str, text: &str) -> Result<bool, AllocError> {
    Ok(unescape(alloc, token.as_bytes())?.as_str() == text)
}

/// Tokens, each with the text of its string.
const STRINGS: &[(&str, &str)] = &[
    ("\"\"", ""),
    ("\"a*\\*//\n\"", "a**//\n"),
    ("\"\\n\\r\\t\\0\\\\\\\"\\'\"", "\n\r\t\0\\\"'"),
    ("\"\\x41\\u{e9}\\u{10FFFF}é\"", "Aé\u{10FFFF}é"),
];

#[test]
fn strings(rt: HostRuntime) -> Result<(), Fail> {
    for &(token, text) in STRINGS {
        assert!(rt; stands_for(rt.alloc(), token, text)?, "{token}");
    }
    Ok(())
}
