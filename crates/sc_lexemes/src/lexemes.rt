//! The tokens of a file with what they say.
ghost use Rattle.std.specs.Prelude.{◌≡◌, IfOk, map};
ghost use Rattle.std.specs.Str.{IsUtf8};
ghost use Rattle.std.specs.declared.option.Option.TheVariants.{Some as OptionSome};
ghost use Rattle.sc_lexer.specs.Spans.{text_of, AreTokens};
ghost use Rattle.sc_lexer.specs.Tokens.{kind_of};
ghost use Rattle.sc_lexer.specs.declared.token.Kind.TheVariants.{Str};
ghost use Rattle.sc_lexemes.specs.Shapes.{part_of, shape_of, lexeme_of};

use crate::lexeme::{Lexeme, Shape};
use sc_ast::Place;
use sc_lexer::{Kind, Piece, Token, pieces, text, unescape};
use sc_lists::{Seq, Text};
use sc_pattern::Part;
use std::alloc::{AllocError, Global};

/// What a piece of a string is in a pattern.
fn part_of(piece: Piece) -> Part
    ensures { result ≡ part_of piece }
{
    match piece {
        Piece::Char(char) => Part::Char(char),
        Piece::Star => Part::Star,
        Piece::EscapedStar => Part::Char('*'),
    }
}

/// What the pieces of a string are in a pattern.
fn parts_of(alloc: Global, pieces: &[Piece]) -> Result<Seq<Part>, AllocError>
    ensures { IfOk result (λ parts. parts ≡ map part_of pieces.now) }
{
    let mut parts = Seq::new(alloc);
    for piece in pieces {
        parts.push(part_of(*piece))?;
    }
    Ok(parts)
}

/// The text of these bytes.
fn text_from(alloc: Global, bytes: &[u8]) -> Result<Text, AllocError>
    requires { IsUtf8 bytes.now }
    ensures { IfOk result (λ text. text ≡ bytes.now) }
{
    match std::str::from_utf8(bytes) {
        Ok(text) => Text::from_str(alloc, text),
        Err(_) => unreachable!(),
    }
}

/// What a string says.
fn string_shape(alloc: Global, text: &[u8]) -> Result<Shape, AllocError>
    ensures { IfOk result (λ shape. shape ≡ shape_of Str text.now) }
{
    let pieces = pieces(alloc, text)?;
    let parts = parts_of(alloc, pieces.as_slice())?;
    Ok(Shape::String(unescape(alloc, text)?, parts))
}

/// What a token of this kind and text says.
#[tactic(auto, using(crate::proofs::LexemeLaws::word_utf8, crate::proofs::LexemeLaws::number_utf8))]
fn shape_of(alloc: Global, kind: Kind, text: &[u8]) -> Result<Shape, AllocError>
    requires { kind_of text.now ≡ OptionSome kind }
    ensures { IfOk result (λ shape. shape ≡ shape_of kind text.now) }
{
    match kind {
        Kind::Word => Ok(Shape::Word(text_from(alloc, text)?)),
        Kind::Number => Ok(Shape::Number(text_from(alloc, text)?)),
        Kind::Str => string_shape(alloc, text),
        _ => Ok(Shape::Sign(kind)),
    }
}

/// A token of a file with what it says.
fn lexeme_of(alloc: Global, bytes: &[u8], token: Token) -> Result<Lexeme, AllocError>
    requires { kind_of (text_of bytes.now token) ≡ OptionSome token.kind }
    ensures { IfOk result (λ lexeme. lexeme ≡ lexeme_of bytes.now token) }
{
    let shape = shape_of(alloc, token.kind, text(bytes, token))?;
    Ok(Lexeme {
        place: Place {
            offset: token.span.start as u64,
        },
        shape,
    })
}

/// The tokens of a file with what they say.
pub fn lexemes_of(alloc: Global, bytes: &[u8], tokens: &[Token]) -> Result<Seq<Lexeme>, AllocError>
    requires { AreTokens bytes.now tokens.now }
    ensures { IfOk result (λ ts. ts ≡ map (lexeme_of bytes.now) tokens.now) }
{
    let mut lexemes = Seq::new(alloc);
    for token in tokens {
        lexemes.push(lexeme_of(alloc, bytes, *token)?)?;
    }
    Ok(lexemes)
}
