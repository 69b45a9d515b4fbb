//! Reads what has no operator.
ghost use Rattle.std.specs.Prelude.{◌≡◌, ◌≤◌, ◌<◌, length, IfOk, IfErr, true, false, None, List, ◌+◌};
ghost use Rattle.sc_lexer.specs.declared.token.Kind.TheVariants as kind;
ghost use Rattle.sc_lexemes.specs.declared.lexeme.Shape.TheVariants.{Word, Sign as OfSign};
ghost use Rattle.sc_lexemes.specs.Depth.{fits};
ghost use Rattle.sc_lexemes.specs.Lexemes.{Is, starts};
ghost use Rattle.sc_lexemes.specs.Outcomes.{read, Halts};
ghost use Rattle.sc_ast.specs.declared.place.Place.{Place as AnyPlace};
ghost use Rattle.sc_pattern.specs.declared.part.Part.{Part as AnyPart};
ghost use Rattle.sc_names.specs.Names.{is_ident};
ghost use Rattle.sc_lexemes.specs.Tables.{variable_of};
ghost use Rattle.sc_lexemes.specs.declared.lexeme.Shape.TheVariants.{Number, String as OfString};
ghost use Rattle.sc_lexemes.specs.Lexemes.{IsIdent, Lacks};
ghost use Rattle.sc_parser.specs.Reads.{ReadsPrimary};

use crate::expr::enclosed;
use crate::items::{fields, items};
use sc_ast::{Expr, Literal, Place};
use sc_lexemes::{
    Close, Cursor, Lexeme, Shape, Stop, applied, long_of, more_entity, sign_at, start_at,
    variable_of, word_at,
};
use sc_lexer::Kind;
use sc_lists::{Boxed, Text};
use sc_names::is_ident;
use std::alloc::Global;

/// Reads what has no operator.
#[cycle(read)]
#[tactic(auto, using(crate::specs::Reads::no_primary, crate::specs::Reads::primary_deep))]
pub(crate) fn primary(
    alloc: Global,
    ts: &[Lexeme],
    cursor: &mut Cursor,
) -> Result<Boxed<Expr>, Stop>
    requires { cursor.old.at ≤ length ts.now }
    ensures forward { cursor.old.at ≤ cursor.new.at }
    ensures within { cursor.new.at ≤ length ts.now }
    ensures ok { IfOk result (λ x. ReadsPrimary ts.now cursor.old (read x cursor.new)) }
    ensures err { IfErr result (λ f. Halts (ReadsPrimary ts.now cursor.old) f cursor.new) }
{
    let Some(token) = start_at(ts, cursor.at) else {
        return Err(Stop::Unexpected);
    };
    if !cursor.fits() {
        return Err(Stop::TooDeep);
    }
    match &token.shape {
        Shape::Word(word) => {
            let word = word.as_str();
            if is_ident(word) {
                named(alloc, ts, token.place, word, cursor)
            } else {
                truth(alloc, ts, token.place, word, cursor)
            }
        }
        Shape::Number(digits) => number(alloc, ts, token.place, digits.as_str(), cursor),
        Shape::String(text, _) => string_literal(alloc, ts, token.place, text.as_str(), cursor),
        Shape::Sign(kind) => opened(alloc, ts, token.place, *kind, cursor),
    }
}

/// Reads a number.
#[tactic(auto, using(crate::specs::Reads::number, crate::specs::Reads::number_large))]
fn number(
    alloc: Global,
    ts: &[Lexeme],
    place: Place,
    digits: &str,
    cursor: &mut Cursor,
) -> Result<Boxed<Expr>, Stop>
    requires here { Is ts.now cursor.old.at place (Number digits.now) }
    requires fits { fits cursor.old ≡ true }
    requires within { cursor.old.at < length ts.now }
    ensures forward { cursor.old.at ≤ cursor.new.at }
    ensures within { cursor.new.at ≤ length ts.now }
    ensures ok { IfOk result (λ x. ReadsPrimary ts.now cursor.old (read x cursor.new)) }
    ensures err { IfErr result (λ f. Halts (ReadsPrimary ts.now cursor.old) f cursor.new) }
{
    let Some(number) = long_of(digits) else {
        return Err(Stop::IntRange);
    };
    *cursor = cursor.next();
    Ok(Boxed::new(alloc, Expr::Literal(place, Literal::Long(number)))?)
}

/// Reads a string.
#[tactic(auto, using(crate::specs::Reads::text))]
fn string_literal(
    alloc: Global,
    ts: &[Lexeme],
    place: Place,
    text: &str,
    cursor: &mut Cursor,
) -> Result<Boxed<Expr>, Stop>
    requires here { (parts : List AnyPart) × Is ts.now cursor.old.at place (OfString text.now parts) }
    requires fits { fits cursor.old ≡ true }
    requires within { cursor.old.at < length ts.now }
    ensures forward { cursor.old.at ≤ cursor.new.at }
    ensures within { cursor.new.at ≤ length ts.now }
    ensures ok { IfOk result (λ x. ReadsPrimary ts.now cursor.old (read x cursor.new)) }
    ensures err { IfErr result (λ f. Halts (ReadsPrimary ts.now cursor.old) f cursor.new) }
{
    *cursor = cursor.next();
    let text = Text::from_str(alloc, text)?;
    Ok(Boxed::new(alloc, Expr::Literal(place, Literal::String(text)))?)
}

/// Reads `true` or `false`.
#[tactic(auto, using(crate::specs::Reads::truth, crate::specs::Reads::falsehood))]
fn truth(
    alloc: Global,
    ts: &[Lexeme],
    place: Place,
    word: &str,
    cursor: &mut Cursor,
) -> Result<Boxed<Expr>, Stop>
    requires here { Is ts.now cursor.old.at place (Word word.now) }
    requires starts { starts (Word word.now) ≡ true }
    requires reserved { is_ident word.now ≡ false }
    requires fits { fits cursor.old ≡ true }
    requires within { cursor.old.at < length ts.now }
    ensures forward { cursor.old.at ≤ cursor.new.at }
    ensures within { cursor.new.at ≤ length ts.now }
    ensures ok { IfOk result (λ x. ReadsPrimary ts.now cursor.old (read x cursor.new)) }
    ensures err { IfErr result (λ f. Halts (ReadsPrimary ts.now cursor.old) f cursor.new) }
{
    if let Some(place) = word_at(ts, cursor.at, "true") {
        *cursor = cursor.next();
        return Ok(Boxed::new(alloc, Expr::Literal(place, Literal::Bool(true)))?);
    }
    *cursor = cursor.next();
    Ok(Boxed::new(alloc, Expr::Literal(place, Literal::Bool(false)))?)
}

/// Reads what begins with an identifier: an entity's uid, a variable, or the call of a function.
#[cycle(read)]
#[tactic(auto, using(crate::specs::Reads::variable))]
fn named(
    alloc: Global,
    ts: &[Lexeme],
    place: Place,
    word: &str,
    cursor: &mut Cursor,
) -> Result<Boxed<Expr>, Stop>
    requires here { IsIdent ts.now cursor.old.at place word.now }
    requires fits { fits cursor.old ≡ true }
    requires within { cursor.old.at < length ts.now }
    ensures forward { cursor.old.at ≤ cursor.new.at }
    ensures within { cursor.new.at ≤ length ts.now }
    ensures ok { IfOk result (λ x. ReadsPrimary ts.now cursor.old (read x cursor.new)) }
    ensures err { IfErr result (λ f. Halts (ReadsPrimary ts.now cursor.old) f cursor.new) }
{
    if let Some(_) = sign_at(ts, cursor.at + 1, Kind::DoubleColon) {
        return entity_literal(alloc, ts, place, word, cursor);
    }
    if let Some(variable) = variable_of(word) {
        *cursor = cursor.next();
        return Ok(Boxed::new(alloc, Expr::Variable(place, variable))?);
    }
    function(alloc, ts, place, word, cursor)
}

/// Reads the uid of an entity.
#[tactic(auto, using(crate::specs::Reads::entity_primary, crate::specs::Reads::entity_primary_halts))]
fn entity_literal(
    alloc: Global,
    ts: &[Lexeme],
    place: Place,
    word: &str,
    cursor: &mut Cursor,
) -> Result<Boxed<Expr>, Stop>
    requires here { IsIdent ts.now cursor.old.at place word.now }
    requires colons { (q : AnyPlace) × Is ts.now (cursor.old.at + 1) q (OfSign kind.DoubleColon) }
    requires fits { fits cursor.old ≡ true }
    requires within { cursor.old.at < length ts.now }
    ensures forward { cursor.old.at ≤ cursor.new.at }
    ensures within { cursor.new.at ≤ length ts.now }
    ensures ok { IfOk result (λ x. ReadsPrimary ts.now cursor.old (read x cursor.new)) }
    ensures err { IfErr result (λ f. Halts (ReadsPrimary ts.now cursor.old) f cursor.new) }
{
    *cursor = cursor.next();
    let first = String::from_str(alloc, word)?;
    let entity = more_entity(alloc, ts, cursor, place, first)?;
    Ok(Boxed::new(
        alloc,
        Expr::Literal(entity.place, Literal::Entity(entity.uid)),
    )?)
}

/// Reads the call of a function.
#[cycle(read)]
#[tactic(auto, using(crate::specs::Reads::lone_ident, crate::proofs::CallLaws::arguments_refused, crate::specs::Reads::no_function, crate::specs::Reads::function))]
fn function(
    alloc: Global,
    ts: &[Lexeme],
    place: Place,
    word: &str,
    cursor: &mut Cursor,
) -> Result<Boxed<Expr>, Stop>
    requires here { IsIdent ts.now cursor.old.at place word.now }
    requires free { variable_of word.now ≡ None }
    requires lacks { Lacks ts.now (cursor.old.at + 1) (OfSign kind.DoubleColon) }
    requires fits { fits cursor.old ≡ true }
    requires within { cursor.old.at < length ts.now }
    ensures forward { cursor.old.at ≤ cursor.new.at }
    ensures within { cursor.new.at ≤ length ts.now }
    ensures ok { IfOk result (λ x. ReadsPrimary ts.now cursor.old (read x cursor.new)) }
    ensures err { IfErr result (λ f. Halts (ReadsPrimary ts.now cursor.old) f cursor.new) }
{
    *cursor = cursor.next();
    let Some(_) = sign_at(ts, cursor.at, Kind::OpenParenthesis) else {
        return Err(Stop::Unexpected);
    };
    *cursor = cursor.next();
    let arguments = items(alloc, ts, Close::Parenthesis, cursor)?;
    let Some(call) = applied(alloc, place, word, arguments)? else {
        return Err(Stop::BadCall);
    };
    *cursor = cursor.next();
    Ok(call)
}

/// Reads what begins with an opening bracket of any kind.
#[cycle(read)]
#[tactic(auto, using(crate::specs::Reads::parenthesis, crate::specs::Reads::set_halts, crate::specs::Reads::set, crate::specs::Reads::record_halts, crate::specs::Reads::fields), unfolding(sc_lexemes::specs::Lexemes::starts))]
fn opened(
    alloc: Global,
    ts: &[Lexeme],
    place: Place,
    kind: Kind,
    cursor: &mut Cursor,
) -> Result<Boxed<Expr>, Stop>
    requires here { Is ts.now cursor.old.at place (OfSign kind) }
    requires starts { starts (OfSign kind) ≡ true }
    requires fits { fits cursor.old ≡ true }
    requires within { cursor.old.at < length ts.now }
    ensures forward { cursor.old.at ≤ cursor.new.at }
    ensures within { cursor.new.at ≤ length ts.now }
    ensures ok { IfOk result (λ x. ReadsPrimary ts.now cursor.old (read x cursor.new)) }
    ensures err { IfErr result (λ f. Halts (ReadsPrimary ts.now cursor.old) f cursor.new) }
{
    *cursor = cursor.next();
    match kind {
        Kind::OpenParenthesis => enclosed(alloc, ts, Close::Parenthesis, cursor),
        Kind::OpenBracket => {
            let items = items(alloc, ts, Close::Bracket, cursor)?;
            *cursor = cursor.next();
            Ok(Boxed::new(alloc, Expr::Set(place, items))?)
        }
        Kind::OpenBrace => {
            let fields = fields(alloc, ts, cursor)?;
            *cursor = cursor.next();
            Ok(Boxed::new(alloc, Expr::Record(place, fields))?)
        }
        _ => unreachable!(),
    }
}
