//! What stands at a place among the tokens.
ghost use Rattle.std.specs.Prelude.{◌≡◌, ◌<◌, ◌↔◌, length, IfSome, IfNone, IsTrue, true, false, ℕ, List};
ghost use Rattle.sc_lexemes.specs.Lexemes.{Is, Lacks, IsIdent, LacksIdent, LacksString, IsOperator, LacksOperator, IsPrefix, LacksPrefix, LacksThisPrefix, closing, starts, LacksStart, LacksWord, IsEffect, LacksEffect, IsClause, LacksClause, IsPolicyStart};
ghost use Rattle.sc_lexemes.specs.Tables.{least_digits};
ghost use Rattle.sc_ast.specs.declared.operator.UnaryOperator.TheVariants.{Negate};
ghost use Rattle.sc_lexemes.specs.declared.lexeme.Shape.TheVariants.{Word, Number, String as OfString, Sign};

use crate::lexeme::{Lexeme, Shape};
use crate::operator::{Close, Level, Operator};
use crate::tables::{level_of, operator_of, prefix_of};
use sc_ast::{ConditionKind, Effect, Place, UnaryOperator};
use sc_lexer::Kind;
use sc_lists::equals;
use sc_names::is_ident;
use sc_pattern::Part;

/// The place of this sign, if it stands there.
pub fn sign_at(ts: &[Lexeme], at: usize, kind: Kind) -> Option<Place>
    ensures found { IfSome result (λ p. Is ts.now at p (Sign kind)) }
    ensures within { IfSome result (λ _. at < length ts.now) }
    ensures lacks { IfNone result (Lacks ts.now at (Sign kind)) }
{
    let token = ts.get(at)?;
    match &token.shape {
        Shape::Sign(found) if *found == kind => Some(token.place),
        _ => None,
    }
}

/// Whether a token is this word.
fn is_word(shape: &Shape, word: &str) -> bool
    ensures { IsTrue result ↔ (shape.now ≡ Word word.now) }
{
    match shape {
        Shape::Word(found) => equals(found.as_str(), word),
        _ => false,
    }
}

/// The place of this word, if it stands there.
pub fn word_at(ts: &[Lexeme], at: usize, word: &str) -> Option<Place>
    ensures found { IfSome result (λ p. Is ts.now at p (Word word.now)) }
    ensures within { IfSome result (λ _. at < length ts.now) }
    ensures lacks { IfNone result (Lacks ts.now at (Word word.now)) }
{
    let token = ts.get(at)?;
    if is_word(&token.shape, word) {
        Some(token.place)
    } else {
        None
    }
}

/// The place and the text of an identifier, if one stands there.
pub fn ident_at(ts: &[Lexeme], at: usize) -> Option<(Place, &str)>
    ensures found { IfSome result (λ x. IsIdent ts.now at x.0 x.1.now) }
    ensures within { IfSome result (λ _. at < length ts.now) }
    ensures lacks { IfNone result (LacksIdent ts.now at) }
{
    let token = ts.get(at)?;
    match &token.shape {
        Shape::Word(word) if is_ident(word.as_str()) => Some((token.place, word.as_str())),
        _ => None,
    }
}

/// The place of a string with the text and the pattern that it means, if one stands there.
pub fn string_at(ts: &[Lexeme], at: usize) -> Option<(Place, &str, &[Part])>
    ensures found { IfSome result (λ x. Is ts.now at x.0 (OfString x.1.now x.2.now)) }
    ensures within { IfSome result (λ _. at < length ts.now) }
    ensures lacks { IfNone result (LacksString ts.now at) }
{
    let token = ts.get(at)?;
    match &token.shape {
        Shape::String(text, parts) => Some((token.place, text.as_str(), parts.as_slice())),
        _ => None,
    }
}

/// The place of an operator of this level, and which it is, if one stands there.
pub fn operator_at(ts: &[Lexeme], at: usize, level: Level) -> Option<(Place, Operator)>
    ensures found { IfSome result (λ x. IsOperator ts.now at x.0 level x.1) }
    ensures within { IfSome result (λ _. at < length ts.now) }
    ensures lacks { IfNone result (LacksOperator ts.now at level) }
{
    let token = ts.get(at)?;
    let operator = operator_of(&token.shape)?;
    if level_of(operator) == level {
        Some((token.place, operator))
    } else {
        None
    }
}

/// The place of a prefix, and which it is, if one stands there.
pub fn prefix_at(ts: &[Lexeme], at: usize) -> Option<(Place, UnaryOperator)>
    ensures found { IfSome result (λ x. IsPrefix ts.now at x.0 x.1) }
    ensures within { IfSome result (λ _. at < length ts.now) }
    ensures lacks { IfNone result (LacksPrefix ts.now at) }
{
    let token = ts.get(at)?;
    let operator = prefix_of(&token.shape)?;
    Some((token.place, operator))
}

/// The place of this prefix, if it stands there.
pub fn this_prefix_at(ts: &[Lexeme], at: usize, operator: UnaryOperator) -> Option<Place>
    ensures found { IfSome result (λ p. IsPrefix ts.now at p operator) }
    ensures within { IfSome result (λ _. at < length ts.now) }
    ensures lacks { IfNone result (LacksThisPrefix ts.now at operator) }
{
    let token = ts.get(at)?;
    let found = prefix_of(&token.shape)?;
    if found == operator {
        Some(token.place)
    } else {
        None
    }
}

/// The place of the token that ends what is enclosed, if it stands there.
pub fn close_at(ts: &[Lexeme], at: usize, close: Close) -> Option<Place>
    ensures found { IfSome result (λ p. Is ts.now at p (closing close)) }
    ensures within { IfSome result (λ _. at < length ts.now) }
    ensures lacks { IfNone result (Lacks ts.now at (closing close)) }
{
    match close {
        Close::Then => word_at(ts, at, "then"),
        Close::Else => word_at(ts, at, "else"),
        Close::Parenthesis => sign_at(ts, at, Kind::CloseParenthesis),
        Close::Bracket => sign_at(ts, at, Kind::CloseBracket),
        Close::Brace => sign_at(ts, at, Kind::CloseBrace),
    }
}

/// Whether a token is the number whose digits are these.
fn is_number(shape: &Shape, digits: &str) -> bool
    ensures { IsTrue result ↔ (shape.now ≡ Number digits.now) }
{
    match shape {
        Shape::Number(found) => equals(found.as_str(), digits),
        _ => false,
    }
}

/// The place of the digits that are a number of 64 bits with a minus before them alone, if they
/// stand there and the operator before them is a minus.
pub fn least_behind(ts: &[Lexeme], at: usize, operator: UnaryOperator) -> Option<Place>
    ensures found { IfSome result (λ p. Is ts.now at p (Number least_digits)) }
    ensures minus { IfSome result (λ _. operator ≡ Negate) }
    ensures within { IfSome result (λ _. at < length ts.now) }
    ensures lacks { IfNone result (operator ≡ Negate → Lacks ts.now at (Number least_digits)) }
{
    if operator != UnaryOperator::Negate {
        return None;
    }
    let token = ts.get(at)?;
    if is_number(&token.shape, "9223372036854775808") {
        Some(token.place)
    } else {
        None
    }
}

/// Whether a primary expression begins with a token.
#[tactic(auto, unfolding(crate::specs::Lexemes::starts))]
fn starts(shape: &Shape) -> bool
    ensures { result ≡ starts shape.now }
{
    match shape {
        Shape::Word(word) => {
            is_ident(word.as_str())
                || equals(word.as_str(), "true")
                || equals(word.as_str(), "false")
        }
        Shape::Number(_) | Shape::String(_, _) => true,
        Shape::Sign(kind) => match kind {
            Kind::OpenParenthesis | Kind::OpenBracket | Kind::OpenBrace => true,
            _ => false,
        },
    }
}

/// The token with which a primary expression begins, if one stands there.
pub fn start_at(ts: &[Lexeme], at: usize) -> Option<&Lexeme>
    ensures found { IfSome result (λ token. Is ts.now at token.now.place token.now.shape) }
    ensures starts { IfSome result (λ token. starts token.now.shape ≡ true) }
    ensures within { IfSome result (λ _. at < length ts.now) }
    ensures lacks { IfNone result (LacksStart ts.now at) }
{
    let token = ts.get(at)?;
    if starts(&token.shape) {
        Some(token)
    } else {
        None
    }
}

/// The place of a word, if one stands there.
pub fn any_word_at(ts: &[Lexeme], at: usize) -> Option<Place>
    ensures found { IfSome result (λ p. (w : List ℕ) × Is ts.now at p (Word w)) }
    ensures within { IfSome result (λ _. at < length ts.now) }
    ensures lacks { IfNone result (LacksWord ts.now at) }
{
    let token = ts.get(at)?;
    match &token.shape {
        Shape::Word(_) => Some(token.place),
        _ => None,
    }
}

/// The place of the word of an effect, and which it is, if one stands there.
pub fn effect_at(ts: &[Lexeme], at: usize) -> Option<(Place, Effect)>
    ensures found { IfSome result (λ x. IsEffect ts.now at x.0 x.1) }
    ensures within { IfSome result (λ _. at < length ts.now) }
    ensures lacks { IfNone result (LacksEffect ts.now at) }
{
    if let Some(place) = word_at(ts, at, "permit") {
        return Some((place, Effect::Permit));
    }
    if let Some(place) = word_at(ts, at, "forbid") {
        return Some((place, Effect::Forbid));
    }
    None
}

/// The place of the word of a clause, and which it is, if one stands there.
pub fn clause_at(ts: &[Lexeme], at: usize) -> Option<(Place, ConditionKind)>
    ensures found { IfSome result (λ x. IsClause ts.now at x.0 x.1) }
    ensures within { IfSome result (λ _. at < length ts.now) }
    ensures lacks { IfNone result (LacksClause ts.now at) }
{
    if let Some(place) = word_at(ts, at, "when") {
        return Some((place, ConditionKind::When));
    }
    if let Some(place) = word_at(ts, at, "unless") {
        return Some((place, ConditionKind::Unless));
    }
    None
}

/// Whether a policy begins there.
#[tactic(auto, using(crate::specs::Lexemes::annotation_starts, crate::specs::Lexemes::effect_starts))]
pub fn policy_at(ts: &[Lexeme], at: usize) -> bool
    ensures yes { result ≡ true → IsPolicyStart ts.now at }
    ensures no { result ≡ false → IsPolicyStart ts.now at → ⊥ }
{
    if let Some(_) = sign_at(ts, at, Kind::At) {
        return true;
    }
    if let Some(_) = effect_at(ts, at) {
        return true;
    }
    false
}
