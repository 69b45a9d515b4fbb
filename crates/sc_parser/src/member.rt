//! Reads accesses and calls of methods.
ghost use Rattle.std.specs.Prelude.{◌≤◌, ◌<◌, length, IfOk, IfErr};
ghost use Rattle.sc_ast.specs.declared.expr.Expr.{Expr as AnyExpr};
ghost use Rattle.sc_lexer.specs.declared.token.Kind.TheVariants as kind;
ghost use Rattle.sc_lexemes.specs.declared.lexeme.Shape.TheVariants.{Sign as OfSign};
ghost use Rattle.sc_lexemes.specs.Lexemes.{Is};
ghost use Rattle.sc_lexemes.specs.Outcomes.{Outcome, read, Halts};
ghost use Rattle.sc_parser.specs.Reads.{ReadsMember, ReadsAccesses};

use crate::items::items;
use crate::primary::primary;
use crate::tree::access;
use sc_ast::{Expr, Place};
use sc_lexemes::{Close, Cursor, Lexeme, Stop, called, ident, sign_at, string};
use sc_lexer::Kind;
use sc_lists::Boxed;
use std::alloc::Global;

/// Reads a primary expression with accesses and calls of methods.
#[cycle(read)]
#[tactic(auto, using(crate::specs::Reads::member, crate::specs::Reads::member_halts))]
pub(crate) fn member(alloc: Global, ts: &[Lexeme], cursor: &mut Cursor) -> Result<Boxed<Expr>, Stop>
    requires { cursor.old.at ≤ length ts.now }
    ensures forward { cursor.old.at ≤ cursor.new.at }
    ensures within { cursor.new.at ≤ length ts.now }
    ensures ok { IfOk result (λ x. ReadsMember ts.now cursor.old (read x cursor.new)) }
    ensures err { IfErr result (λ f. Halts (ReadsMember ts.now cursor.old) f cursor.new) }
{
    let first = primary(alloc, ts, cursor)?;
    accesses(alloc, ts, first, cursor)
}

/// Reads accesses and calls of methods behind what stands before them.
#[cycle(read)]
#[tactic(auto, using(crate::specs::Reads::no_access))]
pub(crate) fn accesses(
    alloc: Global,
    ts: &[Lexeme],
    receiver: Boxed<Expr>,
    cursor: &mut Cursor,
) -> Result<Boxed<Expr>, Stop>
    requires { cursor.old.at ≤ length ts.now }
    ensures forward { cursor.old.at ≤ cursor.new.at }
    ensures within { cursor.new.at ≤ length ts.now }
    ensures ok { IfOk result (λ x. ReadsAccesses ts.now cursor.old receiver (read x cursor.new)) }
    ensures err { IfErr result (λ f. Halts (ReadsAccesses ts.now cursor.old receiver) f cursor.new) }
{
    let mut so_far = receiver;
    loop {
        if let Some(place) = sign_at(ts, cursor.at, Kind::Dot) {
            so_far = dot(alloc, ts, place, so_far, cursor)?;
            continue;
        }
        let Some(place) = sign_at(ts, cursor.at, Kind::OpenBracket) else {
            return Ok(so_far);
        };
        so_far = index(alloc, ts, place, so_far, cursor)?;
    }
}

/// Reads a name in brackets.
#[tactic(auto, using(crate::specs::Reads::index_halts, crate::specs::Reads::index_unclosed, crate::specs::Reads::index))]
fn index(
    alloc: Global,
    ts: &[Lexeme],
    place: Place,
    receiver: Boxed<Expr>,
    cursor: &mut Cursor,
) -> Result<Boxed<Expr>, Stop>
    requires here { Is ts.now cursor.old.at place (OfSign kind.OpenBracket) }
    requires within { cursor.old.at < length ts.now }
    ensures forward { cursor.old.at < cursor.new.at }
    ensures within { cursor.new.at ≤ length ts.now }
    ensures ok { IfOk result (λ x. (o : Outcome AnyExpr) → ReadsAccesses ts.now cursor.new x o
        → ReadsAccesses ts.now cursor.old receiver o) }
    ensures err { IfErr result (λ f. Halts (ReadsAccesses ts.now cursor.old receiver) f cursor.new) }
{
    *cursor = cursor.past();
    let (name, _) = string(ts, cursor)?;
    let Some(_) = sign_at(ts, cursor.at, Kind::CloseBracket) else {
        return Err(Stop::Unexpected);
    };
    *cursor = cursor.next();
    Ok(access(alloc, place, receiver, name)?)
}

/// Reads a name behind a dot, and what a method of this name is called with.
#[cycle(read)]
#[tactic(auto, using(crate::specs::Reads::dot_halts, crate::specs::Reads::access, crate::specs::Reads::arguments_halt, crate::specs::Reads::no_method, crate::specs::Reads::method))]
fn dot(
    alloc: Global,
    ts: &[Lexeme],
    place: Place,
    receiver: Boxed<Expr>,
    cursor: &mut Cursor,
) -> Result<Boxed<Expr>, Stop>
    requires here { Is ts.now cursor.old.at place (OfSign kind.Dot) }
    requires within { cursor.old.at < length ts.now }
    ensures forward { cursor.old.at < cursor.new.at }
    ensures within { cursor.new.at ≤ length ts.now }
    ensures ok { IfOk result (λ x. (o : Outcome AnyExpr) → ReadsAccesses ts.now cursor.new x o
        → ReadsAccesses ts.now cursor.old receiver o) }
    ensures err { IfErr result (λ f. Halts (ReadsAccesses ts.now cursor.old receiver) f cursor.new) }
{
    *cursor = cursor.past();
    let (_, name) = ident(ts, cursor)?;
    let Some(_) = sign_at(ts, cursor.at, Kind::OpenParenthesis) else {
        return Ok(access(alloc, place, receiver, name)?);
    };
    *cursor = cursor.next();
    let arguments = items(alloc, ts, Close::Parenthesis, cursor)?;
    let Some(call) = called(alloc, place, receiver, name, arguments)? else {
        return Err(Stop::BadCall);
    };
    *cursor = cursor.next();
    Ok(call)
}
