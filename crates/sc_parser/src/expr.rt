//! Reads expressions, and those that stand inside of something.
ghost use Rattle.std.specs.Prelude.{◌≤◌, ◌<◌, length, IfOk, IfErr};
ghost use Rattle.sc_lexemes.specs.Outcomes.{read, Halts};
ghost use Rattle.sc_parser.specs.Reads.{ReadsExpr, ReadsInner, ReadsEnclosed};

use crate::chain::chain;
use crate::tree::choice;
use sc_ast::Expr;
use sc_lexemes::{Close, Cursor, Level, Lexeme, Stop, close_at, word_at};
use sc_lists::Boxed;
use std::alloc::Global;

/// Reads an expression.
#[cycle(read)]
#[tactic(auto, using(crate::specs::Reads::chain_or, crate::specs::Reads::if_deep, crate::specs::Reads::condition_halts, crate::specs::Reads::then_halts, crate::specs::Reads::else_halts, crate::specs::Reads::if_then_else))]
fn expr(alloc: Global, ts: &[Lexeme], cursor: &mut Cursor) -> Result<Boxed<Expr>, Stop>
    requires { cursor.old.at ≤ length ts.now }
    ensures forward { cursor.old.at ≤ cursor.new.at }
    ensures within { cursor.new.at ≤ length ts.now }
    ensures ok { IfOk result (λ x. ReadsExpr ts.now cursor.old (read x cursor.new)) }
    ensures err { IfErr result (λ f. Halts (ReadsExpr ts.now cursor.old) f cursor.new) }
{
    let Some(place) = word_at(ts, cursor.at, "if") else {
        return chain(alloc, ts, Level::Or, cursor);
    };
    if !cursor.fits() {
        return Err(Stop::TooDeep);
    }
    *cursor = cursor.next();
    let condition = enclosed(alloc, ts, Close::Then, cursor)?;
    let first = enclosed(alloc, ts, Close::Else, cursor)?;
    let second = inner(alloc, ts, cursor)?;
    Ok(choice(alloc, place, condition, first, second)?)
}

/// Reads an expression inside of something.
#[cycle(read)]
#[tactic(auto, using(crate::specs::Reads::inner, crate::specs::Reads::inner_halts))]
pub(crate) fn inner(alloc: Global, ts: &[Lexeme], cursor: &mut Cursor) -> Result<Boxed<Expr>, Stop>
    requires { cursor.old.at ≤ length ts.now }
    ensures forward { cursor.old.at ≤ cursor.new.at }
    ensures within { cursor.new.at ≤ length ts.now }
    ensures ok { IfOk result (λ x. ReadsInner ts.now cursor.old (read x cursor.new)) }
    ensures err { IfErr result (λ f. Halts (ReadsInner ts.now cursor.old) f cursor.new) }
{
    let outer = *cursor;
    *cursor = outer.inside();
    let x = expr(alloc, ts, cursor)?;
    *cursor = outer.back(*cursor);
    Ok(x)
}

/// Reads an expression inside of something, and the token that ends it.
#[cycle(read)]
#[tactic(auto, using(crate::specs::Reads::enclosed, crate::specs::Reads::unclosed, crate::specs::Reads::enclosed_halts))]
pub(crate) fn enclosed(
    alloc: Global,
    ts: &[Lexeme],
    close: Close,
    cursor: &mut Cursor,
) -> Result<Boxed<Expr>, Stop>
    requires { cursor.old.at ≤ length ts.now }
    ensures forward { cursor.old.at ≤ cursor.new.at }
    ensures within { cursor.new.at ≤ length ts.now }
    ensures ok { IfOk result (λ x. ReadsEnclosed ts.now close cursor.old (read x cursor.new)) }
    ensures err { IfErr result (λ f. Halts (ReadsEnclosed ts.now close cursor.old) f cursor.new) }
{
    let x = inner(alloc, ts, cursor)?;
    let Some(_) = close_at(ts, cursor.at, close) else {
        return Err(Stop::Unexpected);
    };
    *cursor = cursor.next();
    Ok(x)
}
