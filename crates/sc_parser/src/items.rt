//! Reads lists of expressions, and the fields of records.
ghost use Rattle.std.specs.Prelude.{◌≤◌, ◌<◌, length, IfOk, IfErr, []};
ghost use Rattle.sc_lexemes.specs.Outcomes.{read, Halts};
ghost use Rattle.sc_parser.specs.Reads.{ReadsItems, ReadsFields};

use crate::expr::inner;
use sc_ast::Expr;
use sc_lexemes::{Close, Cursor, Lexeme, Stop, close_at, key, no_keys, sign_at};
use sc_lexer::Kind;
use sc_lists::{Seq, Text};
use std::alloc::Global;

/// Reads the items of a list, up to the token that ends it. A comma may stand before that token.
#[cycle(read)]
#[tactic(auto, using(crate::specs::Reads::items_end, crate::specs::Reads::item_halts, crate::specs::Reads::last_item, crate::specs::Reads::no_comma, crate::specs::Reads::more_items))]
pub(crate) fn items(
    alloc: Global,
    ts: &[Lexeme],
    close: Close,
    cursor: &mut Cursor,
) -> Result<Seq<Expr>, Stop>
    requires { cursor.old.at ≤ length ts.now }
    ensures forward { cursor.old.at ≤ cursor.new.at }
    ensures within { cursor.new.at ≤ length ts.now }
    ensures ended { IfOk result (λ _. cursor.new.at < length ts.now) }
    ensures ok { IfOk result (λ xs. ReadsItems ts.now close cursor.old [] (read xs cursor.new)) }
    ensures err { IfErr result (λ f. Halts (ReadsItems ts.now close cursor.old []) f cursor.new) }
{
    let mut xs = Seq::new(alloc);
    loop {
        if let Some(_) = close_at(ts, cursor.at, close) {
            return Ok(xs);
        }
        xs.push(inner(alloc, ts, cursor)?.into_inner())?;
        if let Some(_) = close_at(ts, cursor.at, close) {
            return Ok(xs);
        }
        let Some(_) = sign_at(ts, cursor.at, Kind::Comma) else {
            return Err(Stop::Unexpected);
        };
        *cursor = cursor.next();
    }
}

/// Reads the fields of a record, up to the brace that ends it. A comma may stand before it.
#[cycle(read)]
#[tactic(auto, using(crate::specs::Reads::fields_end, crate::specs::Reads::key_halts, crate::specs::Reads::no_colon, crate::specs::Reads::field_halts, crate::specs::Reads::last_field, crate::specs::Reads::no_field_comma, crate::specs::Reads::more_fields))]
pub(crate) fn fields(
    alloc: Global,
    ts: &[Lexeme],
    cursor: &mut Cursor,
) -> Result<Seq<(Text, Expr)>, Stop>
    requires { cursor.old.at ≤ length ts.now }
    ensures forward { cursor.old.at ≤ cursor.new.at }
    ensures within { cursor.new.at ≤ length ts.now }
    ensures ended { IfOk result (λ _. cursor.new.at < length ts.now) }
    ensures ok { IfOk result (λ fs. ReadsFields ts.now cursor.old [] (read fs cursor.new)) }
    ensures err { IfErr result (λ f. Halts (ReadsFields ts.now cursor.old []) f cursor.new) }
{
    let mut names = no_keys(alloc);
    let mut fs = Seq::new(alloc);
    loop {
        if let Some(_) = sign_at(ts, cursor.at, Kind::CloseBrace) {
            return Ok(fs);
        }
        let name = key(alloc, ts, cursor, &mut names)?;
        let Some(_) = sign_at(ts, cursor.at, Kind::Colon) else {
            return Err(Stop::Unexpected);
        };
        *cursor = cursor.next();
        let value = inner(alloc, ts, cursor)?;
        fs.push((name, value.into_inner()))?;
        if let Some(_) = sign_at(ts, cursor.at, Kind::CloseBrace) {
            return Ok(fs);
        }
        let Some(_) = sign_at(ts, cursor.at, Kind::Comma) else {
            return Err(Stop::Unexpected);
        };
        *cursor = cursor.next();
    }
}
