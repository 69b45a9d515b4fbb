//! Reads prefixes.
ghost use Rattle.std.specs.Prelude.{◌≤◌, ◌<◌, length, IfOk, IfErr};
ghost use Rattle.sc_lexemes.specs.Outcomes.{read, Halts};
ghost use Rattle.sc_parser.specs.Reads.{ReadsUnary, ReadsPrefixes};

use crate::member::{accesses, member};
use sc_ast::{Expr, Literal, UnaryOperator};
use sc_lexemes::{Cursor, Lexeme, Stop, least_behind, prefix_at, prefixed, this_prefix_at};
use sc_lists::Boxed;
use std::alloc::Global;

/// Reads up to four prefixes of one kind, and what they stand before.
#[cycle(read)]
#[tactic(auto, using(crate::specs::Reads::no_prefix, crate::specs::Reads::prefixes))]
pub(crate) fn unary(alloc: Global, ts: &[Lexeme], cursor: &mut Cursor) -> Result<Boxed<Expr>, Stop>
    requires { cursor.old.at ≤ length ts.now }
    ensures forward { cursor.old.at ≤ cursor.new.at }
    ensures within { cursor.new.at ≤ length ts.now }
    ensures ok { IfOk result (λ x. ReadsUnary ts.now cursor.old (read x cursor.new)) }
    ensures err { IfErr result (λ f. Halts (ReadsUnary ts.now cursor.old) f cursor.new) }
{
    match prefix_at(ts, cursor.at) {
        None => member(alloc, ts, cursor),
        Some((_, operator)) => prefixes(alloc, ts, operator, 4, cursor),
    }
}

/// Reads at most so many prefixes of this kind, and what they stand before.
#[cycle(read)]
#[tactic(auto, using(crate::specs::Reads::prefixes_spent, crate::specs::Reads::prefixes_end, crate::specs::Reads::prefix_deep, crate::proofs::PrefixLaws::least_refused, crate::proofs::PrefixLaws::least_read, crate::proofs::PrefixLaws::prefix_refused, crate::proofs::PrefixLaws::prefix_read))]
fn prefixes(
    alloc: Global,
    ts: &[Lexeme],
    operator: UnaryOperator,
    left: u8,
    cursor: &mut Cursor,
) -> Result<Boxed<Expr>, Stop>
    requires { cursor.old.at ≤ length ts.now }
    ensures forward { cursor.old.at ≤ cursor.new.at }
    ensures within { cursor.new.at ≤ length ts.now }
    ensures ok { IfOk result (λ x. ReadsPrefixes ts.now operator left cursor.old (read x cursor.new)) }
    ensures err { IfErr result (λ f. Halts (ReadsPrefixes ts.now operator left cursor.old) f cursor.new) }
{
    if left == 0 {
        return member(alloc, ts, cursor);
    }
    let Some(place) = this_prefix_at(ts, cursor.at, operator) else {
        return member(alloc, ts, cursor);
    };
    if !cursor.fits() {
        return Err(Stop::TooDeep);
    }
    *cursor = cursor.past();
    if let Some(_) = least_behind(ts, cursor.at, operator) {
        if !cursor.fits() {
            return Err(Stop::TooDeep);
        }
        *cursor = cursor.next();
        let least = Boxed::new(alloc, Expr::Literal(place, Literal::Long(i64::MIN)))?;
        return accesses(alloc, ts, least, cursor);
    }
    let x = prefixes(alloc, ts, operator, left - 1, cursor)?;
    Ok(prefixed(alloc, place, operator, x)?)
}
