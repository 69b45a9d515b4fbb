//! Reads operands with operators between them.
ghost use Rattle.std.specs.Prelude.{◌≡◌, ◌≤◌, ◌<◌, length, IfOk, IfErr, codes};
ghost use Rattle.sc_lexemes.specs.declared.lexeme.Shape.TheVariants.{Word};
ghost use Rattle.sc_lexemes.specs.declared.operator.Level.TheVariants as level_is;
ghost use Rattle.sc_lexemes.specs.Lexemes.{Is};
ghost use Rattle.sc_lexemes.specs.Outcomes.{read, Halts};
ghost use Rattle.sc_parser.specs.Reads.{ReadsChain, ReadsOperand, ReadsRelation, ReadsTail};

use crate::prefix::unary;
use crate::tree;
use sc_ast::{Expr, Place};
use sc_lexemes::{Cursor, Level, Lexeme, Stop, joined, names, operator_at, path, string, word_at};
use sc_lists::Boxed;
use std::alloc::Global;

/// Reads operands of a level with its operators between them.
#[cycle(read)]
#[tactic(auto, using(crate::specs::Reads::chain, crate::specs::Reads::chain_halts, crate::specs::Reads::more_ends, crate::specs::Reads::more_halts, crate::specs::Reads::more))]
pub(crate) fn chain(
    alloc: Global,
    ts: &[Lexeme],
    level: Level,
    cursor: &mut Cursor,
) -> Result<Boxed<Expr>, Stop>
    requires within { cursor.old.at ≤ length ts.now }
    requires chains { level ≡ level_is.Relation → ⊥ }
    ensures forward { cursor.old.at ≤ cursor.new.at }
    ensures within { cursor.new.at ≤ length ts.now }
    ensures ok { IfOk result (λ x. ReadsChain ts.now level cursor.old (read x cursor.new)) }
    ensures err { IfErr result (λ f. Halts (ReadsChain ts.now level cursor.old) f cursor.new) }
{
    let mut so_far = operand(alloc, ts, level, cursor)?;
    while let Some((place, operator)) = operator_at(ts, cursor.at, level) {
        *cursor = cursor.past();
        let next = operand(alloc, ts, level, cursor)?;
        so_far = joined(alloc, operator, place, so_far, next)?;
    }
    Ok(so_far)
}

/// Reads an operand of a chain.
#[cycle(read)]
#[tactic(auto, using(crate::specs::Reads::operand_or, crate::specs::Reads::operand_and, crate::specs::Reads::operand_add, crate::specs::Reads::operand_multiply))]
fn operand(
    alloc: Global,
    ts: &[Lexeme],
    level: Level,
    cursor: &mut Cursor,
) -> Result<Boxed<Expr>, Stop>
    requires within { cursor.old.at ≤ length ts.now }
    requires chains { level ≡ level_is.Relation → ⊥ }
    ensures forward { cursor.old.at ≤ cursor.new.at }
    ensures within { cursor.new.at ≤ length ts.now }
    ensures ok { IfOk result (λ x. ReadsOperand ts.now level cursor.old (read x cursor.new)) }
    ensures err { IfErr result (λ f. Halts (ReadsOperand ts.now level cursor.old) f cursor.new) }
{
    match level {
        Level::Or => chain(alloc, ts, Level::And, cursor),
        Level::And => relation(alloc, ts, cursor),
        Level::Relation => unreachable!(),
        Level::Add => chain(alloc, ts, Level::Multiply, cursor),
        Level::Multiply => unary(alloc, ts, cursor),
    }
}

/// Reads one comparison, `has`, `like` or `is` at most.
#[cycle(read)]
#[tactic(auto, using(crate::specs::Reads::relation, crate::specs::Reads::relation_halts))]
fn relation(alloc: Global, ts: &[Lexeme], cursor: &mut Cursor) -> Result<Boxed<Expr>, Stop>
    requires { cursor.old.at ≤ length ts.now }
    ensures forward { cursor.old.at ≤ cursor.new.at }
    ensures within { cursor.new.at ≤ length ts.now }
    ensures ok { IfOk result (λ x. ReadsRelation ts.now cursor.old (read x cursor.new)) }
    ensures err { IfErr result (λ f. Halts (ReadsRelation ts.now cursor.old) f cursor.new) }
{
    let left = chain(alloc, ts, Level::Add, cursor)?;
    tail(alloc, ts, left, cursor)
}

/// Reads the rest of a relation behind its left side.
#[cycle(read)]
#[tactic(auto, using(crate::specs::Reads::no_tail, crate::specs::Reads::compare, crate::specs::Reads::compare_halts))]
fn tail(
    alloc: Global,
    ts: &[Lexeme],
    left: Boxed<Expr>,
    cursor: &mut Cursor,
) -> Result<Boxed<Expr>, Stop>
    requires { cursor.old.at ≤ length ts.now }
    ensures forward { cursor.old.at ≤ cursor.new.at }
    ensures within { cursor.new.at ≤ length ts.now }
    ensures ok { IfOk result (λ x. ReadsTail ts.now cursor.old left (read x cursor.new)) }
    ensures err { IfErr result (λ f. Halts (ReadsTail ts.now cursor.old left) f cursor.new) }
{
    if let Some((place, operator)) = operator_at(ts, cursor.at, Level::Relation) {
        *cursor = cursor.past();
        let right = chain(alloc, ts, Level::Add, cursor)?;
        return Ok(joined(alloc, operator, place, left, right)?);
    }
    if let Some(place) = word_at(ts, cursor.at, "has") {
        return has(alloc, ts, place, left, cursor);
    }
    if let Some(place) = word_at(ts, cursor.at, "like") {
        return like(alloc, ts, place, left, cursor);
    }
    if let Some(place) = word_at(ts, cursor.at, "is") {
        return is(alloc, ts, place, left, cursor);
    }
    Ok(left)
}

/// Reads `has` and the names after it.
#[tactic(auto, using(crate::specs::Reads::has, crate::specs::Reads::has_halts))]
fn has(
    alloc: Global,
    ts: &[Lexeme],
    place: Place,
    left: Boxed<Expr>,
    cursor: &mut Cursor,
) -> Result<Boxed<Expr>, Stop>
    requires here { Is ts.now cursor.old.at place (Word (codes "has")) }
    requires within { cursor.old.at < length ts.now }
    ensures forward { cursor.old.at ≤ cursor.new.at }
    ensures within { cursor.new.at ≤ length ts.now }
    ensures ok { IfOk result (λ x. ReadsTail ts.now cursor.old left (read x cursor.new)) }
    ensures err { IfErr result (λ f. Halts (ReadsTail ts.now cursor.old left) f cursor.new) }
{
    *cursor = cursor.past();
    let names = names(alloc, ts, cursor)?;
    Ok(tree::has(alloc, place, left, names)?)
}

/// Reads `like` and the pattern after it.
#[tactic(auto, using(crate::specs::Reads::like, crate::specs::Reads::like_halts))]
fn like(
    alloc: Global,
    ts: &[Lexeme],
    place: Place,
    left: Boxed<Expr>,
    cursor: &mut Cursor,
) -> Result<Boxed<Expr>, Stop>
    requires here { Is ts.now cursor.old.at place (Word (codes "like")) }
    requires within { cursor.old.at < length ts.now }
    ensures forward { cursor.old.at ≤ cursor.new.at }
    ensures within { cursor.new.at ≤ length ts.now }
    ensures ok { IfOk result (λ x. ReadsTail ts.now cursor.old left (read x cursor.new)) }
    ensures err { IfErr result (λ f. Halts (ReadsTail ts.now cursor.old left) f cursor.new) }
{
    *cursor = cursor.past();
    let (_, parts) = string(ts, cursor)?;
    Ok(tree::like(alloc, place, left, parts)?)
}

/// Reads `is`, the type after it, and perhaps `in` and what follows.
#[cycle(read)]
#[tactic(auto, using(crate::specs::Reads::is_halts, crate::specs::Reads::is_type, crate::specs::Reads::is_in_halts, crate::specs::Reads::is_in))]
fn is(
    alloc: Global,
    ts: &[Lexeme],
    place: Place,
    left: Boxed<Expr>,
    cursor: &mut Cursor,
) -> Result<Boxed<Expr>, Stop>
    requires here { Is ts.now cursor.old.at place (Word (codes "is")) }
    requires within { cursor.old.at < length ts.now }
    ensures forward { cursor.old.at ≤ cursor.new.at }
    ensures within { cursor.new.at ≤ length ts.now }
    ensures ok { IfOk result (λ x. ReadsTail ts.now cursor.old left (read x cursor.new)) }
    ensures err { IfErr result (λ f. Halts (ReadsTail ts.now cursor.old left) f cursor.new) }
{
    *cursor = cursor.past();
    let type_name = path(alloc, ts, cursor)?;
    let Some(second) = word_at(ts, cursor.at, "in") else {
        return Ok(tree::is(alloc, place, left, type_name)?);
    };
    *cursor = cursor.past();
    let right = chain(alloc, ts, Level::Add, cursor)?;
    Ok(tree::is_in(alloc, place, left, type_name, second, right)?)
}
