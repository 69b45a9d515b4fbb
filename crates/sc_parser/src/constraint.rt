//! Reads what a scope asks.
ghost use Rattle.std.specs.Prelude.{◌≤◌, ◌<◌, length, IfOk, IfErr, [], codes};
ghost use Rattle.sc_lexemes.specs.Outcomes.{read, Halts};
ghost use Rattle.sc_lexemes.specs.declared.lexeme.Shape.TheVariants.{Word};
ghost use Rattle.sc_lexemes.specs.Lexemes.{Is};
ghost use Rattle.sc_parser.specs.ReadsFiles.{ReadsSlot, ReadsConstraint, ReadsEntities, ReadsActionConstraint};

use sc_ast::{ActionConstraint, Constraint, EntityLiteral, Place};
use sc_lexemes::{Cursor, Lexeme, Stop, entity, path, sign_at, word_at};
use sc_lexer::Kind;
use sc_lists::Seq;
use std::alloc::Global;

/// Reads an entity's uid where a template would have a slot.
#[tactic(auto, using(crate::specs::ReadsFiles::slot, crate::specs::ReadsFiles::no_slot))]
fn slot(alloc: Global, ts: &[Lexeme], cursor: &mut Cursor) -> Result<EntityLiteral, Stop>
    requires { cursor.old.at ≤ length ts.now }
    ensures forward { cursor.old.at ≤ cursor.new.at }
    ensures within { cursor.new.at ≤ length ts.now }
    ensures ok { IfOk result (λ x. ReadsSlot ts.now cursor.old (read x cursor.new)) }
    ensures err { IfErr result (λ f. Halts (ReadsSlot ts.now cursor.old) f cursor.new) }
{
    if let Some(_) = sign_at(ts, cursor.at, Kind::Question) {
        return Err(Stop::Template);
    }
    entity(alloc, ts, cursor)
}

/// Reads what is asked of the principal or of the resource.
#[tactic(auto, using(crate::specs::ReadsFiles::any, crate::specs::ReadsFiles::equal, crate::specs::ReadsFiles::equal_halts, crate::specs::ReadsFiles::within, crate::specs::ReadsFiles::within_halts))]
pub(crate) fn constraint(
    alloc: Global,
    ts: &[Lexeme],
    cursor: &mut Cursor,
) -> Result<Constraint, Stop>
    requires { cursor.old.at ≤ length ts.now }
    ensures forward { cursor.old.at ≤ cursor.new.at }
    ensures within { cursor.new.at ≤ length ts.now }
    ensures ok { IfOk result (λ x. ReadsConstraint ts.now cursor.old (read x cursor.new)) }
    ensures err { IfErr result (λ f. Halts (ReadsConstraint ts.now cursor.old) f cursor.new) }
{
    if let Some(place) = sign_at(ts, cursor.at, Kind::Equal) {
        *cursor = cursor.next();
        let entity = slot(alloc, ts, cursor)?;
        return Ok(Constraint::Equal(place, entity));
    }
    if let Some(place) = word_at(ts, cursor.at, "in") {
        *cursor = cursor.next();
        let entity = slot(alloc, ts, cursor)?;
        return Ok(Constraint::In(place, entity));
    }
    if let Some(place) = word_at(ts, cursor.at, "is") {
        return of_type(alloc, ts, place, cursor);
    }
    Ok(Constraint::Any)
}

/// Reads `is`, the type after it, and perhaps `in` and an entity's uid.
#[tactic(auto, using(crate::specs::ReadsFiles::type_halts, crate::specs::ReadsFiles::of_type, crate::specs::ReadsFiles::of_type_within_halts, crate::specs::ReadsFiles::of_type_within))]
fn of_type(
    alloc: Global,
    ts: &[Lexeme],
    place: Place,
    cursor: &mut Cursor,
) -> Result<Constraint, Stop>
    requires here { Is ts.now cursor.old.at place (Word (codes "is")) }
    requires within { cursor.old.at < length ts.now }
    ensures forward { cursor.old.at ≤ cursor.new.at }
    ensures within { cursor.new.at ≤ length ts.now }
    ensures ok { IfOk result (λ x. ReadsConstraint ts.now cursor.old (read x cursor.new)) }
    ensures err { IfErr result (λ f. Halts (ReadsConstraint ts.now cursor.old) f cursor.new) }
{
    *cursor = cursor.next();
    let type_name = path(alloc, ts, cursor)?;
    let Some(second) = word_at(ts, cursor.at, "in") else {
        return Ok(Constraint::Is(place, type_name));
    };
    *cursor = cursor.next();
    let entity = slot(alloc, ts, cursor)?;
    Ok(Constraint::IsIn(place, type_name, second, entity))
}

/// Reads the uids of a list, up to the bracket that ends it. A comma may stand before it.
#[tactic(auto, using(crate::specs::ReadsFiles::entities_end, crate::specs::ReadsFiles::entities_halt, crate::specs::ReadsFiles::last_entity, crate::specs::ReadsFiles::no_entity_comma, crate::specs::ReadsFiles::more_entities))]
fn entities(alloc: Global, ts: &[Lexeme], cursor: &mut Cursor) -> Result<Seq<EntityLiteral>, Stop>
    requires { cursor.old.at ≤ length ts.now }
    ensures forward { cursor.old.at ≤ cursor.new.at }
    ensures within { cursor.new.at ≤ length ts.now }
    ensures ended { IfOk result (λ _. cursor.new.at < length ts.now) }
    ensures ok { IfOk result (λ es. ReadsEntities ts.now cursor.old [] (read es cursor.new)) }
    ensures err { IfErr result (λ f. Halts (ReadsEntities ts.now cursor.old []) f cursor.new) }
{
    let mut entities = Seq::new(alloc);
    loop {
        if let Some(_) = sign_at(ts, cursor.at, Kind::CloseBracket) {
            return Ok(entities);
        }
        entities.push(entity(alloc, ts, cursor)?)?;
        if let Some(_) = sign_at(ts, cursor.at, Kind::CloseBracket) {
            return Ok(entities);
        }
        let Some(_) = sign_at(ts, cursor.at, Kind::Comma) else {
            return Err(Stop::Unexpected);
        };
        *cursor = cursor.next();
    }
}

/// Reads what is asked of the action.
#[tactic(auto, using(crate::specs::ReadsFiles::any_action, crate::specs::ReadsFiles::equal_action, crate::specs::ReadsFiles::equal_action_halts))]
pub(crate) fn action_constraint(
    alloc: Global,
    ts: &[Lexeme],
    cursor: &mut Cursor,
) -> Result<ActionConstraint, Stop>
    requires { cursor.old.at ≤ length ts.now }
    ensures forward { cursor.old.at ≤ cursor.new.at }
    ensures within { cursor.new.at ≤ length ts.now }
    ensures ok { IfOk result (λ x. ReadsActionConstraint ts.now cursor.old (read x cursor.new)) }
    ensures err { IfErr result (λ f. Halts (ReadsActionConstraint ts.now cursor.old) f cursor.new) }
{
    if let Some(place) = sign_at(ts, cursor.at, Kind::Equal) {
        *cursor = cursor.next();
        let entity = entity(alloc, ts, cursor)?;
        return Ok(ActionConstraint::Equal(place, entity));
    }
    if let Some(place) = word_at(ts, cursor.at, "in") {
        return within_actions(alloc, ts, place, cursor);
    }
    Ok(ActionConstraint::Any)
}

/// Reads `in`, and an action's uid or a list of them.
#[tactic(auto, using(crate::specs::ReadsFiles::within_action, crate::specs::ReadsFiles::within_action_halts, crate::specs::ReadsFiles::within_actions, crate::specs::ReadsFiles::within_actions_halt))]
fn within_actions(
    alloc: Global,
    ts: &[Lexeme],
    place: Place,
    cursor: &mut Cursor,
) -> Result<ActionConstraint, Stop>
    requires here { Is ts.now cursor.old.at place (Word (codes "in")) }
    requires within { cursor.old.at < length ts.now }
    ensures forward { cursor.old.at ≤ cursor.new.at }
    ensures within { cursor.new.at ≤ length ts.now }
    ensures ok { IfOk result (λ x. ReadsActionConstraint ts.now cursor.old (read x cursor.new)) }
    ensures err { IfErr result (λ f. Halts (ReadsActionConstraint ts.now cursor.old) f cursor.new) }
{
    *cursor = cursor.next();
    let Some(bracket) = sign_at(ts, cursor.at, Kind::OpenBracket) else {
        let entity = entity(alloc, ts, cursor)?;
        return Ok(ActionConstraint::In(place, entity));
    };
    *cursor = cursor.next();
    let entities = entities(alloc, ts, cursor)?;
    *cursor = cursor.next();
    Ok(ActionConstraint::InAny(place, bracket, entities))
}
