//! The three parts of a policy's scope.
ghost use Rattle.std.specs.Prelude.{◌≤◌, ◌<◌, length, IfOk, IfErr};
ghost use Rattle.sc_lexemes.specs.Outcomes.{read, Halts};
ghost use Rattle.sc_parser.specs.ReadsFiles.{ReadsScope, ReadsPrincipal, ReadsAction, ReadsResource, ReadsScopes};

use crate::constraint::{action_constraint, constraint};
use sc_ast::{ActionScope, Scope};
use sc_lexemes::{Cursor, Lexeme, Stop, sign_at, word_at};
use sc_lexer::Kind;
use sc_lists::Boxed;
use std::alloc::Global;

/// The scope of a policy.
#[derive(Drop)]
pub(crate) struct Scopes {
    /// Which principals it speaks of.
    pub principal: Boxed<Scope>,
    /// Which actions it speaks of.
    pub action: Boxed<ActionScope>,
    /// Which resources it speaks of.
    pub resource: Boxed<Scope>,
}

/// Reads this word, and what is asked of what it stands for.
#[tactic(auto, using(crate::specs::ReadsFiles::no_scope, crate::specs::ReadsFiles::constraint_halts, crate::specs::ReadsFiles::scope))]
fn scope(
    alloc: Global,
    ts: &[Lexeme],
    word: &str,
    cursor: &mut Cursor,
) -> Result<Boxed<Scope>, Stop>
    requires { cursor.old.at ≤ length ts.now }
    ensures forward { cursor.old.at ≤ cursor.new.at }
    ensures within { cursor.new.at ≤ length ts.now }
    ensures ok { IfOk result (λ x. ReadsScope ts.now word.now cursor.old (read x cursor.new)) }
    ensures err { IfErr result (λ f. Halts (ReadsScope ts.now word.now cursor.old) f cursor.new) }
{
    let Some(place) = word_at(ts, cursor.at, word) else {
        return Err(Stop::Unexpected);
    };
    *cursor = cursor.next();
    let constraint = constraint(alloc, ts, cursor)?;
    Ok(Boxed::new(alloc, Scope { place, constraint })?)
}

/// Reads the part on the principal, and the comma behind it.
#[tactic(auto, using(crate::specs::ReadsFiles::principal_halts, crate::specs::ReadsFiles::no_principal_comma, crate::specs::ReadsFiles::principal))]
fn principal(alloc: Global, ts: &[Lexeme], cursor: &mut Cursor) -> Result<Boxed<Scope>, Stop>
    requires { cursor.old.at ≤ length ts.now }
    ensures forward { cursor.old.at ≤ cursor.new.at }
    ensures within { cursor.new.at ≤ length ts.now }
    ensures ok { IfOk result (λ x. ReadsPrincipal ts.now cursor.old (read x cursor.new)) }
    ensures err { IfErr result (λ f. Halts (ReadsPrincipal ts.now cursor.old) f cursor.new) }
{
    let principal = scope(alloc, ts, "principal", cursor)?;
    let Some(_) = sign_at(ts, cursor.at, Kind::Comma) else {
        return Err(Stop::Unexpected);
    };
    *cursor = cursor.next();
    Ok(principal)
}

/// Reads the part on the action, and the comma behind it.
#[tactic(auto, using(crate::specs::ReadsFiles::no_action, crate::specs::ReadsFiles::action_halts, crate::specs::ReadsFiles::no_action_comma, crate::specs::ReadsFiles::action_scope))]
fn action(alloc: Global, ts: &[Lexeme], cursor: &mut Cursor) -> Result<Boxed<ActionScope>, Stop>
    requires { cursor.old.at ≤ length ts.now }
    ensures forward { cursor.old.at ≤ cursor.new.at }
    ensures within { cursor.new.at ≤ length ts.now }
    ensures ok { IfOk result (λ x. ReadsAction ts.now cursor.old (read x cursor.new)) }
    ensures err { IfErr result (λ f. Halts (ReadsAction ts.now cursor.old) f cursor.new) }
{
    let Some(place) = word_at(ts, cursor.at, "action") else {
        return Err(Stop::Unexpected);
    };
    *cursor = cursor.next();
    let constraint = action_constraint(alloc, ts, cursor)?;
    let action = Boxed::new(alloc, ActionScope { place, constraint })?;
    let Some(_) = sign_at(ts, cursor.at, Kind::Comma) else {
        return Err(Stop::Unexpected);
    };
    *cursor = cursor.next();
    Ok(action)
}

/// Reads the part on the resource, perhaps a comma, and the closing parenthesis.
#[tactic(auto, using(crate::specs::ReadsFiles::resource_halts, crate::specs::ReadsFiles::resource, crate::specs::ReadsFiles::scope_unclosed, crate::specs::ReadsFiles::resource_comma, crate::specs::ReadsFiles::scope_comma_unclosed))]
fn resource(alloc: Global, ts: &[Lexeme], cursor: &mut Cursor) -> Result<Boxed<Scope>, Stop>
    requires { cursor.old.at ≤ length ts.now }
    ensures forward { cursor.old.at ≤ cursor.new.at }
    ensures within { cursor.new.at ≤ length ts.now }
    ensures ok { IfOk result (λ x. ReadsResource ts.now cursor.old (read x cursor.new)) }
    ensures err { IfErr result (λ f. Halts (ReadsResource ts.now cursor.old) f cursor.new) }
{
    let resource = scope(alloc, ts, "resource", cursor)?;
    if let Some(_) = sign_at(ts, cursor.at, Kind::CloseParenthesis) {
        *cursor = cursor.next();
        return Ok(resource);
    }
    let Some(_) = sign_at(ts, cursor.at, Kind::Comma) else {
        return Err(Stop::Unexpected);
    };
    *cursor = cursor.next();
    let Some(_) = sign_at(ts, cursor.at, Kind::CloseParenthesis) else {
        return Err(Stop::Unexpected);
    };
    *cursor = cursor.next();
    Ok(resource)
}

/// Reads the scope in its parentheses.
#[tactic(auto, using(crate::specs::ReadsFiles::no_parenthesis, crate::specs::ReadsFiles::scopes_principal_halts, crate::specs::ReadsFiles::scopes_action_halts, crate::specs::ReadsFiles::scopes_resource_halts, crate::specs::ReadsFiles::scopes))]
pub(crate) fn read_scopes(alloc: Global, ts: &[Lexeme], cursor: &mut Cursor) -> Result<Scopes, Stop>
    requires { cursor.old.at ≤ length ts.now }
    ensures forward { cursor.old.at ≤ cursor.new.at }
    ensures within { cursor.new.at ≤ length ts.now }
    ensures ok { IfOk result (λ x. ReadsScopes ts.now cursor.old (read x cursor.new)) }
    ensures err { IfErr result (λ f. Halts (ReadsScopes ts.now cursor.old) f cursor.new) }
{
    let Some(_) = sign_at(ts, cursor.at, Kind::OpenParenthesis) else {
        return Err(Stop::Unexpected);
    };
    *cursor = cursor.next();
    let principal = principal(alloc, ts, cursor)?;
    let action = action(alloc, ts, cursor)?;
    let resource = resource(alloc, ts, cursor)?;
    Ok(Scopes {
        principal,
        action,
        resource,
    })
}
