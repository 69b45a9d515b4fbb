//! Reads policies.
ghost use Rattle.std.specs.Prelude.{◌≡◌, ◌≤◌, ◌<◌, length, IfOk, IfErr, [], nat_lt};
ghost use Rattle.sc_lexemes.specs.Outcomes.{read, halt, Halts};
ghost use Rattle.sc_lexemes.specs.declared.stop.Stop.TheVariants.{NoMemory};
ghost use Rattle.sc_lexemes.specs.Depth.{outside};
ghost use Rattle.sc_parser.specs.ReadsFiles.{ReadsClauses, ReadsPolicy, ReadsPolicies};

use crate::expr::enclosed;
use crate::head::head;
use crate::scopes::{Scopes, read_scopes};
use sc_ast::{Condition, Effect, Place, Policy};
use sc_lexemes::{Close, Cursor, Lexeme, Stop, clause_at, policy_at, sign_at};
use sc_lexer::Kind;
use sc_lists::Seq;
use std::alloc::Global;

/// Reads `when` and `unless` clauses.
#[tactic(auto, using(crate::specs::ReadsFiles::clauses_end, crate::specs::ReadsFiles::no_brace, crate::specs::ReadsFiles::clause_halts, crate::specs::ReadsFiles::clause))]
fn clauses(alloc: Global, ts: &[Lexeme], cursor: &mut Cursor) -> Result<Seq<Condition>, Stop>
    requires { cursor.old.at ≤ length ts.now }
    ensures forward { cursor.old.at ≤ cursor.new.at }
    ensures within { cursor.new.at ≤ length ts.now }
    ensures ok { IfOk result (λ cs. ReadsClauses ts.now cursor.old [] (read cs cursor.new)) }
    ensures err { IfErr result (λ f. Halts (ReadsClauses ts.now cursor.old []) f cursor.new) }
{
    let mut clauses = Seq::new(alloc);
    while let Some((place, kind)) = clause_at(ts, cursor.at) {
        *cursor = cursor.next();
        let Some(_) = sign_at(ts, cursor.at, Kind::OpenBrace) else {
            return Err(Stop::Unexpected);
        };
        *cursor = cursor.next();
        let body = enclosed(alloc, ts, Close::Brace, cursor)?;
        *cursor = cursor.deeper();
        clauses.push(Condition {
            place,
            kind,
            body: body.into_inner(),
        })?;
    }
    Ok(clauses)
}

/// Reads a policy.
#[tactic(auto, using(crate::specs::ReadsFiles::head_halts, crate::specs::ReadsFiles::scopes_halt, crate::specs::ReadsFiles::clauses_halt, crate::specs::ReadsFiles::no_semicolon, crate::specs::ReadsFiles::policy))]
fn policy(alloc: Global, ts: &[Lexeme], cursor: &mut Cursor) -> Result<Policy, Stop>
    requires { cursor.old.at ≤ length ts.now }
    ensures forward { cursor.old.at ≤ cursor.new.at }
    ensures within { cursor.new.at ≤ length ts.now }
    ensures moved { IfOk result (λ _. cursor.old.at < cursor.new.at) }
    ensures ok { IfOk result (λ x. ReadsPolicy ts.now cursor.old (read x cursor.new)) }
    ensures err { IfErr result (λ f. Halts (ReadsPolicy ts.now cursor.old) f cursor.new) }
{
    let (place, effect) = head(ts, cursor)?;
    let scopes = read_scopes(alloc, ts, cursor)?;
    let conditions = clauses(alloc, ts, cursor)?;
    let Some(_) = sign_at(ts, cursor.at, Kind::Semicolon) else {
        return Err(Stop::Unexpected);
    };
    *cursor = cursor.next();
    Ok(policy_of(place, effect, scopes, conditions))
}

/// The policy of these parts.
fn policy_of(place: Place, effect: Effect, scopes: Scopes, conditions: Seq<Condition>) -> Policy
    ensures { result ≡ record {
      place = place;
      effect = effect;
      principal = scopes.principal;
      action = scopes.action;
      resource = scopes.resource;
      conditions = conditions;
    } }
{
    Policy {
        place,
        effect,
        principal: scopes.principal.into_inner(),
        action: scopes.action.into_inner(),
        resource: scopes.resource.into_inner(),
        conditions,
    }
}

/// Whether a file may have one more policy, where it has so many.
fn has_room(policies: usize) -> bool
    ensures { result ≡ nat_lt policies 10000 }
{
    policies < 10_000
}

/// Reads the policies of a file.
#[tactic(auto, using(crate::specs::ReadsFiles::file_ends, crate::specs::ReadsFiles::too_many, crate::specs::ReadsFiles::no_policy, crate::specs::ReadsFiles::policy_halts, crate::specs::ReadsFiles::more_policies))]
pub(crate) fn policies(alloc: Global, ts: &[Lexeme], at: &mut usize) -> Result<Seq<Policy>, Stop>
    requires { at.old ≤ length ts.now }
    ensures within { at.new ≤ length ts.now }
    ensures ok { IfOk result (λ ps. ReadsPolicies ts.now at.old [] (read ps (outside at.new))) }
    ensures err { IfErr result (λ f. (f ≡ NoMemory → ⊥) → ReadsPolicies ts.now at.old [] (halt f at.new)) }
{
    let mut policies = Seq::new(alloc);
    while *at < ts.len() {
        if !policy_at(ts, *at) {
            return Err(Stop::Unexpected);
        }
        if !has_room(policies.len()) {
            return Err(Stop::TooManyPolicies);
        }
        let mut cursor = Cursor::outside(*at);
        let outcome = policy(alloc, ts, &mut cursor);
        *at = cursor.at;
        policies.push(outcome?)?;
    }
    Ok(policies)
}
