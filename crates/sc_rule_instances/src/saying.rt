//! What an instance says, literal by literal: whether that is an instance, its clause, and whether
//! an assignment falsifies it. Nothing but the clause takes memory.
ghost use Rattle.std.specs.Prelude.{◌≡◌, ◌<◌, ◌&&◌, [], length, get_or, IfOk, OnOk, IsSomeAnd};
ghost use Rattle.sc_clauses.specs.Assignments.{is_false as false_in};
ghost use Rattle.sc_clauses.specs.Clauses.{is_in as among, positive};
ghost use Rattle.sc_footprint.specs.Problems.{Posed};
ghost use Rattle.std.specs.List.{list_all};
ghost use Rattle.sc_footprint.specs.Definitions.{is_tautology as tautology};
ghost use Rattle.sc_rule_laws.specs.Signed.{Said};
ghost use Rattle.sc_rule_instances.specs.Clauses.{is_asked as asked, is_instance as has_instance, said_clause};
ghost use Rattle.sc_rule_instances.specs.Known.{is_broken as broken, is_falsified as falsified};
ghost use Rattle.sc_rule_instances.specs.Saying.{count_of, literal_of};

use crate::literals::TRUE;
use sc_clauses::{Assignment, Clause, Lit, is_false, is_same, negation};
use sc_lists::Seq;
use std::alloc::{AllocError, Global};

/// Signed terms of a problem, given by their literals. They may be one more than a list holds, so
/// that they are counted in 128 bits.
pub trait Saying {
    /// The problem.
    ghost posed: { Self → Posed };

    /// The signed terms; none where an instance isn't of its rule's form.
    ghost said: { Self → Said };

    /// How many there are. None exactly where there are none to be told of.
    fn count(&self) -> Option<u128>
        ensures { result ≡ count_of (said self.now) };

    /// The literal at a place, counted from 0.
    fn literal(&self, place: u128) -> Lit
        requires { IsSomeAnd (count_of (said self.now)) (λ n. place < n) }
        ensures { result ≡ literal_of (posed self.now) (said self.now) place };
}

/// Whether a literal is of a listed atom, and isn't `true`.
fn is_asked(lit: Lit) -> bool
    ensures { result ≡ asked lit }
{
    lit.atom != 0 && !is_same(lit, TRUE)
}

/// The literal at a place.
#[tactic(auto, using(crate::proofs::SayingLaws::said_place))]
fn literal_at<S: Saying>(saying: &S, place: u128) -> Lit
    requires { place < length (said_clause (S.posed saying.now) (S.said saying.now)) }
    ensures { result ≡ get_or (said_clause (S.posed saying.now) (S.said saying.now)) place (positive 0) }
{
    saying.literal(place)
}

/// Whether a literal is one of them.
fn is_among<S: Saying>(saying: &S, count: u128, lit: Lit) -> bool
    requires { count ≡ length (said_clause (S.posed saying.now) (S.said saying.now)) }
    ensures { result ≡ among (said_clause (S.posed saying.now) (S.said saying.now)) lit }
{
    for place in 0..count {
        if is_same(lit, literal_at(saying, place)) {
            return true;
        }
    }
    false
}

/// Whether each literal is of a listed atom, and isn't `true`.
fn is_each_asked<S: Saying>(saying: &S, count: u128) -> bool
    requires { count ≡ length (said_clause (S.posed saying.now) (S.said saying.now)) }
    ensures { result ≡ list_all asked (said_clause (S.posed saying.now) (S.said saying.now)) }
{
    for place in 0..count {
        if !is_asked(literal_at(saying, place)) {
            return false;
        }
    }
    true
}

/// Whether some literal stands with its negation.
fn is_opposed<S: Saying>(saying: &S, count: u128) -> bool
    requires { count ≡ length (said_clause (S.posed saying.now) (S.said saying.now)) }
    ensures { result ≡ tautology (said_clause (S.posed saying.now) (S.said saying.now)) }
{
    for place in 0..count {
        if is_among(saying, count, negation(literal_at(saying, place))) {
            return true;
        }
    }
    false
}

/// Whether that is an instance: each literal is of a listed atom and isn't `true`, and none stands
/// with its negation.
#[tactic(auto, using(crate::proofs::SayingLaws::said_length, crate::proofs::SayingLaws::said_nothing, crate::proofs::SayingLaws::said_instance))]
pub fn is_instance<S: Saying>(saying: &S) -> bool
    ensures { result ≡ has_instance (S.posed saying.now) (S.said saying.now) }
{
    match saying.count() {
        Some(count) => is_each_asked(saying, count) && !is_opposed(saying, count),
        None => false,
    }
}

/// Puts the literals after each other.
fn put_literals<S: Saying>(saying: &S, count: u128, clause: &mut Clause) -> Result<(), AllocError>
    requires count { count ≡ length (said_clause (S.posed saying.now) (S.said saying.now)) }
    requires empty { clause.old ≡ [] }
    ensures { OnOk result (clause.new ≡ said_clause (S.posed saying.now) (S.said saying.now)) }
{
    for place in 0..count {
        clause.push(literal_at(saying, place))?;
    }
    Ok(())
}

/// The clause of the signed terms. Want of memory is its one fault.
#[tactic(auto, using(crate::proofs::SayingLaws::said_length, crate::proofs::SayingLaws::clause_nothing))]
pub fn clause_of<S: Saying>(alloc: Global, saying: &S) -> Result<Clause, AllocError>
    ensures { IfOk result (λ c. c ≡ said_clause (S.posed saying.now) (S.said saying.now)) }
{
    let mut clause = Seq::new(alloc);
    match saying.count() {
        Some(count) => {
            put_literals(saying, count, &mut clause)?;
            Ok(clause)
        }
        None => Ok(clause),
    }
}

/// Whether an assignment falsifies a literal that is of a listed atom and isn't `true`.
fn is_broken(m: &Assignment, lit: Lit) -> bool
    ensures { result ≡ (asked lit && false_in m.now lit) }
{
    is_asked(lit) && is_false(m, lit)
}

/// Whether each literal is so.
fn is_each_broken<S: Saying>(saying: &S, count: u128, m: &Assignment) -> bool
    requires { count ≡ length (said_clause (S.posed saying.now) (S.said saying.now)) }
    ensures { result ≡ broken m.now (said_clause (S.posed saying.now) (S.said saying.now)) }
{
    for place in 0..count {
        if !is_broken(m, literal_at(saying, place)) {
            return false;
        }
    }
    true
}

/// Whether that is an instance that an assignment falsifies.
#[tactic(auto, using(crate::proofs::SayingLaws::said_length, crate::proofs::SayingLaws::falsified_nothing, crate::proofs::SayingLaws::said_falsified))]
pub fn is_falsified<S: Saying>(saying: &S, m: &Assignment) -> bool
    ensures { result ≡ falsified (S.posed saying.now) m.now (S.said saying.now) }
{
    match saying.count() {
        Some(count) => is_each_broken(saying, count, m),
        None => false,
    }
}
