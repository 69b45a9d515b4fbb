//! Learned clauses that their hints show.
ghost use Rattle.std.specs.Prelude.{◌≡◌, ◌&&◌, ◌<◌, ◌≤◌, ◌+◌, ◌++◌, ◌∷◌, [], false, map, take, length, option_map, IfOk, IsTrue, if◌then◌else◌};
ghost use Rattle.std.specs.List.{list_all};
ghost use Rattle.std.specs.Option.{option_copied, option_to_list};
ghost use Rattle.std.specs.Vec.{vec_len, vec_capacity};
ghost use Rattle.sc_refutations.specs.Arenas.{lit_of, has_code, lit_found, pieces, are_ordered, are_within};
ghost use Rattle.sc_refutations.specs.Known.{marked, have_marks};
ghost use Rattle.sc_refutations.specs.Refutations.{residual, residual_by, open_lits, residual_at, clause_at, is_clause, are_listed, negated, refutes};

use crate::arena::{Arena, codes_at};
use crate::growing::make_room;
use crate::known::{Known, is_false};
use sc_clauses::Lit;
use std::alloc::AllocError;

/// What is left of a clause where its false literals are left out.
#[derive(Clone, Copy)]
pub enum Residual {
    /// Nothing.
    Conflict,
    /// One literal, which is true where the clause is.
    Unit(Lit),
    /// Several literals.
    Open,
}

/// The same of a clause of numbers: the one literal by its number.
#[derive(Clone, Copy)]
enum Left {
    /// Nothing.
    Nothing,
    /// The number of one literal.
    One(u32),
    /// Several literals.
    Several,
}

/// What is left where the literal of this number is, or none where that is 0.
#[inline(always)]
#[tactic(auto, using(crate::proofs::LeftLaws::none_found, crate::proofs::LeftLaws::one_found))]
fn left_by(found: u32) -> Left
    ensures { residual_by result ≡ residual (option_to_list (lit_found found)) }
{
    if found == 0 {
        return Left::Nothing;
    }
    Left::One(found)
}

/// What is left of the clause of numbers, by the marks of a step.
#[inline(always)]
fn left_of(marks: &[u64], step: u64, codes: &[u32]) -> Left
    requires marks { IsTrue (have_marks (length marks.now) (map lit_of codes.now)) }
    requires codes { IsTrue (list_all has_code (map lit_of codes.now)) }
    ensures { residual_by result ≡ residual (open_lits (marked step marks.now) (map lit_of codes.now)) }
{
    let mut found = 0u32;
    for code in codes {
        if !is_false(marks, step, *code) {
            if found == 0 {
                found = *code;
            } else if found != *code {
                return Left::Several;
            }
        }
    }
    left_by(found)
}

/// The numbers of the clause of a number, counted from 1.
#[inline(always)]
fn clause_at<'a>(codes: &'a [u32], ends: &[usize], number: u64) -> Option<&'a [u32]>
    requires { IsTrue (are_within 0 ends.now (length codes.now)) }
    ensures { option_map (map lit_of) (option_copied result) ≡ clause_at (pieces 0 codes.now ends.now) number }
{
    if number == 0 {
        return None;
    }
    codes_at(codes, ends, (number - 1) as usize)
}

/// What is left of the clause of a number. Of one that isn't there, several literals.
#[inline(always)]
fn left_at(known: &Known, codes: &[u32], ends: &[usize], number: u64) -> Left
    requires listed { IsTrue (are_listed known.now.count (pieces 0 codes.now ends.now)) }
    requires within { IsTrue (are_within 0 ends.now (length codes.now)) }
    ensures { residual_by result ≡ residual_at (marked known.now.step known.now.marks.items)
        (clause_at (pieces 0 codes.now ends.now) number) }
{
    match clause_at(codes, ends, number) {
        Some(clause) => left_of(known.marks.as_slice(), known.step, clause),
        None => Left::Several,
    }
}

/// Takes the literals of a clause as false, and puts their numbers after others, where there is room for all. It
/// stops at one that is of no listed atom, or true.
#[inline(always)]
fn write_false(known: &mut Known, codes: &mut Vec<u32>, clause: &[u32]) -> bool
    requires nothing { marked known.old.step known.old.marks.items ≡ λ _. false }
    requires codes { IsTrue (list_all has_code (map lit_of clause.now)) }
    requires room { vec_len codes.old + length clause.now ≤ vec_capacity codes.old }
    ensures clause { result ≡ is_clause known.old.count (map lit_of clause.now) }
    ensures known { IsTrue result
        → marked known.new.step known.new.marks.items ≡ negated (map lit_of clause.now) }
    ensures written { IsTrue result → codes.new.items ≡ codes.old.items ++ clause.now }
    ensures kept { take (length codes.old.items) codes.new.items ≡ codes.old.items }
    ensures count { known.new.count ≡ known.old.count }
    ensures number { known.new.step ≡ known.old.step }
{
    for code in clause {
        let code = *code;
        if !known.is_free(code) {
            return false;
        }
        known.set_false(code);
        codes.push_reserved(code);
    }
    true
}

/// Whether each hint in turn leaves one literal, which is true from then on, and the last none.
fn follow(known: &mut Known, codes: &[u32], ends: &[usize], hints: &[u64]) -> bool
    requires listed { IsTrue (are_listed known.old.count (pieces 0 codes.now ends.now)) }
    requires within { IsTrue (are_within 0 ends.now (length codes.now)) }
    ensures shown { result ≡ refutes (pieces 0 codes.now ends.now)
        (marked known.old.step known.old.marks.items) hints.now }
    ensures count { known.new.count ≡ known.old.count }
    ensures number { known.new.step ≡ known.old.step }
{
    for (i, hint) in hints.iter().enumerate() {
        match left_at(known, codes, ends, *hint) {
            Left::Nothing => return i + 1 == hints.len(),
            Left::One(code) => known.insert(code),
            Left::Several => return false,
        }
    }
    false
}

/// Puts the numbers of a learned clause after those of others, where there is room for all, and tells whether it is
/// shown by its hints. Of one that isn't, some numbers may be put there.
#[inline(always)]
fn write_shown(
    known: &mut Known,
    codes: &mut Vec<u32>,
    ends: &[usize],
    clause: &[u32],
    hints: &[u64],
) -> bool
    requires nothing { marked known.old.step known.old.marks.items ≡ λ _. false }
    requires ordered { IsTrue (are_ordered 0 ends.now (length codes.old.items)) }
    requires listed { IsTrue (are_listed known.old.count (pieces 0 codes.old.items ends.now)) }
    requires codes { IsTrue (list_all has_code (map lit_of clause.now)) }
    requires room { vec_len codes.old + length clause.now ≤ vec_capacity codes.old }
    ensures shown { result ≡ is_clause known.old.count (map lit_of clause.now)
        && refutes (pieces 0 codes.old.items ends.now) (negated (map lit_of clause.now)) hints.now }
    ensures written { IsTrue result → codes.new.items ≡ codes.old.items ++ clause.now }
    ensures kept { take (length codes.old.items) codes.new.items ≡ codes.old.items }
    ensures count { known.new.count ≡ known.old.count }
    ensures number { known.new.step ≡ known.old.step }
{
    if !write_false(known, codes, clause) {
        return false;
    }
    follow(known, codes.as_slice(), ends, hints)
}

/// Puts a learned clause, given by the numbers of its literals, after the others where it is shown by its hints, and
/// tells whether it is.
pub fn learn(
    known: &mut Known,
    number: u64,
    clauses: &mut Arena,
    clause: &[u32],
    hints: &[u64],
) -> Result<bool, AllocError>
    requires later { known.old.step < number }
    requires listed { IsTrue (are_listed known.old.count clauses.old) }
    requires codes { IsTrue (list_all has_code (map lit_of clause.now)) }
    ensures shown { IfOk result (λ shown. shown ≡ is_clause known.old.count (map lit_of clause.now)
        && refutes clauses.old (negated (map lit_of clause.now)) hints.now) }
    ensures clauses { IfOk result (λ shown. clauses.new
        ≡ if shown then clauses.old ++ map lit_of clause.now ∷ [] else clauses.old) }
    ensures count { known.new.count ≡ known.old.count }
    ensures number { known.new.step ≡ number }
{
    known.begin(number);
    make_room(&mut clauses.ends, 1)?;
    make_room(&mut clauses.codes, clause.len())?;
    let start = clauses.codes.len();
    let end = start + clause.len();
    if write_shown(
        known,
        &mut clauses.codes,
        clauses.ends.as_slice(),
        clause,
        hints,
    ) {
        clauses.ends.push_reserved(end);
        return Ok(true);
    }
    clauses.codes.truncate(start);
    Ok(false)
}
