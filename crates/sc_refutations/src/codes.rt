//! The number of a literal, which takes a quarter of the memory that the literal takes by itself.
ghost use Rattle.std.specs.Prelude.{◌≡◌, ◌≤◌, ◌++◌, ◌⊎◌, map, IfOk, IsTrue, MatchOption, OnOk};
ghost use Rattle.sc_clauses.specs.Clauses.{negation};
ghost use Rattle.sc_refutations.specs.Arenas.{code_of, lit_of, has_code};

use crate::growing::make_room;
use sc_clauses::Lit;
use std::alloc::{AllocError, Global};

/// The number of a literal, where its atom has one of 31 bits other than 0.
#[inline(always)]
pub fn code_of(lit: Lit) -> Option<u32>
    ensures { MatchOption result ((lit.atom ≡ 0) ⊎ (2147483648 ≤ lit.atom)) (λ code. (code ≡ code_of lit)
        × IsTrue (has_code lit)) }
{
    if lit.atom == 0 {
        return None;
    }
    if lit.atom >= 2147483648 {
        return None;
    }
    let even = lit.atom as u32 * 2;
    if lit.negated {
        Some(even + 1)
    } else {
        Some(even)
    }
}

/// Puts the numbers of a clause's literals after others. It is refused as too large where a literal has no number.
pub fn put_codes(codes: &mut Vec<u32>, clause: &[Lit]) -> Result<(), AllocError>
    ensures { OnOk result (map lit_of codes.new.items ≡ map lit_of codes.old.items ++ clause.now) }
{
    make_room(codes, clause.len())?;
    for lit in clause {
        let Some(code) = code_of(*lit) else {
            return Err(AllocError);
        };
        codes.push_reserved(code);
    }
    Ok(())
}

/// The numbers of the literals of a clause. It is refused as too large where a literal has no number.
pub fn codes_of(alloc: Global, clause: &[Lit]) -> Result<Vec<u32>, AllocError>
    ensures { IfOk result (λ codes. map lit_of codes.items ≡ clause.now) }
{
    let mut codes = Vec::new(alloc);
    put_codes(&mut codes, clause)?;
    Ok(codes)
}

/// The literal of a number.
#[inline(always)]
pub fn lit_of(code: u32) -> Lit
    ensures { result ≡ lit_of code }
{
    Lit {
        atom: (code / 2) as u64,
        negated: code % 2 == 1,
    }
}

/// The number of the negation of a number's literal.
#[inline(always)]
#[tactic(auto, using(crate::proofs::CodeLaws::odd_negation, crate::proofs::CodeLaws::even_negation))]
pub(crate) fn negation_of(code: u32) -> u32
    ensures { result ≡ code_of (negation (lit_of code)) }
{
    let even = code / 2 * 2;
    if code % 2 == 1 { even } else { even + 1 }
}
