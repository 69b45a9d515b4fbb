//! The literals that are known to be true in the check of one step.
ghost use Rattle.std.specs.Prelude.{◌≡◌, ◌<◌, ◌+◌, ◌*◌, ◌&&◌, false, nat_lt, not, IfOk, IsTrue, MatchOption, map, slice_get, length};
ghost use Rattle.std.specs.List.{list_all};
ghost use Rattle.sc_clauses.specs.Clauses.{negation};
ghost use Rattle.sc_refutations.specs.Arenas.{lit_of, has_code};
ghost use Rattle.sc_refutations.specs.Known.{says, marked, is_stamped};
ghost use Rattle.sc_refutations.specs.Refutations.{is_listed, is_clause, with_lit};

use crate::codes::{code_of, negation_of};
use sc_clauses::Lit;
use std::alloc::{AllocError, Global};

/// The literals that are known to be true in the check of a step. A mark of an earlier step counts for nothing, so
/// that the next step begins in constant time.
#[derive(Drop)]
pub struct Known {
    /// How many atoms are listed.
    pub count: u64,
    /// The step that is checked.
    pub step: u64,
    /// Of each literal, by its number, the last step in which it was false.
    pub marks: Vec<u64>,
    ghost room: { length marks.items ≡ count * 2 + 2 },
    ghost stamped: { IsTrue (is_stamped step marks.items) },
    ghost few: { count < 2147483648 },
}

/// Whether the literal of a number that has a mark is false by the marks of a step.
#[inline(always)]
pub(crate) fn is_false(marks: &[u64], step: u64, code: u32) -> bool
    requires { code < length marks.now }
    ensures { result ≡ says step (slice_get marks.now code) }
{
    marks[code as usize] == step
}

/// Whether the literals of so many atoms have numbers: 31 bits can count the atoms.
fn are_few(count: u64) -> bool
    ensures { result ≡ nat_lt count 2147483648 }
{
    count < 2147483648
}

impl Known {
    /// Nothing is known of so many atoms. More than 31 bits can count are refused as too many.
    pub fn new(alloc: Global, count: u64) -> Result<Known, AllocError>
        ensures { IfOk result (λ k. (k.count ≡ count) × (k.step ≡ 0)) }
    {
        if !are_few(count) {
            return Err(AllocError);
        }
        let mut marks = Vec::new(alloc);
        for _ in 0..count {
            marks.push(0)?;
            marks.push(0)?;
        }
        marks.push(0)?;
        marks.push(0)?;
        Ok(Known {
            count,
            step: 0,
            marks,
        })
    }

    /// Forgets all, for a later step.
    pub(crate) fn begin(&mut self, step: u64)
        requires { self.old.step < step }
        ensures nothing { marked step self.new.marks.items ≡ λ _. false }
        ensures count { self.new.count ≡ self.old.count }
        ensures number { self.new.step ≡ step }
    {
        self.step = step;
    }

    /// Whether the literal of a number is of a listed atom.
    #[inline(always)]
    fn has_mark(&self, code: u32) -> bool
        requires { IsTrue (has_code (lit_of code)) }
        ensures { result ≡ is_listed self.now.count (lit_of code) }
    {
        (code as usize) < self.marks.len()
    }

    /// Whether the literal of a number, one of a listed atom, is known to be true.
    #[inline(always)]
    fn contains(&self, code: u32) -> bool
        requires { IsTrue (is_listed self.now.count (lit_of code)) }
        ensures { result ≡ marked self.now.step self.now.marks.items (lit_of code) }
    {
        is_false(self.marks.as_slice(), self.step, negation_of(code))
    }

    /// Whether the literal of a number is of a listed atom, and isn't known to be true.
    #[inline(always)]
    pub(crate) fn is_free(&self, code: u32) -> bool
        requires { IsTrue (has_code (lit_of code)) }
        ensures { result ≡ (is_listed self.now.count (lit_of code)
            && not (marked self.now.step self.now.marks.items (lit_of code))) }
    {
        self.has_mark(code) && !self.contains(code)
    }

    /// Takes the literal of a number, one of a listed atom, as false.
    #[inline(always)]
    pub(crate) fn set_false(&mut self, code: u32)
        requires { IsTrue (is_listed self.old.count (lit_of code)) }
        ensures known { marked self.new.step self.new.marks.items
            ≡ with_lit (marked self.old.step self.old.marks.items) (negation (lit_of code)) }
        ensures count { self.new.count ≡ self.old.count }
        ensures number { self.new.step ≡ self.old.step }
    {
        self.marks[code as usize] = self.step;
    }

    /// Takes the literal of a number, one of a listed atom, as true.
    #[inline(always)]
    pub(crate) fn insert(&mut self, code: u32)
        requires { IsTrue (is_listed self.old.count (lit_of code)) }
        ensures known { marked self.new.step self.new.marks.items
            ≡ with_lit (marked self.old.step self.old.marks.items) (lit_of code) }
        ensures count { self.new.count ≡ self.old.count }
        ensures number { self.new.step ≡ self.old.step }
    {
        self.marks[negation_of(code) as usize] = self.step;
    }

    /// The numbers of the literals of a clause. None where one of them has none: then it is of no listed atom.
    pub fn codes_of(&self, alloc: Global, clause: &[Lit]) -> Result<Option<Vec<u32>>, AllocError>
        ensures { IfOk result (λ o. MatchOption o (is_clause self.now.count clause.now ≡ false)
            (λ codes. (map lit_of codes.items ≡ clause.now) × IsTrue (list_all has_code clause.now))) }
    {
        let mut codes = Vec::new(alloc);
        for lit in clause {
            let Some(code) = code_of(*lit) else {
                return Ok(None);
            };
            codes.push(code)?;
        }
        Ok(Some(codes))
    }
}
