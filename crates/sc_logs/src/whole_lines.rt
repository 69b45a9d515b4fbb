//! Reads the line of a learned clause in one pass, where it stands at a place of bytes that end with a newline. Each
//! other byte then has one behind it, so that a place is never past the end. A line that isn't read here may still be
//! one of a log: it is then cut into words.
ghost use Rattle.std.specs.Prelude.{◌≡◌, ◌<◌, ◌≤◌, ◌+◌, ◌-◌, ◌^◌, ◌∷◌, ◌++◌, map, drop, get_or, length, decimal, IfSome, IfOk, IsTrue};
ghost use Rattle.std.specs.Int.{IsInRange};
ghost use Rattle.std.specs.List.{list_all};
ghost use Rattle.sc_logs.specs.LineSteps.{ends_line};
ghost use Rattle.sc_refutations.specs.Arenas.{lit_of};
ghost use Rattle.sc_logs.specs.Texts.{lit_text, spaced, step_line};
ghost use Rattle.sc_logs.specs.Writable.{is_lit, is_hint, is_learned};

use crate::lines::Room;
use sc_clauses::Step;
use sc_refutations::append;
use std::alloc::AllocError;

/// The place behind a byte other than a newline, where it stands at a place.
#[inline(always)]
#[tactic(auto, using(crate::proofs::PlaceLaws::byte_stands, crate::proofs::PlaceLaws::byte_next))]
fn after_byte(bytes: &[u8], place: usize, byte: u8) -> Option<usize>
    requires ended { IsTrue (ends_line bytes.now) }
    requires within { place < length bytes.now }
    requires other { 10 < byte }
    ensures { IfSome result (λ next. (next < length bytes.now) × (drop place bytes.now ≡ byte ∷ drop next bytes.now)) }
{
    if bytes[place] == byte {
        return Some(place + 1);
    }
    None
}

/// The value of the digit at a place.
#[inline(always)]
#[tactic(auto, using(crate::proofs::PlaceLaws::digit_next))]
fn digit_at(bytes: &[u8], place: usize) -> Option<u64>
    requires ended { IsTrue (ends_line bytes.now) }
    requires within { place < length bytes.now }
    ensures { IfSome result (λ digit. (place + 1 < length bytes.now) × IsInRange 48 57 (get_or bytes.now place 0)
        × (digit ≡ get_or bytes.now place 0 - 48)) }
{
    let byte = bytes[place];
    if !byte.is_ascii_digit() {
        return None;
    }
    Some(byte as u64 - b'0' as u64)
}

/// The digit other than `0` at a place.
#[inline(always)]
fn first_digit_at(bytes: &[u8], place: usize) -> Option<u8>
    requires ended { IsTrue (ends_line bytes.now) }
    requires within { place < length bytes.now }
    ensures { IfSome result (λ first. (place + 1 < length bytes.now)
        × (drop place bytes.now ≡ first ∷ drop (place + 1) bytes.now) × (49 ≤ first) × (first ≤ 57)) }
{
    let first = bytes[place];
    if first < b'1' {
        return None;
    }
    if b'9' < first {
        return None;
    }
    Some(first)
}

/// The number of at most so many digits, a first one other than `0` and those from a place on, and the place behind
/// these.
#[inline(always)]
fn number_from(bytes: &[u8], first: u8, from: usize, most: usize) -> Option<(u64, usize)>
    requires ended { IsTrue (ends_line bytes.now) }
    requires within { from < length bytes.now }
    requires digit { (49 ≤ first) × (first ≤ 57) }
    requires few { most ≤ 18 }
    ensures { IfSome result (λ p. (p.1 < length bytes.now) × IsTrue (is_hint p.0) × (p.0 < 10 ^ most)
        × (first ∷ drop from bytes.now ≡ decimal p.0 ++ drop p.1 bytes.now)) }
{
    let mut value = first as u64 - b'0' as u64;
    for i in 0..most {
        let Some(digit) = digit_at(bytes, from + i) else {
            return Some((value, from + i));
        };
        value = value * 10 + digit;
    }
    None
}

/// The number other than 0 at a place, up to the first byte that is no digit, where it has at most so many digits,
/// and the place of that byte.
#[inline(always)]
fn number_at(bytes: &[u8], place: usize, most: usize) -> Option<(u64, usize)>
    requires ended { IsTrue (ends_line bytes.now) }
    requires within { place < length bytes.now }
    requires few { most ≤ 18 }
    ensures { IfSome result (λ p. (p.1 < length bytes.now) × IsTrue (is_hint p.0) × (p.0 < 10 ^ most)
        × (drop place bytes.now ≡ decimal p.0 ++ drop p.1 bytes.now)) }
{
    let first = first_digit_at(bytes, place)?;
    number_from(bytes, first, place + 1, most)
}

/// The number of the literal at a place, whose atom has at most 9 digits, and the place behind it.
#[inline(always)]
#[tactic(auto, using(crate::proofs::WholeLineLaws::atom_fits, crate::proofs::WholeLineLaws::atom_text, crate::proofs::WholeLineLaws::negation_fits, crate::proofs::WholeLineLaws::negation_text))]
fn code_at(bytes: &[u8], place: usize) -> Option<(u32, usize)>
    requires ended { IsTrue (ends_line bytes.now) }
    requires within { place < length bytes.now }
    ensures { IfSome result (λ p. (p.1 < length bytes.now) × IsTrue (is_lit (lit_of p.0))
        × (drop place bytes.now ≡ lit_text (lit_of p.0) ++ drop p.1 bytes.now)) }
{
    match after_byte(bytes, place, b'-') {
        Some(digits) => {
            let (atom, end) = number_at(bytes, digits, 9)?;
            Some((atom as u32 * 2 + 1, end))
        }
        None => {
            let (atom, end) = number_at(bytes, place, 9)?;
            Some((atom as u32 * 2, end))
        }
    }
}

/// Reads literals from a place on with a space before each, and the `0` after them, as their numbers. The place behind
/// it, where such stand there.
#[inline(always)]
#[tactic(auto, using(crate::proofs::WholeLineLaws::codes_fit, crate::proofs::WholeLineLaws::codes_text, crate::proofs::WholeLineLaws::word_shorter))]
fn read_lits(bytes: &[u8], from: usize, codes: &mut Vec<u32>) -> Result<Option<usize>, AllocError>
    requires ended { IsTrue (ends_line bytes.now) }
    requires within { from < length bytes.now }
    ensures { IfOk result (λ o. IfSome o (λ end. (end < length bytes.now)
        × IsTrue (list_all is_lit (map lit_of codes.new.items))
        × (drop from bytes.now
        ≡ spaced (map lit_text (map lit_of codes.new.items)) ++ 32 ∷ 48 ∷ drop end bytes.now))) }
{
    codes.clear();
    let mut place = from;
    while let Some(word) = after_byte(bytes, place, b' ') {
        if let Some(later) = after_byte(bytes, word, b'0') {
            return Ok(Some(later));
        }
        let Some((code, later)) = code_at(bytes, word) else {
            return Ok(None);
        };
        append(codes, code)?;
        place = later;
    }
    Ok(None)
}

/// Reads hints from a place on with a space before each, and the `0` after them. The place behind it, where such
/// stand there.
#[inline(always)]
#[tactic(auto, using(crate::proofs::WholeLineLaws::hints_fit, crate::proofs::WholeLineLaws::hints_text, crate::proofs::WholeLineLaws::word_shorter))]
fn read_hints(bytes: &[u8], from: usize, hints: &mut Vec<u64>) -> Result<Option<usize>, AllocError>
    requires ended { IsTrue (ends_line bytes.now) }
    requires within { from < length bytes.now }
    ensures { IfOk result (λ o. IfSome o (λ end. (end < length bytes.now) × IsTrue (list_all is_hint hints.new.items)
        × (drop from bytes.now ≡ spaced (map decimal hints.new.items) ++ 32 ∷ 48 ∷ drop end bytes.now))) }
{
    hints.clear();
    let mut place = from;
    while let Some(word) = after_byte(bytes, place, b' ') {
        if let Some(later) = after_byte(bytes, word, b'0') {
            return Ok(Some(later));
        }
        let Some((hint, later)) = number_at(bytes, word, 18) else {
            return Ok(None);
        };
        append(hints, hint)?;
        place = later;
    }
    Ok(None)
}

/// The place behind a newline, where it stands at a place.
#[inline(always)]
#[tactic(auto, using(crate::proofs::PlaceLaws::newline_stands))]
fn after_newline(bytes: &[u8], place: usize) -> Option<usize>
    requires { place < length bytes.now }
    ensures { IfSome result (λ next. drop place bytes.now ≡ 10 ∷ drop next bytes.now) }
{
    if bytes[place] == b'\n' {
        return Some(place + 1);
    }
    None
}

/// Reads a learned clause and its hints, where the line of such stands at a place of bytes that end with a newline. The
/// place behind the line's newline.
#[inline(always)]
pub fn read_whole(bytes: &[u8], from: usize, room: &mut Room) -> Result<Option<usize>, AllocError>
    requires ended { IsTrue (ends_line bytes.now) }
    requires within { from < length bytes.now }
    ensures { IfOk result (λ o. IfSome o (λ next. IsTrue (is_learned
        (record { clause = map lit_of room.new.codes.items; hints = room.new.hints.items }))
        × (drop from bytes.now ≡ step_line (Step.Learned
        (record { clause = map lit_of room.new.codes.items; hints = room.new.hints.items }))
        ++ 10 ∷ drop next bytes.now))) }
{
    let Some(lits) = after_byte(bytes, from, b'l') else {
        return Ok(None);
    };
    let Some(hints) = read_lits(bytes, lits, &mut room.codes)? else {
        return Ok(None);
    };
    let Some(end) = read_hints(bytes, hints, &mut room.hints)? else {
        return Ok(None);
    };
    if room.hints.is_empty() {
        return Ok(None);
    }
    Ok(after_newline(bytes, end))
}
