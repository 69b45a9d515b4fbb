//! Sets of numbers, each once, in the order in which they were put.
ghost use Rattle.std.specs.Prelude.{◌≡◌, ◌<◌, ◌≤◌, ◌+◌, ◌^◌, List, ℕ, length, slice_get, IfSome, OnOk};
ghost use Rattle.sc_closure.specs.Following.{put_one, put_new};
ghost use Rattle.sc_closure.specs.Places.{place_among};

use indexmap::IndexSet;
use std::alloc::AllocError;

/// Puts a number after the others, if it isn't there.
#[tactic(auto, unfolding(crate::specs::Following::put_one))]
pub fn put(numbers: &mut IndexSet<u64>, n: u64) -> Result<(), AllocError>
    ensures { OnOk result (numbers.new.keys ≡ put_one numbers.old.keys n) }
{
    numbers.insert(n)?;
    Ok(())
}

/// What is left of numbers behind those at the beginning that are this one.
fn behind(numbers: &[u64], n: u64) -> &[u64]
    ensures same { (ks : List ℕ) → put_new (put_one ks n) result.now ≡ put_new (put_one ks n) numbers.now }
    ensures shorter { length result.now ≤ length numbers.now }
{
    let mut rest = numbers;
    while let Some((first, later)) = rest.split_first() {
        if *first != n {
            return rest;
        }
        rest = later;
    }
    rest
}

/// Puts numbers after the others, each if it isn't there. A number that comes several times at once,
/// as that of `false` does, is put just once.
pub(crate) fn put_all(numbers: &mut IndexSet<u64>, more: &[u64]) -> Result<(), AllocError>
    ensures { OnOk result (numbers.new.keys ≡ put_new numbers.old.keys more.now) }
{
    let mut rest = more;
    while let Some((first, later)) = rest.split_first() {
        put(numbers, *first)?;
        rest = behind(later, *first);
    }
    Ok(())
}

/// The number at a place, counted from 0.
pub fn number_at(numbers: &IndexSet<u64>, place: u64) -> Option<u64>
    ensures value { result ≡ slice_get numbers.now.keys place }
    ensures small { IfSome result (λ n. place + 1 < 2 ^ 64) }
{
    // A set has fewer than 2^63 numbers, which `len` tells.
    let _count = numbers.len();
    match numbers.get_index(place as usize) {
        Some(n) => Some(*n),
        None => None,
    }
}

/// The place of a number, counted from 1; 0 where it isn't there.
pub fn place_in(numbers: &IndexSet<u64>, n: u64) -> u64
    ensures { result ≡ place_among numbers.now.keys n }
{
    // A set has fewer than 2^63 numbers, which `len` tells.
    let _count = numbers.len();
    match numbers.get_index_of(&n) {
        Some(before) => before as u64 + 1,
        None => 0,
    }
}
