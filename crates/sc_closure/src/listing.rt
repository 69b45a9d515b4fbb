//! How many atoms there are among the closed terms.
ghost use Rattle.std.specs.Prelude.{◌≡◌, ◌<◌, ◌≤◌, ◌^◌, length, drop};
ghost use Rattle.std.specs.List.{AllByRecursion};
ghost use Rattle.sc_closure.specs.Following.{atoms_of};

use crate::kind::is_atom;
use crate::numbers::number_at;
use indexmap::IndexSet;
use sc_terms::Terms;

/// How many atoms there are among the terms from a place on.
pub(crate) fn count_atoms(terms: &Terms, closed: &IndexSet<u64>, from: u64) -> u64
    requires { AllByRecursion (λ n. n < length terms.now) closed.now.keys }
    ensures value { result ≡ length (atoms_of terms.now (drop from closed.now.keys)) }
    ensures within { result ≤ length closed.now.keys }
    ensures small { result < 2 ^ 63 }
{
    // A set has fewer than 2^63 numbers, which `len` tells.
    let _count = closed.len();
    let mut count = 0;
    let mut place = from;
    while let Some(n) = number_at(closed, place) {
        if is_atom(terms, n) {
            count += 1;
        }
        place += 1;
    }
    count
}
