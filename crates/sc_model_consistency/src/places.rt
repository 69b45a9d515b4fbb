//! Whether a log can hold each place of a term.
ghost use Rattle.std.specs.Prelude.{◌≡◌, ◌↔◌, IsTrue};
ghost use Rattle.sc_model_consistency.specs.Laws.{HasSmallPlaces};
ghost use Rattle.sc_model_consistency.specs.Places as places;

use sc_footprint::Problem;

/// The last place that a log can hold: it has 18 digits.
const LAST_PLACE: u64 = 999_999_999_999_999_999;

/// Whether there is a term that goes with the closed term of a number at the last place.
#[tactic(auto, using(crate::proofs::PlaceLaws::some_mapped))]
fn goes_past(problem: &Problem<'_>, n: u64) -> bool
    ensures { result ≡ places.goes_past problem.now n }
{
    problem.companion(n, LAST_PLACE).is_some()
}

/// Whether a log can hold the place of each term that goes with a closed one. No memory holds a
/// problem of which it can't.
#[tactic(auto, using(crate::proofs::PlaceLaws::free_none, crate::proofs::PlaceLaws::free_more, crate::proofs::PlaceLaws::small_all, crate::proofs::PlaceLaws::large_there))]
pub fn are_places_small(problem: &Problem<'_>) -> bool
    ensures { IsTrue result ↔ HasSmallPlaces problem.now }
{
    for place in 0..problem.closed_count() {
        if goes_past(problem, place + 1) {
            return false;
        }
    }
    true
}
