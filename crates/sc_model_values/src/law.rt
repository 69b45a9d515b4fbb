//! Laws of what an assignment says of the closed terms of a problem.
ghost use Rattle.sc_model_values.specs.Laws.{TruthsAreConsistent, StringsHoldWithoutPatterns};

use sc_bits::address_laws;
use sc_footprint::problem_laws;

/// The truths that an assignment gives closed terms are consistent, if it has a value for each listed
/// atom and falsifies neither a defining clause nor an instance of a rule. The rules of strings hold
/// where no closed term is a pattern's.
pub fn model_laws()
    ensures consistent { TruthsAreConsistent }
    ensures strings { StringsHoldWithoutPatterns }
{
    address_laws();
    problem_laws();
}
