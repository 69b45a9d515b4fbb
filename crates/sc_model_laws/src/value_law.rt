//! Laws of the values that a model gives closed terms.
ghost use Rattle.sc_model_laws.specs.ValueLaws.{ClosedValuesFit, FittingConforms};

use sc_bits::address_laws;
use sc_closure_rules::closed_laws;

/// The value that a model gives a closed term fits the term's sort: it is of the sort, is made of values, and names
/// entities that are stored. What fits the sort of a type conforms to the type.
pub fn model_value_laws()
    ensures values { ClosedValuesFit }
    ensures conform { FittingConforms }
{
    address_laws();
    closed_laws();
}
