//! Laws of definitions.
ghost use Rattle.sc_term_definitions.specs.Truths.{DefinitionsHold, AddressesHold, InputsAreTerms};

use sc_bits::address_laws;
use sc_term_laws::terms_fit;

/// In each well-formed world of a lawful schema a truth value is what its definition makes of its
/// inputs, which are truth values too, and the bits of an address are those of one.
pub fn definition_laws()
    ensures inputs { InputsAreTerms }
    ensures hold { DefinitionsHold }
    ensures addresses { AddressesHold }
{
    address_laws();
    terms_fit();
}
