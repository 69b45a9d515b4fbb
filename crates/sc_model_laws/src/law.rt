//! Laws of the values that an assignment gives to closed terms.
ghost use Rattle.sc_model_laws.specs.Laws.{EquationsAgree, TermsAreRight, PlainIsCovered, TruthsAreRight, ClassesBound, HasModel, NamesAreTexts, TruthsAreConsistent, TruthsAreTold};

use sc_bits::address_laws;
use sc_closure_rules::closed_laws;
use sc_term_definitions::definition_laws;

/// Under a consistent assignment two closed terms have one value just where their equation is true.
/// In each world in which the variables and what is stored of entities have the values that are
/// assigned to them, so has each closed term that is covered, and each such truth value its truth.
pub fn rebuilding_laws()
    ensures equations { EquationsAgree }
    ensures terms { TermsAreRight }
    ensures covered { PlainIsCovered }
    ensures truths { TruthsAreRight }
{
    address_laws();
    closed_laws();
}

/// A consistent assignment has a model: equal strings and entities have one name, and others differ. A string is named
/// by a text that matches just the patterns which it is to match, out of those that a search for as many as there are
/// classes of such strings finds.
pub fn model_laws()
    ensures bounded { ClassesBound }
    ensures model { HasModel }
    ensures texts { NamesAreTexts }
{
    closed_laws();
}

/// The truths of a well-formed world are a consistent assignment, under which each closed term has
/// its truth.
pub fn converse_laws()
    ensures consistent { TruthsAreConsistent }
    ensures told { TruthsAreTold }
{
    closed_laws();
    definition_laws();
}
