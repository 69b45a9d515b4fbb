//! Laws of the world that a model stands for.
ghost use Rattle.sc_model_world_laws.specs.Laws.{CanBeRebuilt, RebuiltHoldsModel};

use sc_bits::address_laws;
use sc_closure_rules::closed_laws;
use sc_model_laws::rebuilding_laws;

/// The request of a model is one of the environment, and each given entity is as its type, its ancestors and its
/// kind have it. In the world of this request with these entities variables and what is stored of entities have the
/// values of the model.
pub fn rebuilt_laws()
    ensures possible { CanBeRebuilt }
    ensures holds { RebuiltHoldsModel }
{
    address_laws();
    closed_laws();
    rebuilding_laws();
}
