//! Things in turn.
ghost use Rattle.std.specs.Prelude.{◌≡◌, ◌<◌, ℕ, List, length, IfOk};
ghost use Rattle.sc_lists.specs.Members.{Has};
ghost use Rattle.sc_turns.specs.Turns.{AreThings, AreRanked, InTurn};

use crate::turning::Turning;
use sc_lists::Seq;
use std::alloc::{AllocError, Global};

/// The places of things in turn, of the places of the parts of each. Each thing comes where parts are of
/// lower rank.
pub fn turns(alloc: Global, parts: Seq<Seq<u64>>) -> Result<Seq<u64>, AllocError>
    requires { AreThings parts }
    ensures in_turn { IfOk result (λ told. InTurn parts told) }
    ensures whole { IfOk result (λ told. (rank : ℕ → ℕ) → AreRanked parts rank → (x : ℕ) → x < length parts
        → Has told x) }
{
    let mut state = Turning::new(alloc, parts)?;
    state.look()?;
    for _turn in 0..u64::MAX {
        if !state.tell(alloc)? {
            return Ok(told_of(state));
        }
        state.look()?;
    }
    Ok(told_of(state))
}

fn told_of(state: Turning) -> Seq<u64>
    ensures { result ≡ state.told }
{
    let Turning { told, .. } = state;
    told
}

/// There is one order in which things are told in turn, where each comes.
#[tactic(auto, using(crate::proofs::OneOrderLaws::one_order))]
pub fn turn_laws()
    ensures { (parts : List (List ℕ)) (a b : List ℕ) → InTurn parts a → InTurn parts b
        → ((x : ℕ) → x < length parts → Has a x) → ((x : ℕ) → x < length parts → Has b x) → a ≡ b }
{}
