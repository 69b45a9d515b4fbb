//! Members in ascending order, each once.
ghost use Rattle.std.specs.Prelude.{◌≡◌, IfOk};
ghost use Rattle.sc_model_world_laws.specs.Rebuilt.{in_order as ordered};

use sc_lists::{Seq, members};
use std::alloc::{AllocError, Global};

/// What is in a list, in ascending order, each once.
#[tactic(auto, using(crate::proofs::OrderLaws::ordered_all, crate::proofs::OrderLaws::ordered_step, crate::proofs::OrderLaws::ordered_done))]
pub(crate) fn in_order<K: Ord + Drop>(
    alloc: Global,
    mut items: Vec<K>,
) -> Result<Seq<K>, AllocError>
    ensures { IfOk result (λ xs. xs ≡ ordered K.cmp items.items) }
{
    let mut sorted = Seq::new(alloc);
    while let Some(item) = items.pop() {
        members::put(&mut sorted, item)?;
    }
    Ok(sorted)
}
