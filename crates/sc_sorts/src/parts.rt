//! Parts of a node.
ghost use Rattle.std.specs.Prelude.{◌≡◌, map, IfOk};
ghost use Rattle.sc_sorts.specs.Parts.{no_label};

use crate::node::Parts;
use sc_lists::{Seq, Text};
use std::alloc::{AllocError, Global};

/// Parts without labels.
pub fn unlabelled(alloc: Global, members: &[u64]) -> Result<Parts, AllocError>
    ensures { IfOk result (λ parts. parts ≡ map no_label members.now) }
{
    let mut parts = Seq::new(alloc);
    for n in members {
        parts.push((Text::from_str(alloc, "")?, *n))?;
    }
    Ok(parts)
}
