//! The paths of faults.
ghost use Rattle.std.specs.Prelude.{◌≡◌, IfOk};
ghost use Rattle.sc_world_json.specs.Faults.{under};

use crate::fault::WorldFault;
use sc_json::below;
use std::alloc::{AllocError, Global};

/// The fault of a value, as one of the value whose member or item it is: its path goes there first.
pub(crate) fn under(alloc: Global, key: &str, fault: WorldFault) -> Result<WorldFault, AllocError>
    ensures { IfOk result (λ seen. seen ≡ under key.now fault) }
{
    match fault {
        WorldFault::NotJson => Ok(WorldFault::NotJson),
        WorldFault::BadWorld(path) => Ok(WorldFault::BadWorld(below(alloc, key, &path)?)),
    }
}
