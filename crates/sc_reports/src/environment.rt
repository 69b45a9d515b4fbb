//! The environments of a schema by their places.
ghost use Rattle.std.specs.Prelude.{◌≡◌, ◌<◌, Some, length, slice_get};
ghost use Rattle.sc_schema.specs.Declarations.{environments};

use sc_schema::{Env, Schema, environments};

/// The environment at a place, counted from 0.
pub fn environment_at(schema: &Schema, place: u32) -> &Env
    requires { place < length (environments schema.now) }
    ensures { slice_get (environments schema.now) place ≡ Some result.now }
{
    &environments(schema)[place as usize]
}
