//! What a world's text tells.
ghost use Rattle.std.specs.Prelude.{◌≡◌, ◌≤◌, ◌+◌, ℕ, List, IsTrue};
ghost use Rattle.serde_json.specs.Data.{depth};
ghost use Rattle.sc_names.specs.declared.uid.Uid.{Uid};
ghost use Rattle.sc_schema.specs.declared.declarations.Env.{Env};
ghost use Rattle.sc_schema.specs.declared.ty.Ty.{Ty};
ghost use Rattle.sc_schema.specs.Declarations.{Declarations};
ghost use Rattle.sc_schema.specs.Lawful.{IsLawful};
ghost use Rattle.sc_schema.specs.Sizes.{levels, max_levels};
ghost use Rattle.sc_values.specs.declared.value.Value.{Value};
ghost use Rattle.sc_values.specs.Proper.{IsProper};
ghost use Rattle.sc_world.specs.Conforms.{conforms};
ghost use Rattle.sc_world.specs.declared.world.World.{World};
ghost use Rattle.sc_world.specs.Stores.{IsMap};
ghost use Rattle.sc_world.specs.WellFormed.{IsWellFormed};
ghost use Rattle.sc_world_json.specs.PlainKeys.{plain_keys};
ghost use Rattle.sc_world_json.specs.Reading.{SpellsWorld, IsReadable, IsSettled};
ghost use Rattle.sc_world_json.specs.Text.{value_data, world_data, world_text};

/// A world that is well-formed for a schema and an environment is determined by its text: two that
/// have one text are one. Of worlds in general this isn't so, since a record with the one field
/// `__entity` may have the text of an entity.
pub fn text_is_unique()
    ensures { (s : Declarations) (env : Env) (literals others : List Uid) (w x : World) → IsWellFormed s env literals w
        → IsWellFormed s env others x → world_text w ≡ world_text x → w ≡ x }
{}

/// What JSON is made of nests as types do: that of a value at most one level deeper than a type of it
/// has levels, since entities and the values of functions are objects in objects, and that of a
/// well-formed world at most five levels deeper than a type may have.
pub fn nesting_laws()
    ensures values { (t : Ty) (x : Value) → IsProper x → IsTrue (conforms t x) → depth (value_data x) ≤ levels t + 1 }
    ensures worlds { (s : Declarations) (env : Env) (literals : List Uid) (w : World) → IsLawful s
        → IsWellFormed s env literals w → depth (world_data w) ≤ max_levels + 5 }
{}

/// Bytes spell just one world or have just one fault, and not both. In a world that bytes spell
/// each uid is stored once, ascending. The text of a well-formed world spells that world, unless one
/// of its records has a field `__entity` or `__extn`. So does that of any world that is made of values
/// of plain keys and nests no deeper than what is read.
///
/// Files are read up to 16,777,216 bytes only, so a world whose text is longer can't be replayed.
pub fn reading_laws()
    ensures settled { (bytes : List ℕ) → IsSettled bytes }
    ensures stored { (bytes : List ℕ) (w : World) → SpellsWorld bytes w → IsMap w.store }
    ensures reads_back { (s : Declarations) (env : Env) (literals : List Uid) (w : World) → IsLawful s
        → IsWellFormed s env literals w → IsTrue (plain_keys w) → SpellsWorld (world_text w) w }
    ensures readable { (w : World) → IsReadable w → SpellsWorld (world_text w) w }
{}
