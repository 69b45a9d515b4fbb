//! The clause at a place.
ghost use Rattle.std.specs.Prelude.{◌<◌, length, map};
ghost use Rattle.sc_refutations.specs.Arenas.{lit_of};
ghost use Rattle.sc_propagation.specs.Steps.{At};

use sc_refutations::Arena;

/// The numbers of the literals of the clause at a place, counted from 0.
pub fn clause_at(clauses: &Arena, place: usize) -> &[u32]
    requires { place < length clauses.now }
    ensures { At clauses.now place (map lit_of result.now) }
{
    match clauses.clause(place) {
        Some(clause) => clause,
        None => &[],
    }
}
