//! What holds of defining clauses.
ghost use Rattle.std.specs.Prelude.{◌<◌, ◌^◌, List, length};
ghost use Rattle.std.specs.List.{Contains};
ghost use Rattle.sc_clauses.specs.Clauses.{Clause as AnyClause};
ghost use Rattle.sc_world.specs.declared.world.World.{World as AnyWorld};
ghost use Rattle.sc_footprint.specs.Problems.{Posed, IsPosed};
ghost use Rattle.sc_footprint.specs.Definitions.{defining};
ghost use Rattle.sc_footprint.specs.Theories.{IsClauseOf};
ghost use Rattle.sc_footprint.specs.Truths.{IsTrueIn, Satisfies};

use sc_footprint::problem_laws;

/// The defining clauses have literals of listed atoms, none with its negation, and in a well-formed
/// world in which the goal is true each of them is true. There are fewer than 2^32 of them.
pub fn defining_laws()
    ensures lawful { (p : Posed) (c : AnyClause) → IsPosed p → Contains (defining p) c → IsClauseOf p c }
    ensures holds { (p : Posed) (w : AnyWorld) (c : AnyClause) → IsPosed p → Satisfies p w → Contains (defining p) c
        → IsTrueIn p w c }
    ensures few { (p : Posed) → IsPosed p → length (defining p) < 2 ^ 32 }
{
    problem_laws();
}
