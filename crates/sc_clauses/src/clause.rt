//! Clauses.
ghost use Rattle.std.specs.Prelude.{◌≡◌};
ghost use Rattle.std.specs.List.{list_any};
ghost use Rattle.sc_clauses.specs.Clauses.{is_in, contained, lit_eq};

use crate::lit::{Lit, is_same};
use sc_lists::Seq;

/// A clause: it says that some literal of it is true. One that is written twice counts once.
pub type Clause = Seq<Lit>;

/// Whether a literal is one of these.
pub fn is_in(lit: Lit, lits: &[Lit]) -> bool
    ensures { result ≡ is_in lits.now lit }
{
    lits.iter().any(|other| is_same(lit, *other))
}

/// Whether each literal of the first clause is one of the second.
pub fn contained(c: &Clause, d: &Clause) -> bool
    ensures { result ≡ contained c.now d.now }
{
    let lits = d.as_slice();
    c.as_slice().iter().all(|lit| is_in(*lit, lits))
}
