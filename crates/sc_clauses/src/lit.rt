//! Literals.
ghost use Rattle.std.specs.Prelude.{◌≡◌};
ghost use Rattle.sc_clauses.specs.Clauses.{negation, lit_eq};

/// An atom, by its number, counted from 1.
pub type Atom = u64;

/// An atom or its negation.
#[derive(Clone, Copy, Debug, PartialEq, Eq, PartialOrd, Ord)]
pub struct Lit {
    /// The atom.
    pub atom: Atom,
    /// Whether it is the atom's negation.
    pub negated: bool,
}

/// The literal that is true where this one is false.
pub fn negation(lit: Lit) -> Lit
    ensures { result ≡ negation lit }
{
    Lit {
        atom: lit.atom,
        negated: !lit.negated,
    }
}

/// Whether two literals are the same.
pub fn is_same(a: Lit, b: Lit) -> bool
    ensures { result ≡ lit_eq a b }
{
    a.atom == b.atom && a.negated == b.negated
}
