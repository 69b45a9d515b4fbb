//! What an assignment says of literals.
ghost use Rattle.std.specs.Prelude.{◌≡◌};
ghost use Rattle.sc_rule_instances.specs.Known.{seen_value, known as known_in};

use sc_clauses::{Assignment, Lit};

/// The truth of an atom, where it has one. Of atom 1, which is `true`, an assignment can only say so.
fn seen(m: &Assignment, atom: u64) -> Option<bool>
    ensures { result ≡ seen_value m.now atom }
{
    if atom == 1 {
        return match m.value(1) {
            Some(true) => Some(true),
            _ => None,
        };
    }
    m.value(atom)
}

/// The truth of a literal, where it has one.
pub fn known_literal(m: &Assignment, lit: Lit) -> Option<bool>
    ensures { result ≡ known_in m.now lit }
{
    match seen(m, lit.atom) {
        Some(value) => Some(value != lit.negated),
        None => None,
    }
}
