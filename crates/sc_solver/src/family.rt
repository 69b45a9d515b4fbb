//! Which theory an instance belongs to.
ghost use Rattle.std.specs.Prelude.{◌≡◌};
ghost use Rattle.sc_solver.specs.Families.{begins, family};

use sc_clauses::Instance;

/// The theory that an instance belongs to.
#[derive(Clone, Copy, Debug, PartialEq, Eq)]
pub enum Family {
    /// That of the defining clauses.
    Definition,
    /// That of equations.
    Equal,
    /// That of sets.
    Set,
    /// That of entities.
    Entity,
    /// That of strings.
    String,
    /// None.
    Other,
}

fn begins(rule: &[u8], letters: &[u8]) -> bool
    ensures { result ≡ begins rule.now letters.now }
{
    rule.starts_with(letters)
}

/// The theory that an instance belongs to, by the first letters of its rule. A defining clause's rule
/// has no letters.
#[tactic(auto, unfolding(crate::specs::Families::family))]
pub fn family_of(instance: &Instance) -> Family
    ensures { result ≡ family instance.now.rule }
{
    let rule = instance.rule.as_str().as_bytes();
    if rule.is_empty() {
        Family::Definition
    } else if begins(rule, b"EQ9") {
        Family::Entity
    } else if begins(rule, b"EQ") {
        Family::Equal
    } else if begins(rule, b"SE") {
        Family::Set
    } else if begins(rule, b"EN") {
        Family::Entity
    } else if begins(rule, b"ST") {
        Family::String
    } else {
        Family::Other
    }
}
