//! Reads the groups of an address.
ghost use Rattle.std.specs.Prelude.{◌≡◌, ℕ, ◌+◌, ◌-◌, ◌*◌, ◌^◌, ◌<◌, ◌≤◌, List, length, IfSome, IfNone};
ghost use Rattle.sc_ip.specs.Notations.{base_of, AreGroupsOf, Adds, Counts};

use crate::notation::Notation;

/// At most eight groups, as one number.
#[derive(Clone, Copy)]
pub struct Groups {
    /// The number, each group a digit of it.
    pub value: u128,
    /// How many groups there are.
    pub count: u32,
    ghost at_most_eight: { count ≤ 8 },
    ghost in_range: { value < 65536 ^ count },
}

impl Groups {
    /// No group.
    fn none() -> Groups
        ensures value { result.value ≡ 0 }
        ensures count { result.count ≡ 0 }
    {
        Groups { value: 0, count: 0 }
    }

    /// With one more group behind.
    fn followed_by(self, notation: Notation, group: u16) -> Groups
        requires room { self.count < 8 }
        requires group_in_range { group < base_of notation }
        ensures value { result.value ≡ self.value * base_of notation + group }
        ensures count { result.count ≡ self.count + 1 }
    {
        Groups {
            value: self.value * notation.base() + u128::from(group),
            count: self.count + 1,
        }
    }

    /// The number with zero groups behind, so that there are eight.
    pub fn filled(self) -> u128
        ensures value { result ≡ self.value * 65536 ^ (8 - self.count) }
        ensures in_range { result + 65536 ^ (8 - self.count) ≤ 2 ^ 128 }
    {
        if self.count == 0 {
            return 0;
        }
        self.value * 65_536_u128.pow(8 - self.count)
    }
}

/// Reads at most eight groups with separators between them, or none from the empty text.
pub fn read_groups(notation: Notation, text: &str) -> Option<Groups>
    ensures some { IfSome result (λ g. Counts notation text.now g.value g.count) }
    ensures none { IfNone result ((numbers : List ℕ) → AreGroupsOf notation text.now numbers → length numbers ≤ 8 → ⊥) }
{
    if text.is_empty() {
        return Some(Groups::none());
    }
    read_after(notation, text, Groups::none())
}

/// Reads one group or more, which follow those that were read before.
fn read_after(notation: Notation, text: &str, before: Groups) -> Option<Groups>
    ensures some { IfSome result (λ g. Adds notation text.now before.value before.count g.value g.count) }
    ensures none { IfNone result ((numbers : List ℕ) → AreGroupsOf notation text.now numbers → 0 < length numbers
        → before.count + length numbers ≤ 8 → ⊥) }
{
    if before.count == 8 {
        return None;
    }
    match text.split_once(notation.separator()) {
        Some((group, rest)) => {
            let number = notation.read_group(group)?;
            read_after(notation, rest, before.followed_by(notation, number))
        }
        None => {
            let number = notation.read_group(text)?;
            Some(before.followed_by(notation, number))
        }
    }
}
