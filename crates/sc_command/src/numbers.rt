//! Budgets, the places of environments, and how many policies are generated.
ghost use Rattle.std.specs.Prelude.{◌≡◌, ℕ, IfSome, IfNone};
ghost use Rattle.sc_command.specs.CommandLine.{IsBudget, IsPlace, IsSize, begins_with_plus};

/// The least units that a budget may have.
const LEAST_UNITS: u64 = 1;

/// The most units that a budget may have.
const MOST_UNITS: u64 = 1_000_000_000;

/// The fewest policies that are generated.
const FEWEST_POLICIES: u64 = 1;

/// The most policies that are generated.
const MOST_POLICIES: u64 = 1000;

fn begins_with_plus(text: &str) -> bool
    ensures { result ≡ begins_with_plus text.now }
{
    match text.as_bytes().split_first() {
        None => false,
        Some((first, _)) => *first == b'+',
    }
}

/// The budget that a text is.
pub(crate) fn budget_of(text: &str) -> Option<u64>
    ensures found { IfSome result (IsBudget text.now) }
    ensures none { IfNone result ((n : ℕ) → IsBudget text.now n → ⊥) }
{
    if begins_with_plus(text) {
        return None;
    }
    let Ok(n) = text.parse::<u64>() else {
        return None;
    };
    if n < LEAST_UNITS || n > MOST_UNITS {
        return None;
    }
    Some(n)
}

/// The place of an environment that a text is.
pub(crate) fn place_of(text: &str) -> Option<u32>
    ensures found { IfSome result (IsPlace text.now) }
    ensures none { IfNone result ((n : ℕ) → IsPlace text.now n → ⊥) }
{
    if begins_with_plus(text) {
        return None;
    }
    let Ok(n) = text.parse::<u32>() else {
        return None;
    };
    Some(n)
}

/// How many policies a text asks for.
pub(crate) fn size_of(text: &str) -> Option<u64>
    ensures found { IfSome result (IsSize text.now) }
    ensures none { IfNone result ((n : ℕ) → IsSize text.now n → ⊥) }
{
    if begins_with_plus(text) {
        return None;
    }
    let Ok(n) = text.parse::<u64>() else {
        return None;
    };
    if n < FEWEST_POLICIES || n > MOST_POLICIES {
        return None;
    }
    Some(n)
}
