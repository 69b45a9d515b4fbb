//! Reads a word as a number.
ghost use Rattle.std.specs.Prelude.{◌≡◌, ◌≤◌, decimal, length, MatchOption};
ghost use Rattle.std.specs.Str.Parse.{AllDigits, digits_value};
ghost use Rattle.sc_logs.specs.LineSteps.{begins_with, has_number_form};
ghost use Rattle.sc_logs.specs.Readings.{Reads};
ghost use Rattle.sc_footprint.specs.Written.{is_number};

/// Whether a word begins with the digit `0`.
fn begins_with_zero(word: &[u8]) -> bool
    ensures { result ≡ begins_with 48 word.now }
{
    matches!(word, [b'0', ..])
}

/// Whether a word has as many bytes as a number has digits, and begins with `0` only where it has
/// one.
fn has_number_form(word: &[u8]) -> bool
    ensures { result ≡ has_number_form word.now }
{
    let length = word.len();
    let is_padded = begins_with_zero(word);
    0 < length && length <= 18 && (length == 1 || !is_padded)
}

/// The value of digits, where each byte is one.
#[tactic(auto, using(crate::proofs::NumberLaws::digit_at))]
fn value_of(word: &[u8]) -> Option<u64>
    requires { length word.now ≤ 18 }
    ensures { MatchOption result (¬ AllDigits 10 word.now) (λ n. AllDigits 10 word.now
        × (n ≡ digits_value 10 word.now)) }
{
    let mut value = 0u64;
    for byte in word {
        if !byte.is_ascii_digit() {
            return None;
        }
        value = value * 10 + (*byte - b'0') as u64;
    }
    Some(value)
}

/// The number that a word is. A number has one text only, of at most 18 digits.
pub(crate) fn number_of(word: &[u8]) -> Option<u64>
    ensures { Reads is_number decimal word.now result }
{
    if has_number_form(word) {
        value_of(word)
    } else {
        None
    }
}
