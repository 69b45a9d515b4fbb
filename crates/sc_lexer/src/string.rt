//! Where a string ends.
ghost use Rattle.std.specs.Prelude.{◌≡◌, ℕ, ◌<◌, ◌≤◌, length, take, true, false, IfSome, IfNone};
ghost use Rattle.sc_lexer.specs.Tokens.{closes};

/// How many bytes there are up to the closing quote of a string, and with it, from its first byte
/// after the opening quote on; or none, where the string isn't closed.
#[tactic(auto, using(crate::proofs::StringLaws::Passes_start, crate::proofs::StringLaws::Passes_one, crate::proofs::StringLaws::Passes_two, crate::proofs::StringLaws::closes_at, crate::proofs::StringLaws::closes_never))]
pub(crate) fn closing_len(bytes: &[u8]) -> Option<usize>
    ensures within { IfSome result (λ n. n ≤ length bytes.now) }
    ensures some { IfSome result (λ n. closes (take n bytes.now) ≡ true) }
    ensures none { IfNone result ((n : ℕ) → closes (take n bytes.now) ≡ false) }
{
    let mut at = 0;
    while at < bytes.len() {
        match bytes[at] {
            b'"' => return Some(at + 1),
            b'\\' => at += 2,
            _ => at += 1,
        }
    }
    None
}
