//! Cuts bytes at the first byte of a value.
ghost use Rattle.std.specs.Prelude.{◌≡◌, ◌++◌, ◌∷◌, IsTrue, MatchOption};
ghost use Rattle.sc_logs.specs.Texts.{lacks};

/// The bytes before the first one of a value, and those after it.
pub(crate) fn cut_at(bytes: &[u8], end: u8) -> Option<(&[u8], &[u8])>
    ensures { MatchOption result (IsTrue (lacks end bytes.now)) (λ p. (bytes.now ≡ p.0.now ++ end ∷ p.1.now)
        × IsTrue (lacks end p.0.now)) }
{
    for (i, byte) in bytes.iter().enumerate() {
        if *byte == end {
            return Some((&bytes[..i], &bytes[i + 1..]));
        }
    }
    None
}
