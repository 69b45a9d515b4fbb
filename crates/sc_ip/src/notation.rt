//! How the groups of an address are written.
ghost use Rattle.std.specs.Prelude.{◌≡◌, ℕ, ◌<◌, length, slice_index, IfSome, IfNone, IsTrue, ◌↔◌};
ghost use Rattle.std.specs.Fmt.{decimal};
ghost use Rattle.sc_ip.specs.IpText.{IsHexadecimalGroup};

/// How the groups of an address are written.
#[derive(Clone, Copy)]
pub enum Notation {
    /// Numbers to 255 in decimal, between dots.
    Decimal,
    /// One to four hexadecimal digits, between colons.
    Hexadecimal,
}

impl Notation {
    ghost use Rattle.sc_ip.specs.Notations.{separator_of, base_of, IsGroupOf};

    /// The character between groups.
    pub fn separator(self) -> char
        ensures { result ≡ separator_of self }
    {
        match self {
            Notation::Decimal => '.',
            Notation::Hexadecimal => ':',
        }
    }

    /// One more than the greatest number of a group.
    pub fn base(self) -> u128
        ensures { result ≡ base_of self }
    {
        match self {
            Notation::Decimal => 256,
            Notation::Hexadecimal => 65_536,
        }
    }

    /// The number that a group stands for.
    pub fn read_group(self, text: &str) -> Option<u16>
        ensures some { IfSome result (λ n. IsGroupOf self text.now n) }
        ensures in_range { IfSome result (λ n. n < base_of self) }
        ensures none { IfNone result ((n : ℕ) → IsGroupOf self text.now n → ⊥) }
    {
        match self {
            Notation::Decimal => Some(u16::from(read_number(text)?)),
            Notation::Hexadecimal => read_hexadecimal(text),
        }
    }
}

/// The number to 255 that decimal digits without leading zeros stand for.
pub fn read_number(text: &str) -> Option<u8>
    ensures some { IfSome result (λ n. text.now ≡ decimal n) }
    ensures in_range { IfSome result (λ n. n < 256) }
    ensures none { IfNone result ((n : ℕ) → n < 256 → text.now ≡ decimal n → ⊥) }
{
    if text.starts_with('+') {
        return None;
    }
    if has_leading_zero(text) {
        return None;
    }
    text.parse().ok()
}

/// Whether a zero comes first, and not alone.
fn has_leading_zero(text: &str) -> bool
    ensures { IsTrue result ↔ ((1 < length text.now) × (slice_index text.now 0 ≡ 48)) }
{
    text.len() > 1 && text.starts_with('0')
}

/// The number that one to four hexadecimal digits stand for.
fn read_hexadecimal(text: &str) -> Option<u16>
    ensures some { IfSome result (λ n. IsHexadecimalGroup text.now n) }
    ensures none { IfNone result ((n : ℕ) → IsHexadecimalGroup text.now n → ⊥) }
{
    if text.starts_with('+') || text.len() > 4 {
        return None;
    }
    u16::from_str_radix(text, 16).ok()
}
