//! Whether texts and bytes are equal. A comparison by `==` beside a literal takes a check some five times as long as
//! a call.
ghost use Rattle.std.specs.Prelude.{◌≡◌, IsTrue, false};
ghost use Rattle.std.specs.Str.{bytes_eq};

/// Whether two texts are equal.
pub fn equals(text: &str, other: &str) -> bool
    ensures { result ≡ bytes_eq text.now other.now }
{
    text == other
}

/// Whether two slices end in different bytes. So most names of one length are told apart at once.
#[inline(always)]
#[tactic(auto, using(crate::proofs::TextLaws::ends_apart))]
fn end_apart(bytes: &[u8], other: &[u8]) -> bool
    ensures { IsTrue result → bytes_eq bytes.now other.now ≡ false }
{
    let Some(last) = bytes.last() else {
        return false;
    };
    let Some(end) = other.last() else {
        return false;
    };
    *last != *end
}

/// Whether the same bytes stand in two slices.
#[inline(always)]
pub fn same_bytes(bytes: &[u8], other: &[u8]) -> bool
    ensures { result ≡ bytes_eq bytes.now other.now }
{
    if end_apart(bytes, other) {
        return false;
    }
    bytes == other
}
