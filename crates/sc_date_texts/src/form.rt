//! The form of a text, and the numbers at its places.
ghost use Rattle.std.specs.Prelude.{◌≡◌, ◌+◌, ◌-◌, ◌<◌, length, get_or};
ghost use Rattle.sc_date_texts.specs.Forms.{allows, fits, two_at, three_at, four_at};

/// Whether a byte may stand where a pattern has `pattern`: a digit for `#`, else the byte itself.
fn allows(pattern: u8, byte: u8) -> bool
    ensures { result ≡ allows pattern byte }
{
    if pattern == b'#' {
        byte.is_ascii_digit()
    } else {
        byte == pattern
    }
}

/// Whether a text is as long as a pattern and has at each place what the pattern allows.
#[tactic(auto, unfolding(crate::specs::Forms::fits))]
pub fn fits(pattern: &[u8], text: &[u8]) -> bool
    ensures { result ≡ fits pattern.now text.now }
{
    match (pattern.split_first(), text.split_first()) {
        (None, None) => true,
        (Some((first, patterns)), Some((byte, bytes))) => {
            allows(*first, *byte) && fits(patterns, bytes)
        }
        _ => false,
    }
}

/// The number that two digits are.
#[tactic(auto, unfolding(crate::specs::Forms::two_at))]
pub fn two_at(text: &[u8], place: usize) -> u32
    requires { place + 1 < length text.now }
    ensures { result ≡ two_at text.now place }
{
    digit_at(text, place) * 10 + digit_at(text, place + 1)
}

/// The number that three digits are.
#[tactic(auto, unfolding(crate::specs::Forms::three_at, crate::specs::Forms::two_at))]
pub fn three_at(text: &[u8], place: usize) -> u32
    requires { place + 2 < length text.now }
    ensures { result ≡ three_at text.now place }
{
    digit_at(text, place) * 100 + two_at(text, place + 1)
}

/// The number that four digits are.
#[tactic(auto, unfolding(crate::specs::Forms::four_at, crate::specs::Forms::two_at))]
pub fn four_at(text: &[u8], place: usize) -> u32
    requires { place + 3 < length text.now }
    ensures { result ≡ four_at text.now place }
{
    two_at(text, place) * 100 + two_at(text, place + 2)
}

/// The number that a digit is.
fn digit_at(text: &[u8], place: usize) -> u32
    requires { place < length text.now }
    ensures value { result ≡ get_or text.now place 0 - 48 }
    ensures bound { result < 256 }
{
    u32::from(text[place].saturating_sub(b'0'))
}
