//! The front of a text: digits, and what is none.
ghost use Rattle.std.specs.Prelude.{◌≡◌, ◌<◌, ◌^◌, ◌≤◌, length};
ghost use Rattle.std.specs.List.{prefix_len};
ghost use Rattle.std.specs.Char.{is_ascii_digit};
ghost use Rattle.sc_date_texts.specs.Fronts.{IsFront, is_other};
ghost use Rattle.std.specs.Option.{SomeIff};
ghost use Rattle.std.specs.Str.Parse.{AllDigits, digits_value};

/// The digits that a text begins with, what stands before the next digit, and the rest.
#[tactic(auto, unfolding(crate::specs::Fronts::front_digits, crate::specs::Fronts::behind_digits, crate::specs::Fronts::front_word, crate::specs::Fronts::behind_word))]
pub fn front(text: &[u8]) -> (&[u8], &[u8], &[u8])
    ensures { IsFront text.now result.0.now result.1.now result.2.now }
{
    let (digits, behind) = text.split_at(digits_length(text));
    let (word, rest) = behind.split_at(word_length(behind));
    (digits, word, rest)
}

/// How many digits a text begins with.
fn digits_length(text: &[u8]) -> usize
    ensures within { result ≤ length text.now }
    ensures value { result ≡ prefix_len is_ascii_digit text.now }
{
    text.iter().take_while(|byte| byte.is_ascii_digit()).count()
}

/// How many bytes stand before the first digit.
fn word_length(text: &[u8]) -> usize
    ensures within { result ≤ length text.now }
    ensures value { result ≡ prefix_len is_other text.now }
{
    text.iter()
        .take_while(|byte| !byte.is_ascii_digit())
        .count()
}

/// The number that digits stand for.
pub fn number(digits: &[u8]) -> Option<u64>
    requires { AllDigits 10 digits.now }
    ensures { SomeIff result (digits_value 10 digits.now < 2 ^ 64) (digits_value 10 digits.now) }
{
    let mut number = 0_u64;
    for digit in digits {
        number = number
            .checked_mul(10)?
            .checked_add(u64::from(*digit - b'0'))?;
    }
    Some(number)
}
