//! The numbers that digits write.
ghost use Rattle.std.specs.Prelude.{◌≡◌, true, pos};
ghost use Rattle.std.specs.Option.{SomeIff};
ghost use Rattle.std.specs.Char.{digit_value};
ghost use Rattle.std.specs.Str.Parse.{digits_value};
ghost use Rattle.sc_lexemes.specs.Tables.{is_long};

/// The value of a digit. Bytes that are no digits have one too, so that the value of a text is that
/// of `digits_value` whatever it holds.
#[tactic(auto, using(crate::proofs::NumberLaws::no_digit))]
fn digit_value(byte: u8) -> u128
    ensures { result ≡ digit_value byte }
{
    match (byte as char).to_digit(36) {
        Some(digit) => digit as u128,
        None => 36,
    }
}

/// The number that decimal digits write, if it fits in 64 bits with its sign. Zeros may come first.
pub fn long_of(digits: &str) -> Option<i64>
    ensures { SomeIff result (is_long (digits_value 10 digits.now) ≡ true) (pos (digits_value 10 digits.now)) }
{
    let mut value = 0;
    for byte in digits.as_bytes() {
        value = value * 10 + digit_value(*byte);
        if value > i64::MAX as u128 {
            return None;
        }
    }
    Some(value as i64)
}
