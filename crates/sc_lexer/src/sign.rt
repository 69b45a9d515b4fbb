//! Signs.
ghost use Rattle.std.specs.Prelude.{◌≡◌};
ghost use Rattle.sc_lexer.specs.Tokens.{one_sign, two_sign};

use crate::token::Kind;

/// The sign of one byte.
#[tactic(auto, unfolding(crate::specs::Tokens::one_sign))]
pub(crate) fn one_sign(byte: u8) -> Option<Kind>
    ensures { result ≡ one_sign byte }
{
    match byte {
        b'<' => Some(Kind::Less),
        b'>' => Some(Kind::Greater),
        b'+' => Some(Kind::Plus),
        b'-' => Some(Kind::Minus),
        b'*' => Some(Kind::Star),
        b'!' => Some(Kind::Not),
        b'.' => Some(Kind::Dot),
        b',' => Some(Kind::Comma),
        b';' => Some(Kind::Semicolon),
        b':' => Some(Kind::Colon),
        b'(' => Some(Kind::OpenParenthesis),
        b')' => Some(Kind::CloseParenthesis),
        b'[' => Some(Kind::OpenBracket),
        b']' => Some(Kind::CloseBracket),
        b'{' => Some(Kind::OpenBrace),
        b'}' => Some(Kind::CloseBrace),
        b'@' => Some(Kind::At),
        b'?' => Some(Kind::Question),
        _ => None,
    }
}

/// The sign of two bytes.
#[tactic(auto, unfolding(crate::specs::Tokens::two_sign))]
pub(crate) fn two_sign(first: u8, second: u8) -> Option<Kind>
    ensures { result ≡ two_sign first second }
{
    match (first, second) {
        (b':', b':') => Some(Kind::DoubleColon),
        (b'&', b'&') => Some(Kind::And),
        (b'|', b'|') => Some(Kind::Or),
        (b'=', b'=') => Some(Kind::Equal),
        (b'!', b'=') => Some(Kind::NotEqual),
        (b'<', b'=') => Some(Kind::LessOrEqual),
        (b'>', b'=') => Some(Kind::GreaterOrEqual),
        _ => None,
    }
}
