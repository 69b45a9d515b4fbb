//! The tokens of a file.
ghost use Rattle.std.specs.Prelude.{◌≡◌, ◌+◌, ◌-◌, ◌<◌, ◌^◌, List, Result, length, false, IfOk, IfErr, Ok, Err, codes};
ghost use Rattle.std.specs.Str.{bytes_eq};
ghost use Rattle.sc_lists.specs.Told.{Gives};
ghost use Rattle.sc_lexer.specs.declared.token.Token.{Token as AnyToken};
ghost use Rattle.sc_lexer.specs.declared.token.LexFault.{LexFault as AnyLexFault};
ghost use Rattle.sc_lexer.specs.Reading.{Reads, ReadFails, Lexes, LexFails};
ghost use Rattle.sc_lexer.specs.Spans.{text_of, AreTokens};
ghost use Rattle.sc_lexer.specs.Fronts.{IsNext, Stops};

use crate::blank::after_blanks;
use crate::front::{Front, longest};
use crate::spelling::bad_escape;
use crate::token::{Kind, LexFault, Span, Token};
use sc_lists::{Fault, Seq};
use std::alloc::Global;

/// Whether a token is the word `like`.
fn is_like(text: &[u8]) -> bool
    ensures { result ≡ bytes_eq text.now (codes "like") }
{
    text == b"like".as_slice()
}

/// The token that begins the bytes, which stand at a place of the file; like tells that the token
/// before it is the word `like`.
#[tactic(auto, using(crate::proofs::NextLaws::IsNext_other, crate::proofs::NextLaws::IsNext_string, crate::proofs::NextLaws::Stops_token, crate::proofs::NextLaws::Stops_escape))]
fn next(bytes: &[u8], at: usize, like: bool) -> Result<Front, LexFault>
    requires { at + length bytes.now < 2 ^ 64 }
    ensures ok { IfOk result (λ front. IsNext like bytes.now front.kind front.len) }
    ensures err { IfErr result (Stops like bytes.now at) }
{
    let Some(front) = longest(bytes) else {
        return Err(LexFault::BadToken(at));
    };
    if front.kind != Kind::Str {
        return Ok(front);
    }
    match bad_escape(&bytes[..front.len], like) {
        Some(escape) => Err(LexFault::BadEscape(at + escape)),
        None => Ok(front),
    }
}

/// The tokens of a text.
#[tactic(auto, using(crate::proofs::ReadingLaws::Completes_start, crate::proofs::ReadingLaws::Completes_more, crate::proofs::ReadingLaws::Completes_end, crate::proofs::ReadingLaws::Completes_fault, crate::proofs::ReadingLaws::front_boundary))]
fn text_tokens(alloc: Global, text: &str) -> Result<Seq<Token>, Fault<LexFault>>
    ensures ok { IfOk result (λ list. Reads (length text.now) false text.now (Ok list)) }
    ensures err { IfErr result (ReadFails text.now) }
{
    let mut tokens = Seq::new(alloc);
    let mut like = false;
    let mut left = text;
    loop {
        let rest = after_blanks(left);
        if rest.is_empty() {
            return Ok(tokens);
        }
        let start = text.len() - rest.len();
        let front = match next(rest.as_bytes(), start, like) {
            Ok(front) => front,
            Err(fault) => return Err(Fault::Told(fault)),
        };
        tokens.push(Token {
            kind: front.kind,
            span: Span {
                start,
                end: start + front.len,
            },
        })?;
        like = is_like(&rest.as_bytes()[..front.len]);
        left = &rest[front.len..];
    }
}

/// The tokens of a file.
#[tactic(auto, using(crate::proofs::ReadingLaws::Lexes_ok, crate::proofs::ReadingLaws::Lexes_err))]
fn read(alloc: Global, bytes: &[u8]) -> Result<Seq<Token>, Fault<LexFault>>
    ensures ok { IfOk result (λ list. Lexes bytes.now (Ok list)) }
    ensures err { IfErr result (LexFails bytes.now) }
{
    match std::str::from_utf8(bytes) {
        Ok(text) => text_tokens(alloc, text),
        Err(error) => Err(Fault::Told(LexFault::BadUtf8(error.valid_up_to()))),
    }
}

/// The tokens of a policy file, by longest match, in order.
///
/// # Errors
///
/// `BadUtf8` at the first ill-formed sequence, else `BadToken` or `BadEscape` at the first place
/// where no token begins, or where a backslash of a string begins no escape; of an unclosed string
/// it is `BadToken` at the opening quote. `NoMemory` for want of memory.
#[tactic(auto, using(crate::proofs::SpanLaws::AreTokens_ok))]
pub fn tokens(alloc: Global, bytes: &[u8]) -> Result<Seq<Token>, Fault<LexFault>>
    // The tokens are what is read of the file.
    ensures ok { IfOk result (λ list. Lexes bytes.now (Ok list)) }
    // The fault is what is read of the file.
    ensures err { IfErr result (LexFails bytes.now) }
    // A file is read in one way, so that is the answer, unless memory runs out.
    ensures complete { (told : Result (List AnyToken) AnyLexFault) → Lexes bytes.now told → Gives result told }
    // Each token stands within the file, with a text of its kind, and they ascend.
    ensures spans { IfOk result (AreTokens bytes.now) }
{
    read(alloc, bytes)
}

/// The text of a token of a file: its bytes from the span's start to its end, as far as there are
/// such.
pub fn text<'b>(bytes: &'b [u8], token: Token) -> &'b [u8]
    ensures { result.now ≡ text_of bytes.now token }
{
    let end = token.span.end.min(bytes.len());
    let start = token.span.start.min(end);
    &bytes[start..end]
}
