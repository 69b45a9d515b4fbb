//! Whether a text matches a pattern, in time of at most the pattern's length times the text's, and
//! without memory.
ghost use Rattle.std.specs.Prelude.{◌≡◌, ◌↔◌, ◌∷◌, [], IsTrue, MatchOption};
ghost use Rattle.std.specs.Str.{chars};
ghost use Rattle.sc_pattern.specs.declared.part.Part.TheVariants.{Star as any_characters, Char as this_character};
ghost use Rattle.sc_pattern.specs.Language.{IsMatch, is_match};
ghost use Rattle.sc_pattern.specs.Runs.{BeginsNoRun, IsAfterRun};

use crate::part::Part;
use crate::pattern::Pattern;

/// The first character of a text, and what follows it.
fn split_char(text: &str) -> Option<(char, &str)>
    ensures { MatchOption result (chars text.now ≡ []) (λ x. chars text.now ≡ x.0 ∷ chars x.1.now) }
{
    let mut chars = text.chars();
    let first = chars.next()?;
    Some((first, chars.as_str()))
}

/// Whether a text has no characters.
fn is_end(text: &str) -> bool
    ensures { IsTrue result ↔ (chars text.now ≡ []) }
{
    text.is_empty()
}

/// The character that comes first in a pattern, and what follows it; or none where a star does, or
/// there is no part.
fn split_wanted(parts: &[Part]) -> Option<(char, &[Part])>
    ensures { MatchOption result (BeginsNoRun parts.now) (λ x. parts.now ≡ this_character x.0 ∷ x.1.now) }
{
    match parts.split_first() {
        Some((Part::Char(wanted), later)) => Some((*wanted, later)),
        Some((Part::Star, _)) | None => None,
    }
}

/// What is left of a pattern from its first star on, and of a text, after the characters before that
/// star; or none where the text doesn't begin with these characters.
fn after_run<'a>(pattern: &'a [Part], text: &'a str) -> Option<(&'a [Part], &'a str)>
    ensures { MatchOption result (¬ (IsMatch pattern.now (chars text.now))) (λ x. IsAfterRun pattern.now
        (chars text.now) x.0.now (chars x.1.now)) }
{
    let mut parts = pattern;
    let mut rest = text;
    while let Some((wanted, later)) = split_wanted(parts) {
        let (first, shorter) = split_char(rest)?;
        if first != wanted {
            return None;
        }
        parts = later;
        rest = shorter;
    }
    Some((parts, rest))
}

/// Whether a text matches a star and then these parts. The star takes as few characters as it can;
/// where the characters that come next were found, no earlier star has to be gone back to.
fn matches_after_star(after: &[Part], text: &str) -> bool
    ensures { IsTrue result ↔ IsMatch (any_characters ∷ after.now) (chars text.now) }
{
    let mut parts = after;
    let mut rest = text;
    loop {
        if let Some((left, tail)) = after_run(parts, rest) {
            if let Some((_, later)) = left.split_first() {
                parts = later;
                rest = tail;
                continue;
            }
            if is_end(tail) {
                return true;
            }
        }
        let Some((_, shorter)) = split_char(rest) else {
            return false;
        };
        rest = shorter;
    }
}

/// Whether a text matches a pattern (Cedar language reference, operator `like`).
pub fn matches(pattern: &Pattern, text: &str) -> bool
    ensures decides { IsTrue result ↔ IsMatch pattern.now (chars text.now) }
    ensures value { result ≡ is_match pattern.now (chars text.now) }
{
    matches_parts(pattern.parts(), text)
}

/// Whether a text matches the parts of a pattern.
fn matches_parts(parts: &[Part], text: &str) -> bool
    ensures { IsTrue result ↔ IsMatch parts.now (chars text.now) }
{
    let Some((left, rest)) = after_run(parts, text) else {
        return false;
    };
    match left.split_first() {
        None => is_end(rest),
        Some((_, later)) => matches_after_star(later, rest),
    }
}
