//! Texts that a search excludes, since they were found already.
ghost use Rattle.std.specs.Prelude.{◌≡◌, ◌&&◌};
ghost use Rattle.sc_languages.specs.Searching.{begins as begins_one, is_on as is_on_of, is_one as is_one_of};

use sc_lists::Seq;

/// Whether a text is a prefix of another.
fn begins(word: &[char], whole: &[char]) -> bool
    ensures { result ≡ begins_one word.now whole.now }
{
    let mut left = whole;
    for c in word {
        let Some((d, rest)) = left.split_first() else {
            return false;
        };
        if d != c {
            return false;
        }
        left = rest;
    }
    true
}

/// Whether a text is a prefix of an excluded one.
pub(crate) fn is_on(words: &[Seq<char>], word: &[char]) -> bool
    ensures { result ≡ is_on_of words.now word.now }
{
    for w in words {
        if begins(word, w.as_slice()) {
            return true;
        }
    }
    false
}

/// Whether two texts are equal.
fn is_same(word: &[char], other: &[char]) -> bool
    ensures { result ≡ (begins_one word.now other.now && begins_one other.now word.now) }
{
    let there = begins(word, other);
    let back = begins(other, word);
    there & back
}

/// Whether a text is excluded.
pub(crate) fn is_one(words: &[Seq<char>], word: &[char]) -> bool
    ensures { result ≡ is_one_of words.now word.now }
{
    for w in words {
        if is_same(word, w.as_slice()) {
            return true;
        }
    }
    false
}
