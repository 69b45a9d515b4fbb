//! Numbers and signs as words.
ghost use Rattle.std.specs.Prelude.{◌≡◌, map, IfOk};
ghost use Rattle.std.specs.List.{list_all};
ghost use Rattle.th_strings_instances.specs.Names as names;

use sc_clauses::Word;
use sc_lists::Seq;
use std::alloc::{AllocError, Global};

/// Whether a word is a number.
fn is_number(word: &Word) -> bool
    ensures { result ≡ names.is_numeral word.now }
{
    match word {
        Word::Number(_) => true,
        Word::Signs(_) => false,
    }
}

/// Whether each word is a number.
pub(crate) fn are_numbers(words: &[Word]) -> bool
    ensures { result ≡ list_all names.is_numeral words.now }
{
    words.iter().all(|word| is_number(word))
}

/// The number that a word is, and 0 of another.
fn number_in(word: &Word) -> u64
    ensures { result ≡ names.number_in word.now }
{
    match word {
        Word::Number(n) => *n,
        Word::Signs(_) => 0,
    }
}

/// The numbers that words are.
pub(crate) fn numbers(alloc: Global, words: &[Word]) -> Result<Seq<u64>, AllocError>
    ensures { IfOk result (λ ns. ns ≡ map names.number_in words.now) }
{
    let mut numbers = Seq::new(alloc);
    let mut rest = words;
    while let Some((word, later)) = rest.split_first() {
        numbers.push(number_in(word))?;
        rest = later;
    }
    Ok(numbers)
}

/// A copy of signs.
pub fn copied_signs(alloc: Global, signs: &[Option<bool>]) -> Result<Seq<Option<bool>>, AllocError>
    ensures { IfOk result (λ v. v ≡ signs.now) }
{
    let mut copy = Seq::new(alloc);
    let mut rest = signs;
    while let Some((sign, later)) = rest.split_first() {
        copy.push(*sign)?;
        rest = later;
    }
    Ok(copy)
}
