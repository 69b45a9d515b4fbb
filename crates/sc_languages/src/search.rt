//! The breadth-first search for one text that gives each pattern its sign and isn't excluded, over the reachable sets
//! of active items, each once.
ghost use Rattle.std.specs.Prelude.{◌≡◌, ◌&&◌, not, ◌++◌, ◌∷◌, [], ◌+◌, ◌<◌, ◌^◌, true, false, ℕ, List, slice_get, length, IfOk, IfSome, IfNone};
ghost use Rattle.std.specs.Char.{IsScalar};
ghost use Rattle.std.specs.Option.{option_map};
ghost use Rattle.sc_lists.specs.Members.{Has};
ghost use Rattle.sc_languages.specs.Items.{accepts as accepts_of, obeys};
ghost use Rattle.sc_languages.specs.Strings.{IsText};
ghost use Rattle.sc_languages.specs.Searching.{Entry, IsEntry, IsAt, IsStepped, IsEnd, IsFollowed, IsFound, IsWalk, AreEntries, Covers, is_one as is_one_of};

use crate::item::Item;
use crate::others::{is_on, is_one};
use crate::reading::{accepts, is_dead, start, step};
use crate::visited::Visited;
use sc_lists::Seq;
use std::alloc::{AllocError, Global};

/// A copy of a text.
fn copy(alloc: Global, word: &[char]) -> Result<Vec<char>, AllocError>
    ensures { IfOk result (λ v. v.items ≡ word.now) }
{
    word.to_vec(alloc)
}

/// A text with one character appended.
fn longer(alloc: Global, word: &[char], c: char) -> Result<Vec<char>, AllocError>
    ensures { IfOk result (λ v. v.items ≡ word.now ++ c ∷ []) }
{
    let mut further = word.to_vec(alloc)?;
    further.push(c)?;
    Ok(further)
}

/// Appends one character to a text: the result, if it is sought, or else none, and the active items that it leads to
/// are queued.
fn follow_one(
    alloc: Global,
    items: &[Item],
    words: &[Seq<char>],
    visited: &mut Visited,
    marks: &[bool],
    word: &[char],
    c: char,
) -> Result<Option<Vec<char>>, AllocError>
    ensures scalar { IsScalar c }
    ensures found { IfOk result (λ o. IfSome o (λ v. IsEnd items.now words.now marks.now word.now v.items)) }
    ensures none { IfOk result (λ o. IfNone o
        (IsStepped items.now words.now marks.now word.now c visited.old visited.new)) }
{
    let next = step(alloc, items, c, marks)?;
    if is_dead(items, next.as_slice()) {
        return Ok(None);
    }
    if visited.has(next.as_slice()) {
        return Ok(None);
    }
    let further = longer(alloc, word, c)?;
    if is_on(words, further.as_slice()) {
        return Ok(None);
    }
    if accepts(items, next.as_slice()) {
        return Ok(Some(further));
    }
    visited.put(next, further)?;
    Ok(None)
}

/// Appends each character of the alphabet in turn: the first result that is sought, or else none, and all active
/// items that they lead to are queued.
fn follow(
    alloc: Global,
    items: &[Item],
    symbols: &[char],
    words: &[Seq<char>],
    visited: &mut Visited,
    marks: &[bool],
    word: &[char],
) -> Result<Option<Vec<char>>, AllocError>
    ensures found { IfOk result (λ o. IfSome o (λ v. IsEnd items.now words.now marks.now word.now v.items)) }
    ensures none { IfOk result (λ o. IfNone o
        (IsFollowed items.now symbols.now words.now marks.now word.now visited.old visited.new)) }
{
    for c in symbols {
        if let Some(found) = follow_one(alloc, items, words, visited, marks, word, *c)? {
            return Ok(Some(found));
        }
    }
    Ok(None)
}

/// Whether a text that leads to these active items is sought: each pattern has its sign, and the text isn't excluded.
fn is_sought(items: &[Item], words: &[Seq<char>], marks: &[bool], word: &[char]) -> bool
    ensures { result ≡ (accepts_of false items.now marks.now && not (is_one_of words.now word.now)) }
{
    let ends = accepts(items, marks);
    let other = !is_one(words, word);
    ends & other
}

/// The text itself, if it is sought, and else what `follow` gives.
fn visit(
    alloc: Global,
    items: &[Item],
    symbols: &[char],
    words: &[Seq<char>],
    visited: &mut Visited,
    marks: &[bool],
    word: &[char],
) -> Result<Option<Vec<char>>, AllocError>
    requires { IsAt items.now marks.now word.now }
    ensures found { IfOk result (λ o. IfSome o (λ v. IsFound items.now words.now v.items)) }
    ensures known { IfOk result (λ o. IfNone o (accepts_of false items.now marks.now ≡ true → Has words.now word.now)) }
    ensures none { IfOk result (λ o. IfNone o
        (IsFollowed items.now symbols.now words.now marks.now word.now visited.old visited.new)) }
{
    if is_sought(items, words, marks, word) {
        return Ok(Some(copy(alloc, word)?));
    }
    match follow(alloc, items, symbols, words, visited, marks, word)? {
        Some(found) => Ok(Some(found)),
        None => Ok(None),
    }
}

/// Visits each prefix of an excluded text, the text itself included.
fn walk(
    alloc: Global,
    items: &[Item],
    symbols: &[char],
    words: &[Seq<char>],
    visited: &mut Visited,
    whole: &[char],
) -> Result<Option<Vec<char>>, AllocError>
    requires text { IsText whole.now }
    requires entries { (e : Entry) → Has visited.old e → IsEntry items.now words.now e }
    ensures found { IfOk result (λ o. IfSome o (λ v. IsFound items.now words.now v.items)) }
    ensures none { IfOk result (λ o. IfNone o (IsWalk items.now symbols.now words.now visited.old visited.new whole.now
        (length whole.now + 1))) }
{
    let mut marks = start(alloc, items)?;
    let mut word = Vec::new(alloc);
    for c in whole {
        let outcome = visit(
            alloc,
            items,
            symbols,
            words,
            visited,
            marks.as_slice(),
            word.as_slice(),
        )?;
        if let Some(found) = outcome {
            return Ok(Some(found));
        }
        marks = step(alloc, items, *c, marks.as_slice())?;
        word.push(*c)?;
    }
    match visit(
        alloc,
        items,
        symbols,
        words,
        visited,
        marks.as_slice(),
        word.as_slice(),
    )? {
        Some(found) => Ok(Some(found)),
        None => Ok(None),
    }
}

/// A copy of the queue's entry at a place, counted from 0.
fn entry(
    alloc: Global,
    visited: &Visited,
    at: u64,
) -> Result<Option<(Vec<bool>, Vec<char>)>, AllocError>
    ensures value { IfOk result (λ o. option_map (λ p. (p.0.items, p.1.items)) o ≡ slice_get visited.now at) }
    ensures small { IfOk result (λ o. IfSome o (λ p. at + 1 < 2 ^ 64)) }
{
    let _count = visited.len();
    let Some((marks, word)) = visited.get(at as usize) else {
        return Ok(None);
    };
    let marks = marks.to_vec(alloc)?;
    let word = word.to_vec(alloc)?;
    Ok(Some((marks, word)))
}

/// Follows the queue's entries in order, those that are queued meanwhile included.
fn search(
    alloc: Global,
    items: &[Item],
    symbols: &[char],
    words: &[Seq<char>],
    visited: &mut Visited,
) -> Result<Option<Vec<char>>, AllocError>
    requires covers { Covers items.now words.now symbols.now }
    requires entries { AreEntries items.now symbols.now words.now words.now visited.old }
    ensures found { IfOk result (λ o. IfSome o (λ v. IsFound items.now words.now v.items)) }
    ensures none { IfOk result (λ o. IfNone o ((text : List ℕ) → IsText text → obeys items.now text ≡ true
        → Has words.now text)) }
{
    // No excluded text begins with an entry's text.
    let others = Vec::new(alloc);
    let mut done = 0;
    loop {
        let Some((marks, word)) = entry(alloc, visited, done)? else {
            return Ok(None);
        };
        let outcome = follow(
            alloc,
            items,
            symbols,
            others.as_slice(),
            visited,
            marks.as_slice(),
            word.as_slice(),
        )?;
        if let Some(found) = outcome {
            return Ok(Some(found));
        }
        done += 1;
    }
}

/// A text that gives each pattern its sign and isn't excluded, or none where there is no such text.
pub(crate) fn find(
    alloc: Global,
    items: &[Item],
    symbols: &[char],
    words: &[Seq<char>],
) -> Result<Option<Vec<char>>, AllocError>
    requires covers { Covers items.now words.now symbols.now }
    requires texts { (w : List ℕ) → Has words.now w → IsText w }
    ensures found { IfOk result (λ o. IfSome o (λ v. IsFound items.now words.now v.items)) }
    ensures none { IfOk result (λ o. IfNone o ((text : List ℕ) → IsText text → obeys items.now text ≡ true
        → Has words.now text)) }
{
    let mut visited = Visited::new(alloc);
    let empty = Vec::new(alloc);
    let at_start = walk(alloc, items, symbols, words, &mut visited, empty.as_slice())?;
    if let Some(found) = at_start {
        return Ok(Some(found));
    }
    for w in words {
        let on_the_way = walk(alloc, items, symbols, words, &mut visited, w.as_slice())?;
        if let Some(found) = on_the_way {
            return Ok(Some(found));
        }
    }
    search(alloc, items, symbols, words, &mut visited)
}
