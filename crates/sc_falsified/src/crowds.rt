//! Crowds: items that are known to differ pairwise, more of them than there are texts with the signs that all of them
//! have. They are looked for as cliques of differing items, with the number of colours of a greedy colouring as a
//! bound.
ghost use Rattle.std.specs.Prelude.{◌≡◌, ◌<◌, ◌≤◌, ◌+◌, ◌^◌, ◌++◌, ◌∷◌, [], slice_index_or, length, IfOk, IfSome, IfNone, IsTrue, ◌↔◌, Some, None, false};
ghost use Rattle.std.specs.List.{All};
ghost use Rattle.sc_falsified.specs.Colours.{MayHave, AreColoured};
ghost use Rattle.sc_falsified.specs.Crowds.{agreed, IsRow, IsMeet, IsChosen, IsCrowd, HasRoomFrom, NoneIn, NoneAfter, NoneCrowded};

use crate::needs::copy_signs;
use crate::texts::Texts;
use crate::truths::{Equalities, is};
use std::alloc::{AllocError, Global};

/// A crowd, with the signs that show it.
#[derive(Debug, Drop)]
pub struct Crowd {
    pub items: Vec<usize>,
    pub signs: Vec<Option<bool>>,
}

/// The sign on which two agree.
fn agreed(one: Option<bool>, other: Option<bool>) -> Option<bool>
    ensures { result ≡ agreed one other }
{
    match (one, other) {
        (Some(true), Some(true)) => Some(true),
        (Some(false), Some(false)) => Some(false),
        _ => None,
    }
}

/// All signs of an item.
pub(crate) fn row<S: Texts>(
    alloc: Global,
    texts: &S,
    item: usize,
) -> Result<Vec<Option<bool>>, AllocError>
    ensures { IfOk result (λ v. IsRow (S.sign texts.now) (S.patterns texts.now) item v.items) }
{
    let mut row = Vec::new(alloc);
    for pattern in 0..texts.patterns() {
        row.push(texts.sign(item, pattern))?;
    }
    Ok(row)
}

/// Those of some signs that an item has too.
fn meet<S: Texts>(
    alloc: Global,
    texts: &S,
    signs: &[Option<bool>],
    item: usize,
) -> Result<Vec<Option<bool>>, AllocError>
    ensures { IfOk result (λ v. IsMeet (S.sign texts.now) signs.now item v.items) }
{
    let mut met = Vec::new(alloc);
    for pattern in 0..signs.len() {
        met.push(agreed(signs[pattern], texts.sign(item, pattern)))?;
    }
    Ok(met)
}

/// Whether an item is known to differ from each of the chosen ones.
pub(crate) fn is_apart<E: Equalities>(items: &E, chosen: &[usize], item: usize) -> bool
    ensures { IsTrue result ↔ All (λ c. E.truth items.now c item ≡ Some false) chosen.now }
{
    for c in chosen {
        if !is(items.equal(*c, item), false) {
            return false;
        }
    }
    true
}

/// Whether an item may have a colour: no item of that colour is known to differ from it.
#[tactic(auto, using(crate::proofs::ColourLaws::may_first, crate::proofs::ColourLaws::may_skip, crate::proofs::ColourLaws::may_more))]
fn may_have<E: Equalities>(items: &E, colours: &[Option<usize>], item: usize, colour: usize) -> bool
    ensures { IsTrue result → MayHave (E.truth items.now) colours.now (length colours.now) item colour }
{
    for t in 0..colours.len() {
        if has_colour(colours, t, colour) {
            if is(items.equal(t, item), false) {
                return false;
            }
        }
    }
    true
}

/// Whether an item has a colour.
fn has_colour(colours: &[Option<usize>], item: usize, colour: usize) -> bool
    requires { item < length colours.now }
    ensures { IsTrue result ↔ slice_index_or colours.now item None ≡ Some colour }
{
    match colours[item] {
        Some(c) => c == colour,
        None => false,
    }
}

/// The first colour that an item may have, or else a new one.
fn colour_of<E: Equalities>(
    items: &E,
    colours: &[Option<usize>],
    item: usize,
    count: usize,
) -> usize
    ensures small { result ≤ count }
    ensures may { result < count → MayHave (E.truth items.now) colours.now (length colours.now) item result }
{
    for colour in 0..count {
        if may_have(items, colours, item, colour) {
            return colour;
        }
    }
    count
}

/// An upper bound of how many further items can differ pairwise: the number of colours, where no two items of one
/// colour are known to differ.
#[tactic(auto, using(crate::proofs::ColourLaws::coloured_first))]
fn room<E: Equalities, S: Texts>(
    alloc: Global,
    items: &E,
    texts: &S,
    chosen: &[usize],
    from: usize,
) -> Result<usize, AllocError>
    requires { from ≤ E.size items.now }
    ensures room { IfOk result (λ most. HasRoomFrom (E.truth items.now) (S.sign texts.now)
        (E.size items.now) chosen.now from most) }
    ensures small { IfOk result (λ most. most ≤ E.size items.now) }
    ensures bounded { E.size items.now < 2 ^ 62 }
{
    let mut colours = Vec::new(alloc);
    let mut count = 0;
    for item in 0..items.len() {
        count = colour_next(items, chosen, &mut colours, from, item, count)?;
    }
    Ok(count)
}

/// Colours an item that differs from each of the chosen ones, and gives the number of colours.
fn colour_next<E: Equalities>(
    items: &E,
    chosen: &[usize],
    colours: &mut Vec<Option<usize>>,
    from: usize,
    item: usize,
    count: usize,
) -> Result<usize, AllocError>
    requires bounded { item < 2 ^ 62 }
    requires coloured { AreColoured (E.truth items.now) chosen.now from item count colours.old.items }
    ensures { IfOk result (λ k. AreColoured (E.truth items.now) chosen.now from (item + 1) k colours.new.items) }
{
    if item < from {
        colours.push(None)?;
        return Ok(count);
    }
    if !is_apart(items, chosen, item) {
        colours.push(None)?;
        return Ok(count);
    }
    let colour = colour_of(items, colours.as_slice(), item, count);
    colours.push(Some(colour))?;
    if colour < count {
        return Ok(count);
    }
    Ok(count + 1)
}

/// A list with one more number.
fn longer(alloc: Global, list: &[usize], item: usize) -> Result<Vec<usize>, AllocError>
    ensures { IfOk result (λ v. v.items ≡ list.now ++ item ∷ []) }
{
    let mut further = list.to_vec(alloc)?;
    further.push(item)?;
    Ok(further)
}

/// A copy of a list of numbers.
fn copy(alloc: Global, list: &[usize]) -> Result<Vec<usize>, AllocError>
    ensures { IfOk result (λ v. v.items ≡ list.now) }
{
    list.to_vec(alloc)
}

/// The chosen items as a crowd.
fn crowd_of(alloc: Global, chosen: &[usize], signs: &[Option<bool>]) -> Result<Crowd, AllocError>
    ensures items { IfOk result (λ c. c.items.items ≡ chosen.now) }
    ensures signs { IfOk result (λ c. c.signs.items ≡ signs.now) }
{
    let items = copy(alloc, chosen)?;
    let signs = copy_signs(alloc, signs)?;
    Ok(Crowd { items, signs })
}

/// A crowd of the chosen items and later ones from a place on; none exactly where there is none.
#[cycle(visit)]
#[tactic(auto, using(crate::proofs::CrowdLaws::in_end, crate::proofs::CrowdLaws::in_room, crate::proofs::CrowdLaws::in_skip))]
fn visit<E: Equalities, S: Texts>(
    alloc: Global,
    items: &E,
    texts: &S,
    chosen: &[usize],
    signs: &[Option<bool>],
    from: usize,
) -> Result<Option<Crowd>, AllocError>
    requires chosen { IsChosen (E.truth items.now) (S.sign texts.now) (E.size items.now)
        (S.patterns texts.now) chosen.now signs.now }
    requires from { from ≤ E.size items.now }
    requires short { length chosen.now ≤ from }
    ensures found { IfOk result (λ o. IfSome o (λ c. IsCrowd (E.truth items.now) (S.sign texts.now) (S.few texts.now)
        (E.size items.now) (S.patterns texts.now) c.items.items c.signs.items)) }
    ensures none { IfOk result (λ o. IfNone o (NoneIn (E.truth items.now) (S.sign texts.now) (S.few texts.now)
        (E.size items.now) signs.now chosen.now from)) }
{
    let most = room(alloc, items, texts, chosen, from)?;
    let bound = chosen.len() + most;
    if !texts.few(alloc, signs, bound)? {
        return Ok(None);
    }
    if texts.few(alloc, signs, chosen.len())? {
        return Ok(Some(crowd_of(alloc, chosen, signs)?));
    }
    let mut at = items.len();
    while at > from {
        at -= 1;
        if is_apart(items, chosen, at) {
            let outcome = visit_with(alloc, items, texts, chosen, signs, at, most)?;
            if let Some(found) = outcome {
                return Ok(Some(found));
            }
        }
    }
    Ok(None)
}

/// A crowd of the chosen items, this one and later ones, where at most `most` further ones can differ pairwise.
#[cycle(visit)]
fn visit_with<E: Equalities, S: Texts>(
    alloc: Global,
    items: &E,
    texts: &S,
    chosen: &[usize],
    signs: &[Option<bool>],
    at: usize,
    most: usize,
) -> Result<Option<Crowd>, AllocError>
    requires chosen { IsChosen (E.truth items.now) (S.sign texts.now) (E.size items.now)
        (S.patterns texts.now) chosen.now signs.now }
    requires at { at < E.size items.now }
    requires short { length chosen.now ≤ at }
    requires apart { All (λ c. E.truth items.now c at ≡ Some false) chosen.now }
    requires room { HasRoomFrom (E.truth items.now) (S.sign texts.now) (E.size items.now) chosen.now at most }
    requires few { most ≤ E.size items.now }
    requires small { E.size items.now < 2 ^ 62 }
    ensures found { IfOk result (λ o. IfSome o (λ c. IsCrowd (E.truth items.now) (S.sign texts.now) (S.few texts.now)
        (E.size items.now) (S.patterns texts.now) c.items.items c.signs.items)) }
    ensures none { IfOk result (λ o. IfNone o (NoneIn (E.truth items.now) (S.sign texts.now) (S.few texts.now)
        (E.size items.now) signs.now chosen.now (at + 1)
        → NoneIn (E.truth items.now) (S.sign texts.now) (S.few texts.now) (E.size items.now) signs.now chosen.now at)) }
{
    let met = meet(alloc, texts, signs, at)?;
    let bound = chosen.len() + most;
    if !texts.few(alloc, met.as_slice(), bound)? {
        return Ok(None);
    }
    let further = longer(alloc, chosen, at)?;
    visit(
        alloc,
        items,
        texts,
        further.as_slice(),
        met.as_slice(),
        at + 1,
    )
}

/// A crowd whose first item is this one, where at most `most` items can differ pairwise.
#[tactic(auto, using(crate::proofs::CrowdLaws::chosen_first))]
fn begin<E: Equalities, S: Texts>(
    alloc: Global,
    items: &E,
    texts: &S,
    empty: &[usize],
    item: usize,
    most: usize,
) -> Result<Option<Crowd>, AllocError>
    requires bound { item < E.size items.now }
    requires small { E.size items.now < 2 ^ 62 }
    requires empty { empty.now ≡ [] }
    requires room { HasRoomFrom (E.truth items.now) (S.sign texts.now) (E.size items.now) empty.now 0 most }
    ensures found { IfOk result (λ o. IfSome o (λ c. IsCrowd (E.truth items.now) (S.sign texts.now) (S.few texts.now)
        (E.size items.now) (S.patterns texts.now) c.items.items c.signs.items)) }
    ensures none { IfOk result (λ o. IfNone o (NoneAfter (E.truth items.now) (S.sign texts.now) (S.few texts.now)
        (E.size items.now) (S.patterns texts.now) (item + 1)
        → NoneAfter (E.truth items.now) (S.sign texts.now) (S.few texts.now) (E.size items.now)
        (S.patterns texts.now) item)) }
{
    let signs = row(alloc, texts, item)?;
    if !texts.few(alloc, signs.as_slice(), most)? {
        return Ok(None);
    }
    let chosen = longer(alloc, empty, item)?;
    visit(
        alloc,
        items,
        texts,
        chosen.as_slice(),
        signs.as_slice(),
        item + 1,
    )
}

/// A crowd, or none exactly where there is none.
#[tactic(auto, using(crate::proofs::CrowdLaws::after_end))]
pub(crate) fn crowded<E: Equalities, S: Texts>(
    alloc: Global,
    items: &E,
    texts: &S,
) -> Result<Option<Crowd>, AllocError>
    ensures found { IfOk result (λ o. IfSome o (λ c. IsCrowd (E.truth items.now) (S.sign texts.now) (S.few texts.now)
        (E.size items.now) (S.patterns texts.now) c.items.items c.signs.items)) }
    ensures none { IfOk result (λ o. IfNone o (NoneCrowded (E.truth items.now) (S.sign texts.now) (S.few texts.now)
        (E.size items.now) (S.patterns texts.now))) }
{
    let empty = Vec::new(alloc);
    let most = room(alloc, items, texts, empty.as_slice(), 0)?;
    let mut at = items.len();
    while at > 0 {
        at -= 1;
        let outcome = begin(alloc, items, texts, empty.as_slice(), at, most)?;
        if let Some(found) = outcome {
            return Ok(Some(found));
        }
    }
    Ok(None)
}
