//! Reading a text for several patterns at once.
ghost use Rattle.std.specs.Prelude.{◌≡◌, true, false, IfOk};
ghost use Rattle.sc_languages.specs.Items.{start as start_of, step as step_of, accepts as accepts_of, is_dead as is_dead_at};

use crate::item::Item;
use std::alloc::{AllocError, Global};

/// The active items before the first character.
pub(crate) fn start(alloc: Global, items: &[Item]) -> Result<Vec<bool>, AllocError>
    ensures { IfOk result (λ v. v.items ≡ start_of true items.now) }
{
    let mut marks = Vec::new(alloc);
    let mut first = true;
    for item in items {
        marks.push(first)?;
        first = item.is_end();
    }
    Ok(marks)
}

/// The active items after one more character.
pub(crate) fn step(
    alloc: Global,
    items: &[Item],
    c: char,
    marks: &[bool],
) -> Result<Vec<bool>, AllocError>
    ensures { IfOk result (λ v. v.items ≡ step_of c false false items.now marks.now) }
{
    let mut next = Vec::new(alloc);
    let mut left = marks;
    let mut reached = false;
    let mut skipped = false;
    for item in items {
        let Some((mark, rest)) = left.split_first() else {
            return Ok(next);
        };
        let active = *mark | skipped;
        next.push(item.stays(active, reached))?;
        reached = item.reaches(c, active, reached);
        skipped = item.skips(active);
        left = rest;
    }
    Ok(next)
}

/// Whether a text that ends with these items active gives each pattern its sign.
pub(crate) fn accepts(items: &[Item], marks: &[bool]) -> bool
    ensures { result ≡ accepts_of false items.now marks.now }
{
    let mut left = marks;
    let mut skipped = false;
    for item in items {
        let Some((mark, rest)) = left.split_first() else {
            return true;
        };
        let active = *mark | skipped;
        if item.refuses(active) {
            return false;
        }
        skipped = item.skips(active);
        left = rest;
    }
    true
}

/// Whether some pattern can't get its sign any more, whatever the text goes on with.
pub(crate) fn is_dead(items: &[Item], marks: &[bool]) -> bool
    ensures { result ≡ is_dead_at false false items.now marks.now }
{
    let mut left = marks;
    let mut any = false;
    let mut star = false;
    for item in items {
        let Some((mark, rest)) = left.split_first() else {
            return false;
        };
        let found = any | *mark;
        if item.dies(found, star) {
            return true;
        }
        any = item.keeps(found);
        star = item.is_star() & *mark;
        left = rest;
    }
    false
}
