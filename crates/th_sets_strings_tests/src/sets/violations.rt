//! Which instance an assignment falsifies, all, some or none of whose atoms have a value. A row has the
//! facts that are so, `=>`, and with ` or ` between them all instances that are falsified, or `nothing`
//! where none is.

use crate::sets::assignments::assignment;
use crate::sets::goals::Asked;
use crate::sets::names::{are_atoms, first_of, number};
use crate::sets::problems::{Rows, first_wrong};
use sc_clauses::{Assignment, Instance, Word};
use sc_footprint::{Problem, Theory};
use std::alloc::{AllocError, Global};
use std::test::Fail;
use th_sets::Sets;

/// Whether a word is the number that is meant.
fn is_word(problem: &Problem<'_>, word: &Word, name: &str) -> bool {
    match word {
        Word::Number(n) => number(problem, name) == Some(*n),
        Word::Signs(_) => false,
    }
}

fn are_words(problem: &Problem<'_>, words: &[Word], names: &str) -> bool {
    let mut rest = Some(names);
    for word in words {
        let Some(names) = rest else {
            return false;
        };
        let (name, others) = first_of(names, " | ");
        if !is_word(problem, word, name) {
            return false;
        }
        rest = others;
    }
    rest.is_none()
}

/// Whether an instance is the one that is written.
fn is_written(problem: &Problem<'_>, told: &Instance, written: &str) -> bool {
    match written.split_once(": ") {
        Some((rule, names)) => {
            told.rule.as_str() == rule && are_words(problem, told.words.as_slice(), names)
        }
        None => false,
    }
}

/// Whether an instance is one of these.
fn is_one_of(problem: &Problem<'_>, told: &Instance, falsified: &str) -> bool {
    for written in falsified.split(" or ") {
        if is_written(problem, told, written) {
            return true;
        }
    }
    false
}

/// Whether an instance is told that is one of these, or none is where these are none.
fn is_told(
    alloc: Global,
    problem: &Problem<'_>,
    m: &Assignment,
    falsified: &str,
) -> Result<bool, AllocError> {
    match Sets.violated(alloc, problem, m)? {
        Some(told) => Ok(is_one_of(problem, &told, falsified)),
        None => Ok(falsified == "nothing"),
    }
}

fn are_told(
    alloc: Global,
    problem: &Problem<'_>,
    facts: &str,
    falsified: &str,
) -> Result<bool, AllocError> {
    if !are_atoms(problem, facts) {
        return Ok(false);
    }
    let m = assignment(alloc, problem, facts, false)?;
    is_told(alloc, problem, &m, falsified)
}

/// Whether facts are of atoms, and falsify the instances of their row.
pub(crate) fn is_falsified(
    alloc: Global,
    problem: &Problem<'_>,
    row: &str,
) -> Result<bool, AllocError> {
    match row.split_once(" => ") {
        Some((facts, falsified)) => are_told(alloc, problem, facts, falsified),
        None => Ok(false),
    }
}

/// Truths of a few atoms on members.
const MEMBERS: &str = "# nothing is known
nothing => nothing
# a text that equals a member
x = y; x in s; not y in s => SE1: x | y | s
x = y; x in s => nothing
x = y; not y in s => nothing
x in s; not y in s => nothing
x = y; x in s; y in s => nothing
# that equality goes on is no rule on sets
x = y; y = s without t; not x = s without t => nothing";

/// Truths of a few atoms on two sets.
const SETS: &str = "# one set within another
s <= t; x in s; not x in t => SE4: s | t | x
s <= t; not x in s; x in t => nothing
not s <= t; not s without t in s => SE5: s | t | 0
not s <= t; s without t in t => SE5: s | t | 1
not s <= t; s without t in s; not s without t in t => nothing
s <= t; not s without t in s => nothing
# what a written set has in common with another
not x, y & s; y in s => SE10: x, y | s | 1
x, y & s; not x in s; not y in s => SE10: x, y | s | 2
x, y & s; not x in s => nothing
not x, y & s; y in t => nothing
# equal sets
s = t; not s <= t => SE8: s | t | 0 or SE8: t | s | 1
s = t; not t <= s => SE8: s | t | 1 or SE8: t | s | 0
not s = t; s <= t; t <= s => SE8: s | t | 2 or SE8: t | s | 2
not s = t; s <= t => nothing";

/// Truths of all atoms.
const WHOLE: &str = "# two empty sets and two texts
x = x; s = t; s <= t; t <= s; s without t = t without s; not others => nothing
# the first text is the one member of s, and t is empty
x = x; t <= s; x in s; x, y & s; s without t = x; s without t in s; not others => nothing
# the same, but that it is no member
x = x; t <= s; x, y & s; s without t = x; s without t in s; not others => SE1: s without t | x | s or SE10: x, y | s | 2
# nothing is so
x = x; not others => SE5: s | t | 0 or SE5: t | s | 0";

const TOLD_OF_SHARED: &str = "# the member that is picked
s & t; not shared in s => SE6: s | t | 0
s & t; not shared in t => SE6: s | t | 1
s & t; shared in s; shared in t => nothing
# any member
x in s; x in t; not s & t => SE7: s | t | x
x in s; y in t; not s & t => nothing
# two members that are equal: whether the first set's is one of the second is asked too
x in s; y in t; x = y; not s & t => nothing
x in s; y in t; x = y; x in t; not s & t => SE7: s | t | x
x in s; y in t; x = y; not x in t; not s & t => SE1: y | x | t";

const TOLD_OF_WRITTEN: &str = "# members of a written set
t without x, y in x, y; not t without x, y = x; not t without x, y = y => SE2: t without x, y | x, y
t without x, y in x, y; not t without x, y = x => nothing
x = x; not x in x, y => SE3: x | x, y | 0
# also truth itself has no value
not x in x, y => nothing
x = y; not x in x, y => SE3: x | x, y | 1
# each of its members is in another set
x, y <= s; not x in s => SE9: x, y | s | 0
x, y <= s; not y in s => SE9: x, y | s | 1
not x, y <= s; x in s; y in s => SE9: x, y | s | 2
not x, y <= s; x in s => nothing
x, y <= s; x in s; y in s => nothing
# or one of them is
not t & x, y; y in t => SE10: t | x, y | 1
t & x, y; not x in t; not y in t => SE10: t | x, y | 2
t & x, y; not x in t => nothing
not t & x, y; not x in t; not y in t => nothing";

const TOLD_OF_TAGS: &str = "x = y; x in tag x; not y in tag x => SE1: x | y | tag x
x = y; x in tag x; not y in tag y => nothing
x = y; x in keys; not y in keys => SE1: x | y | keys";

const TOLD_OF_ITSELF: &str = "s = s; not s <= s => SE8: s | s | 0 or SE8: s | s | 1
not s <= s; s without s in s => SE5: s | s | 1
not s <= s; not s without s in s => SE5: s | s | 0
not s <= s => nothing";

#[test]
fn members(rt: HostRuntime) -> Result<(), Fail> {
    let wrong = first_wrong(rt.alloc(), Asked::Sets, Rows::Told, MEMBERS)?;
    assert!(rt; wrong.is_none(), "{wrong:?}");
    Ok(())
}

#[test]
fn two_sets(rt: HostRuntime) -> Result<(), Fail> {
    let wrong = first_wrong(rt.alloc(), Asked::Sets, Rows::Told, SETS)?;
    assert!(rt; wrong.is_none(), "{wrong:?}");
    Ok(())
}

#[test]
fn all_atoms(rt: HostRuntime) -> Result<(), Fail> {
    let wrong = first_wrong(rt.alloc(), Asked::Sets, Rows::Told, WHOLE)?;
    assert!(rt; wrong.is_none(), "{wrong:?}");
    Ok(())
}

#[test]
fn members_in_common(rt: HostRuntime) -> Result<(), Fail> {
    let wrong = first_wrong(rt.alloc(), Asked::Shared, Rows::Told, TOLD_OF_SHARED)?;
    assert!(rt; wrong.is_none(), "{wrong:?}");
    Ok(())
}

#[test]
fn written_sets(rt: HostRuntime) -> Result<(), Fail> {
    let wrong = first_wrong(rt.alloc(), Asked::Written, Rows::Told, TOLD_OF_WRITTEN)?;
    assert!(rt; wrong.is_none(), "{wrong:?}");
    Ok(())
}

#[test]
fn tags(rt: HostRuntime) -> Result<(), Fail> {
    let wrong = first_wrong(rt.alloc(), Asked::Tags, Rows::Told, TOLD_OF_TAGS)?;
    assert!(rt; wrong.is_none(), "{wrong:?}");
    Ok(())
}

#[test]
fn one_set(rt: HostRuntime) -> Result<(), Fail> {
    let wrong = first_wrong(rt.alloc(), Asked::Itself, Rows::Told, TOLD_OF_ITSELF)?;
    assert!(rt; wrong.is_none(), "{wrong:?}");
    Ok(())
}
