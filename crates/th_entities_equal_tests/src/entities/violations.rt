//! Which instance an assignment falsifies, all, some or none of whose atoms have a value. A row has the
//! facts that are so, `=>`, and with ` or ` between them all instances that are falsified, or `nothing`
//! where none is.

use crate::entities::assignments::assignment;
use crate::entities::goals::Asked;
use crate::entities::names::{are_atoms, first_of, number};
use crate::entities::problems::{Rows, first_wrong};
use sc_clauses::{Assignment, Instance, Word};
use sc_footprint::{Problem, Theory};
use std::alloc::{AllocError, Global};
use std::test::Fail;
use th_entities::Entities;

/// Whether a word is the number that is meant.
fn is_word(problem: &Problem<'_>, word: &Word, name: &str) -> bool {
    match word {
        Word::Number(n) => number(problem, name) == Some(*n),
        Word::Signs(_) => false,
    }
}

fn are_words(problem: &Problem<'_>, words: &[Word], names: &str) -> bool {
    let mut rest = Some(names);
    for word in words {
        let Some(names) = rest else {
            return false;
        };
        let (name, others) = first_of(names, " | ");
        if !is_word(problem, word, name) {
            return false;
        }
        rest = others;
    }
    rest.is_none()
}

/// Whether an instance is the one that is written.
fn is_written(problem: &Problem<'_>, told: &Instance, written: &str) -> bool {
    match written.split_once(": ") {
        Some((rule, names)) => {
            told.rule.as_str() == rule && are_words(problem, told.words.as_slice(), names)
        }
        None => false,
    }
}

/// Whether an instance is one of these.
fn is_one_of(problem: &Problem<'_>, told: &Instance, falsified: &str) -> bool {
    for written in falsified.split(" or ") {
        if is_written(problem, told, written) {
            return true;
        }
    }
    false
}

/// Whether an instance is told that is one of these, or none is where these are none.
fn is_told(
    alloc: Global,
    problem: &Problem<'_>,
    m: &Assignment,
    falsified: &str,
) -> Result<bool, AllocError> {
    match Entities.violated(alloc, problem, m)? {
        Some(told) => Ok(is_one_of(problem, &told, falsified)),
        None => Ok(falsified == "nothing"),
    }
}

fn are_told(
    alloc: Global,
    problem: &Problem<'_>,
    facts: &str,
    falsified: &str,
) -> Result<bool, AllocError> {
    if !are_atoms(problem, facts) {
        return Ok(false);
    }
    let m = assignment(alloc, problem, facts, false)?;
    is_told(alloc, problem, &m, falsified)
}

/// Whether facts are of atoms, and falsify the instances of their row.
pub(crate) fn is_falsified(
    alloc: Global,
    problem: &Problem<'_>,
    row: &str,
) -> Result<bool, AllocError> {
    match row.split_once(" => ") {
        Some((facts, falsified)) => are_told(alloc, problem, facts, falsified),
        None => Ok(false),
    }
}

/// Truths of a few atoms on equal entities.
const EQUALS: &str = "# nothing is known
nothing => nothing
# what is stored of equal entities
principal = other; vip of principal is so; not vip of other is so => EN1: vip of principal | vip of other | 0
principal = other; not vip of principal is so; vip of other is so => EN1: vip of other | vip of principal | 0
vip of principal is so; not vip of other is so => nothing
principal = other; vip of principal is so => nothing
principal = other; resource in ancestors of principal; not resource in ancestors of other => EN2: resource | ancestors of principal | ancestors of other
resource in ancestors of principal; not resource in ancestors of other => nothing
principal = other; not key in keys of principal; key in keys of other => EN2: key | keys of other | keys of principal
principal = other; key = word; tag of principal is so; not tag of other is so => EN3: tag of principal | tag of other | 0
# the keys may differ
principal = other; tag of principal is so; not tag of other is so => nothing";

/// Truths of a few atoms on the places of equal entities.
const PLACES: &str = "# each sort
principal = other; not boss of principal = boss of other => EN1: boss of principal | boss of other | 0 or EN1: boss of other | boss of principal | 0
principal = other; bit 5 of level of principal is so; not bit 5 of level of other is so => EN1: level of principal | level of other | 5
principal = other; bit 5 of level of principal is so; not bit 6 of level of other is so => nothing
principal = other; not last of name of principal = last of name of other => EN1: last of name of principal | last of name of other | 0 or EN1: last of name of other | last of name of principal | 0
principal = other; not presence of nick of principal is so; presence of nick of other is so => EN1: nick of other | nick of principal | 0
principal = other; not presence of nick of principal is so; presence of home of other is so => nothing
principal = other; not held of nick of principal = held of nick of other => EN1: held of nick of principal | held of nick of other | 0 or EN1: held of nick of other | held of nick of principal | 0
principal = other; not city of held of home of principal = city of held of home of other => EN1: city of held of home of principal | city of held of home of other | 0 or EN1: city of held of home of other | city of held of home of principal | 0
principal = other; mate in mates of principal; not mate in mates of other => EN1: mates of principal | mates of other | mate
principal = other; not mate in mates of principal; mate in mates of other => EN1: mates of other | mates of principal | mate
principal = other; not mate in mates of principal; not mate in mates of other => nothing
# of entities that may differ
mate in mates of principal; not mate in mates of other => nothing
bit 5 of level of principal is so; not bit 5 of level of other is so => nothing
# tags that are sets
principal = other; key = word; key in tag of principal; not key in tag of other => EN3: tag of principal | tag of other | key
principal = other; key = word; not key in tag of principal; key in tag of other => EN3: tag of other | tag of principal | key
principal = other; key in tag of principal; not key in tag of other => nothing
key = word; key in tag of principal; not key in tag of other => nothing";

/// Truths of a few atoms on what is stored of entities.
const STORED: &str = "# an entity above itself
resource in ancestors of resource => EN4: resource
top in ancestors of resource => nothing
# what is above what is above
resource in ancestors of principal; top in ancestors of resource; not top in ancestors of principal => EN5: principal | resource | top | ancestors of resource
resource in ancestors of principal; top in ancestors of resource => nothing
# two entities under a third needn't be under one another
top in ancestors of principal; top in ancestors of resource; not resource in ancestors of principal => nothing
# a tag that isn't there
not key in keys of principal; tag of principal is so => EN6: tag of principal
key in keys of principal; tag of principal is so => nothing
not key in keys of principal; not tag of principal is so => nothing
tag of principal is so => nothing
# the key of another tag
not word in keys of principal; tag of principal is so => nothing";

/// Truths of all atoms.
const WHOLE: &str = "# two users, one of whom is important, in no groups and without tags
true = true; vip of principal is so; not others => nothing
# one user with a tag, in the resource, which is in another group
not resource = top; top in ancestors of principal; not resource in ancestors of resource; others => nothing
# the same, but that the principal isn't in that group
not resource = top; not top in ancestors of principal; not resource in ancestors of resource; others => EN2: top | ancestors of other | ancestors of principal or EN5: principal | resource | top | ancestors of resource
# all is so
others => EN4: resource";

/// Truths of a few atoms on actions.
const ACTIONS: &str = "# an action that isn't declared
not choice = all; not choice = most; not choice = view => EN8: choice
not choice = all; not choice = most => nothing
not choice = most; not choice = view => nothing
# declared ancestors are above
not all in ancestors of view => EN7: ancestors of view | all
not all in ancestors of choice => nothing
# and nothing else is
choice in ancestors of view; not choice = all; not choice = most => EN7: ancestors of view | choice
choice in ancestors of view; not choice = all => nothing
choice in ancestors of all => EN7: ancestors of all | choice
true = true; view in ancestors of most => EN7: ancestors of most | view
# also truth itself has no value
view in ancestors of most => nothing
view in ancestors of view => EN4: view
view in ancestors of choice; all in ancestors of view; not all in ancestors of choice => EN5: choice | view | all | ancestors of view
view = choice; most in ancestors of view; not most in ancestors of choice => EN2: most | ancestors of view | ancestors of choice";

/// Truths of all atoms on actions.
const WHOLE_OF_ACTIONS: &str = "# the choice is to view
true = true; flag is so; choice = view; all in ancestors of most; all in ancestors of view; most in ancestors of view; all in ancestors of choice; most in ancestors of choice; not others => nothing
# the choice is all, and yet in it
true = true; choice = all; all in ancestors of most; all in ancestors of view; most in ancestors of view; all in ancestors of choice; most in ancestors of choice; not others => EN2: all | ancestors of choice | ancestors of all or EN2: most | ancestors of choice | ancestors of all
# nothing is so
true = true; not others => EN7: ancestors of view | all or EN7: ancestors of view | most or EN7: ancestors of most | all or EN8: choice";

/// Truths of a few atoms on entities of enumerated types.
const CHOICES: &str = "# an entity that is no choice
not paint = red; not paint = green; not paint = blue => EQ9: paint
not hue = red; not hue = green; not hue = blue => EQ9: hue
not choice = red; not choice = green; not choice = blue => EQ9: choice
not principal = ada => EQ9: principal
# one of which a choice isn't known
not paint = red; not paint = blue => nothing
not paint = green; not paint = blue => nothing
not paint = red; not hue = green; not choice = blue => nothing
not paint = hue; not paint = choice; not hue = choice => nothing
# that two choices aren't one says another theory
paint = red; paint = green => nothing";

/// Truths of all atoms on entities of enumerated types.
const WHOLE_OF_CHOICES: &str = "# each is a choice
true = true; principal = ada; paint = red; hue = blue; choice = blue; choice = hue; not others => nothing
# one isn't
true = true; principal = ada; paint = red; choice = red; choice = paint; not others => EQ9: hue
# none is
true = true; not others => EQ9: paint or EQ9: hue or EQ9: choice or EQ9: principal";

#[test]
fn equal_entities(rt: HostRuntime) -> Result<(), Fail> {
    let wrong = first_wrong(rt.alloc(), Asked::Stored, Rows::Told, EQUALS)?;
    assert!(rt; wrong.is_none(), "{wrong:?}");
    Ok(())
}

#[test]
fn equal_places(rt: HostRuntime) -> Result<(), Fail> {
    let wrong = first_wrong(rt.alloc(), Asked::Places, Rows::Told, PLACES)?;
    assert!(rt; wrong.is_none(), "{wrong:?}");
    Ok(())
}

#[test]
fn stored(rt: HostRuntime) -> Result<(), Fail> {
    let wrong = first_wrong(rt.alloc(), Asked::Stored, Rows::Told, STORED)?;
    assert!(rt; wrong.is_none(), "{wrong:?}");
    Ok(())
}

#[test]
fn all_atoms(rt: HostRuntime) -> Result<(), Fail> {
    let wrong = first_wrong(rt.alloc(), Asked::Stored, Rows::Told, WHOLE)?;
    assert!(rt; wrong.is_none(), "{wrong:?}");
    Ok(())
}

#[test]
fn actions(rt: HostRuntime) -> Result<(), Fail> {
    let wrong = first_wrong(rt.alloc(), Asked::Declared, Rows::Told, ACTIONS)?;
    assert!(rt; wrong.is_none(), "{wrong:?}");
    Ok(())
}

#[test]
fn all_atoms_on_actions(rt: HostRuntime) -> Result<(), Fail> {
    let wrong = first_wrong(rt.alloc(), Asked::Declared, Rows::Told, WHOLE_OF_ACTIONS)?;
    assert!(rt; wrong.is_none(), "{wrong:?}");
    Ok(())
}

#[test]
fn choices(rt: HostRuntime) -> Result<(), Fail> {
    let wrong = first_wrong(rt.alloc(), Asked::Chosen, Rows::Told, CHOICES)?;
    assert!(rt; wrong.is_none(), "{wrong:?}");
    Ok(())
}

#[test]
fn all_atoms_on_choices(rt: HostRuntime) -> Result<(), Fail> {
    let wrong = first_wrong(rt.alloc(), Asked::Chosen, Rows::Told, WHOLE_OF_CHOICES)?;
    assert!(rt; wrong.is_none(), "{wrong:?}");
    Ok(())
}
