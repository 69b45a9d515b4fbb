//! Which instances a problem has, and what each of them says.
//!
//! An instance is written as `EN1: principal | other`: a rule, and the terms that it is applied to, or `nothing`
//! where these are none. A row of an instance that a problem has goes on with `=>` and the instance's
//! literals.

use crate::entities::assignments::assignment;
use crate::entities::goals::Asked;
use crate::entities::names::{first_of, is_literal, number};
use crate::entities::problems::{Rows, first_wrong};
use sc_clauses::{Assignment, Instance, Lit, Word};
use sc_footprint::{Problem, Theory};
use sc_lists::{Seq, Text};
use std::alloc::{AllocError, Global};
use std::test::Fail;
use th_entities::Entities;

// ---- an instance

/// The word of one sign.
fn sign(alloc: Global) -> Result<Word, AllocError> {
    let mut signs = Seq::new(alloc);
    signs.push(Some(true))?;
    Ok(Word::Signs(signs))
}

/// The word that is meant: `+` is a sign, and else it is a number. None where no term has this name.
fn word(alloc: Global, problem: &Problem<'_>, name: &str) -> Result<Option<Word>, AllocError> {
    if name == "+" {
        return Ok(Some(sign(alloc)?));
    }
    match number(problem, name) {
        Some(n) => Ok(Some(Word::Number(n))),
        None => Ok(None),
    }
}

/// The words that are meant. None where one of them is that of no term.
fn words(
    alloc: Global,
    problem: &Problem<'_>,
    names: &str,
) -> Result<Option<Seq<Word>>, AllocError> {
    let mut words = Seq::new(alloc);
    for name in names.split(" | ") {
        match word(alloc, problem, name)? {
            Some(word) => words.push(word)?,
            None => return Ok(None),
        }
    }
    Ok(Some(words))
}

/// The same, where `nothing` is no word.
fn listed(
    alloc: Global,
    problem: &Problem<'_>,
    names: &str,
) -> Result<Option<Seq<Word>>, AllocError> {
    if names == "nothing" {
        Ok(Some(Seq::new(alloc)))
    } else {
        words(alloc, problem, names)
    }
}

fn instance_of(
    alloc: Global,
    problem: &Problem<'_>,
    rule: &str,
    names: &str,
) -> Result<Option<Instance>, AllocError> {
    match listed(alloc, problem, names)? {
        Some(words) => {
            let rule = Text::from_str(alloc, rule)?;
            Ok(Some(Instance { rule, words }))
        }
        None => Ok(None),
    }
}

/// The instance that is written. None where it isn't one, as a term has no such name.
fn instance(
    alloc: Global,
    problem: &Problem<'_>,
    written: &str,
) -> Result<Option<Instance>, AllocError> {
    match written.split_once(": ") {
        Some((rule, names)) => instance_of(alloc, problem, rule, names),
        None => Ok(None),
    }
}

// ---- instances that are none

fn refuses(alloc: Global, problem: &Problem<'_>, instance: &Instance) -> Result<bool, AllocError> {
    Ok(!Entities.accepts(alloc, problem, instance)?)
}

/// Whether these are words, and the instance of a rule at them isn't one of the problem.
pub(crate) fn is_refused(
    alloc: Global,
    problem: &Problem<'_>,
    written: &str,
) -> Result<bool, AllocError> {
    match instance(alloc, problem, written)? {
        Some(instance) => refuses(alloc, problem, &instance),
        None => Ok(false),
    }
}

const FORGED: &str = "# numbers of no closed term
EN1: 0 | vip of other | 0
EN1: vip of principal | past | 0
EN4: past
EN5: principal | resource | top | past
EN6: 1000000000000000000
EN8: past
# terms of other sorts
EN1: principal | context | 0
EN1: principal | other | 0
EN1: attributes of principal | attributes of other | 0
EN2: key | ancestors of principal | ancestors of other
EN2: resource | ancestors of principal | keys of other
EN2: resource | ancestors of principal | ancestors of resource
EN2: resource | resource | top
EN2: resource | attributes of principal | attributes of other
EN1: vip of principal | tag of other | 0
EN3: principal | other | 0
EN3: tag of principal | vip of other | 0
EN4: key
EN5: principal | key | top | ancestors of resource
EN6: keys of principal
EN6: vip of principal
EN7: principal | resource
EN8: true
# entities that are no actions, and of no enumerated type
EN7: ancestors of principal | resource
EN8: principal
EQ9: principal
# the ancestors of another entity
EN5: principal | resource | top | ancestors of principal
EN5: principal | top | resource | ancestors of resource
EN5: principal | other | resource | ancestors of other
# no half but the first
EN1: vip of principal | vip of other | 1
EN3: tag of principal | tag of other | 1
# atoms that aren't listed: users above users, and what is above the group
EN4: principal
EN4: top
# what is always so: a place is like itself, and what is above is above
EN1: vip of principal | vip of principal | 0
EN2: resource | ancestors of principal | ancestors of principal
EN3: tag of principal | tag of principal | 0
EN5: resource | resource | top | ancestors of resource
EN5: principal | resource | resource | ancestors of resource
# words too few, too many, or no numbers
EN4: nothing
EN4: resource | resource
EN4: +
EN1: vip of principal
EN1: vip of principal | vip of other
EN1: vip of principal | vip of other | +
EN1: vip of principal | vip of other | 0 | 0
EN3: tag of principal | tag of other
EN3: tag of principal | tag of other | 0 | 0
EN2: resource | ancestors of principal
EN5: principal | resource | top
EN5: principal | resource | top | ancestors of resource | 0
EN6: tag of principal | 0
# no rules on entities
EN9: principal
EN: principal | other
en4: resource
SE1: resource | top | ancestors of principal";

const FORGED_OF_ACTIONS: &str = "# no action
EN8: principal
EN8: flag
EN7: ancestors of view | principal
EN7: ancestors of view | flag
# no ancestors, or those of an action that isn't written
EN7: view | all
EN7: ancestors of choice | all
# an action is one of the declared ones, and no other
EN8: view
EN8: all
EN2: all | ancestors of all | ancestors of view
# actions aren't choices of an enumerated type
EQ9: choice
EQ9: view
# attributes that aren't asked for
EN1: view | choice | 0
# what is above is above
EN5: view | view | all | ancestors of view
EN5: choice | view | view | ancestors of view
# words too few or too many
EN7: ancestors of view
EN7: ancestors of view | all | 0
EN8: choice | choice";

const FORGED_OF_CHOICES: &str = "# no entity, or one whose type isn't enumerated
EQ9: true
EQ9: flag
EQ9: context
EQ9: resource
EQ9: past
# a choice is itself
EQ9: red
EQ9: blue
EQ9: ada
# choices aren't actions
EN8: paint
EN8: principal
# words too few, too many, or no numbers
EQ9: nothing
EQ9: paint | hue
EQ9: paint | 0
EQ9: +";

// ---- instances

/// Whether a clause has these literals, one after the other.
fn are_literals(problem: &Problem<'_>, clause: &[Lit], facts: &str) -> bool {
    let mut rest = Some(facts);
    for literal in clause {
        let Some(facts) = rest else {
            return false;
        };
        let (fact, others) = first_of(facts, "; ");
        if !is_literal(problem, *literal, fact) {
            return false;
        }
        rest = others;
    }
    rest.is_none()
}

/// Whether an instance of this rule is told in an assignment.
fn is_told(
    alloc: Global,
    problem: &Problem<'_>,
    m: &Assignment,
    rule: &str,
) -> Result<bool, AllocError> {
    match Entities.violated(alloc, problem, m)? {
        Some(told) => Ok(told.rule.as_str() == rule),
        None => Ok(false),
    }
}

/// Whether an instance of this rule is told where just these literals are false.
fn is_found(
    alloc: Global,
    problem: &Problem<'_>,
    rule: &str,
    facts: &str,
) -> Result<bool, AllocError> {
    let m = assignment(alloc, problem, facts, true)?;
    is_told(alloc, problem, &m, rule)
}

/// Whether an instance is one of the problem, and has these literals.
fn has_literals(
    alloc: Global,
    problem: &Problem<'_>,
    instance: &Instance,
    facts: &str,
) -> Result<bool, AllocError> {
    if !Entities.accepts(alloc, problem, instance)? {
        return Ok(false);
    }
    let clause = Entities.clause(alloc, problem, instance)?;
    Ok(are_literals(problem, clause.as_slice(), facts))
}

/// Whether an instance is one of the problem, has these literals, and is found where they are false.
fn has_clause(
    alloc: Global,
    problem: &Problem<'_>,
    instance: &Instance,
    facts: &str,
) -> Result<bool, AllocError> {
    if !has_literals(alloc, problem, instance, facts)? {
        return Ok(false);
    }
    is_found(alloc, problem, instance.rule.as_str(), facts)
}

/// The same of the instance that is written.
fn is_instance(
    alloc: Global,
    problem: &Problem<'_>,
    written: &str,
    facts: &str,
) -> Result<bool, AllocError> {
    match instance(alloc, problem, written)? {
        Some(instance) => has_clause(alloc, problem, &instance, facts),
        None => Ok(false),
    }
}

/// The same of a row.
pub(crate) fn is_accepted(
    alloc: Global,
    problem: &Problem<'_>,
    row: &str,
) -> Result<bool, AllocError> {
    match row.split_once(" => ") {
        Some((written, facts)) => is_instance(alloc, problem, written, facts),
        None => Ok(false),
    }
}

const RIGHT: &str =
    "EN1: vip of principal | vip of other | 0 => not principal = other; not vip of principal is so; vip of other is so
EN1: vip of other | vip of principal | 0 => not other = principal; not vip of other is so; vip of principal is so
EN2: resource | ancestors of principal | ancestors of other => not principal = other; not resource in ancestors of principal; resource in ancestors of other
EN2: top | ancestors of other | ancestors of principal => not other = principal; not top in ancestors of other; top in ancestors of principal
EN2: key | keys of principal | keys of other => not principal = other; not key in keys of principal; key in keys of other
EN3: tag of principal | tag of other | 0 => not principal = other; not key = word; not tag of principal is so; tag of other is so
EN3: tag of other | tag of principal | 0 => not other = principal; not word = key; not tag of other is so; tag of principal is so
EN4: resource => not resource in ancestors of resource
EN5: principal | resource | top | ancestors of resource => not resource in ancestors of principal; not top in ancestors of resource; top in ancestors of principal
# a truth value is the default where it isn't so
EN6: tag of principal => key in keys of principal; not tag of principal is so
EN6: tag of other => word in keys of other; not tag of other is so";

const FORGED_OF_PLACES: &str = "# no like places
EN1: level of principal | vip of other | 0
EN1: last of name of principal | city of held of home of other | 0
EN1: nick of principal | held of nick of other | 0
EN1: home of principal | nick of other | 0
EN1: boss of principal | mates of other | mate
# records have no halves of their own
EN1: name of principal | name of other | 0
EN1: held of home of principal | held of home of other | 0
# no bit, and no candidate
EN1: level of principal | level of other | 64
EN1: mates of principal | mates of other | 0
EN1: mates of principal | mates of other | key
EN1: mates of principal | mates of other | past
EN3: tag of principal | tag of other | mate
# a number that is none of the half
EN1: boss of principal | boss of other | mate
# a place of attributes isn't one of a tag
EN3: mates of principal | mates of other | mate
EN1: tag of principal | tag of other | key
# words too few
EN1: mates of principal | mates of other
EN3: tag of principal | tag of other";

const RIGHT_OF_PLACES: &str =
    "EN1: boss of principal | boss of other | 0 => not principal = other; boss of principal = boss of other
EN1: boss of other | boss of principal | 0 => not principal = other; boss of principal = boss of other
EN1: level of principal | level of other | 0 => not principal = other; not bit 0 of level of principal is so; bit 0 of level of other is so
EN1: level of other | level of principal | 63 => not principal = other; not bit 63 of level of other is so; bit 63 of level of principal is so
EN1: last of name of principal | last of name of other | 0 => not principal = other; last of name of principal = last of name of other
EN1: nick of principal | nick of other | 0 => not principal = other; not presence of nick of principal is so; presence of nick of other is so
EN1: home of other | home of principal | 0 => not principal = other; not presence of home of other is so; presence of home of principal is so
EN1: held of nick of principal | held of nick of other | 0 => not principal = other; held of nick of principal = held of nick of other
EN1: city of held of home of principal | city of held of home of other | 0 => not principal = other; city of held of home of principal = city of held of home of other
EN1: mates of principal | mates of other | mate => not principal = other; not mate in mates of principal; mate in mates of other
EN1: mates of other | mates of principal | mate => not principal = other; not mate in mates of other; mate in mates of principal
EN3: tag of principal | tag of other | key => not principal = other; not key = word; not key in tag of principal; key in tag of other
EN3: tag of other | tag of principal | key => not principal = other; not key = word; not key in tag of other; key in tag of principal";

const RIGHT_OF_ACTIONS: &str =
    "EN2: most | ancestors of view | ancestors of choice => not view = choice; not most in ancestors of view; most in ancestors of choice
EN4: choice => not choice in ancestors of choice
EN4: view => not view in ancestors of view
EN5: choice | view | all | ancestors of view => not view in ancestors of choice; not all in ancestors of view; all in ancestors of choice
EN5: view | most | all | ancestors of most => not most in ancestors of view; not all in ancestors of most; all in ancestors of view
# declared ancestors are above, and nothing else is
EN7: ancestors of view | all => all in ancestors of view
EN7: ancestors of view | most => most in ancestors of view
EN7: ancestors of most | all => all in ancestors of most
EN7: ancestors of view | choice => not choice in ancestors of view; choice = all; choice = most
EN7: ancestors of most | choice => not choice in ancestors of most; choice = all
EN7: ancestors of all | choice => not choice in ancestors of all
# a declared action is no other
EN7: ancestors of most | view => not view in ancestors of most; not view = view
# an action is one of the declared ones
EN8: choice => choice = all; choice = most; choice = view";

const RIGHT_OF_CHOICES: &str = "# an entity is one of the choices of its type, in their order
EQ9: paint => paint = red; paint = green; paint = blue
EQ9: hue => hue = red; hue = green; hue = blue
EQ9: choice => choice = red; choice = green; choice = blue
EQ9: principal => principal = ada";

// ---- tests

#[test]
fn refused(rt: HostRuntime) -> Result<(), Fail> {
    let wrong = first_wrong(rt.alloc(), Asked::Stored, Rows::Forged, FORGED)?;
    assert!(rt; wrong.is_none(), "{wrong:?}");
    Ok(())
}

#[test]
fn refused_of_places(rt: HostRuntime) -> Result<(), Fail> {
    let wrong = first_wrong(rt.alloc(), Asked::Places, Rows::Forged, FORGED_OF_PLACES)?;
    assert!(rt; wrong.is_none(), "{wrong:?}");
    Ok(())
}

#[test]
fn refused_of_actions(rt: HostRuntime) -> Result<(), Fail> {
    let wrong = first_wrong(rt.alloc(), Asked::Declared, Rows::Forged, FORGED_OF_ACTIONS)?;
    assert!(rt; wrong.is_none(), "{wrong:?}");
    Ok(())
}

#[test]
fn refused_of_choices(rt: HostRuntime) -> Result<(), Fail> {
    let wrong = first_wrong(rt.alloc(), Asked::Chosen, Rows::Forged, FORGED_OF_CHOICES)?;
    assert!(rt; wrong.is_none(), "{wrong:?}");
    Ok(())
}

#[test]
fn accepted(rt: HostRuntime) -> Result<(), Fail> {
    let wrong = first_wrong(rt.alloc(), Asked::Stored, Rows::Right, RIGHT)?;
    assert!(rt; wrong.is_none(), "{wrong:?}");
    Ok(())
}

#[test]
fn accepted_of_places(rt: HostRuntime) -> Result<(), Fail> {
    let wrong = first_wrong(rt.alloc(), Asked::Places, Rows::Right, RIGHT_OF_PLACES)?;
    assert!(rt; wrong.is_none(), "{wrong:?}");
    Ok(())
}

#[test]
fn accepted_of_actions(rt: HostRuntime) -> Result<(), Fail> {
    let wrong = first_wrong(rt.alloc(), Asked::Declared, Rows::Right, RIGHT_OF_ACTIONS)?;
    assert!(rt; wrong.is_none(), "{wrong:?}");
    Ok(())
}

#[test]
fn accepted_of_choices(rt: HostRuntime) -> Result<(), Fail> {
    let wrong = first_wrong(rt.alloc(), Asked::Chosen, Rows::Right, RIGHT_OF_CHOICES)?;
    assert!(rt; wrong.is_none(), "{wrong:?}");
    Ok(())
}
