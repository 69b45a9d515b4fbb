//! Which instances a problem has, and what each of them says.
//!
//! An instance is written as `SE1: x | y | s`: a rule, and the terms that it is applied to, or `nothing`
//! where these are none. A row of an instance that a problem has goes on with `=>` and the instance's
//! literals.

use crate::sets::assignments::assignment;
use crate::sets::goals::Asked;
use crate::sets::names::{first_of, is_literal, number};
use crate::sets::problems::{Rows, first_wrong};
use sc_clauses::{Assignment, Instance, Lit, Word};
use sc_footprint::{Problem, Theory};
use sc_lists::{Seq, Text};
use std::alloc::{AllocError, Global};
use std::test::Fail;
use th_sets::Sets;

// ---- an instance

/// The word of one sign.
fn sign(alloc: Global) -> Result<Word, AllocError> {
    let mut signs = Seq::new(alloc);
    signs.push(Some(true))?;
    Ok(Word::Signs(signs))
}

/// The word that is meant: `+` is a sign, and else it is a number. None where no term has this name.
fn word(alloc: Global, problem: &Problem<'_>, name: &str) -> Result<Option<Word>, AllocError> {
    if name == "+" {
        return Ok(Some(sign(alloc)?));
    }
    match number(problem, name) {
        Some(n) => Ok(Some(Word::Number(n))),
        None => Ok(None),
    }
}

/// The words that are meant. None where one of them is that of no term.
fn words(
    alloc: Global,
    problem: &Problem<'_>,
    names: &str,
) -> Result<Option<Seq<Word>>, AllocError> {
    let mut words = Seq::new(alloc);
    for name in names.split(" | ") {
        match word(alloc, problem, name)? {
            Some(word) => words.push(word)?,
            None => return Ok(None),
        }
    }
    Ok(Some(words))
}

/// The same, where `nothing` is no word.
fn listed(
    alloc: Global,
    problem: &Problem<'_>,
    names: &str,
) -> Result<Option<Seq<Word>>, AllocError> {
    if names == "nothing" {
        Ok(Some(Seq::new(alloc)))
    } else {
        words(alloc, problem, names)
    }
}

fn instance_of(
    alloc: Global,
    problem: &Problem<'_>,
    rule: &str,
    names: &str,
) -> Result<Option<Instance>, AllocError> {
    match listed(alloc, problem, names)? {
        Some(words) => {
            let rule = Text::from_str(alloc, rule)?;
            Ok(Some(Instance { rule, words }))
        }
        None => Ok(None),
    }
}

/// The instance that is written. None where it isn't one, as a term has no such name.
fn instance(
    alloc: Global,
    problem: &Problem<'_>,
    written: &str,
) -> Result<Option<Instance>, AllocError> {
    match written.split_once(": ") {
        Some((rule, names)) => instance_of(alloc, problem, rule, names),
        None => Ok(None),
    }
}

// ---- instances that are none

fn refuses(alloc: Global, problem: &Problem<'_>, instance: &Instance) -> Result<bool, AllocError> {
    Ok(!Sets.accepts(alloc, problem, instance)?)
}

/// Whether these are words, and the instance of a rule at them isn't one of the problem.
pub(crate) fn is_refused(
    alloc: Global,
    problem: &Problem<'_>,
    written: &str,
) -> Result<bool, AllocError> {
    match instance(alloc, problem, written)? {
        Some(instance) => refuses(alloc, problem, &instance),
        None => Ok(false),
    }
}

const FORGED: &str = "# numbers of no closed term
SE1: 0 | y | s
SE1: x | past | s
SE1: x | y | 1000000000000000000
# numbers of no member and of no part of a rule
SE5: s | t | 2
SE8: s | t | 3
SE10: x, y | s | 3
# terms of other sorts
SE1: x | context | s
SE1: x | y | b
SE1: x | y | x
SE2: context | x, y
SE4: s | t | s
SE5: x | y | 0
SE7: x, y | s | true
SE8: s | b | 2
SE8: x | y | 2
SE9: x, y | x | 0
SE10: x, y | x | 0
# sets that aren't written
SE2: x | s
SE3: x | s | 0
SE9: s | t | 0
SE10: s | t | 0
# atoms that aren't listed
SE2: x | x, y
SE3: x | x, y | 1
SE4: s | x, y | x
SE5: x, y | s | 0
SE6: s | t | 0
SE6: x, y | s | 0
SE7: s | t | x
SE7: x, y | s | x
SE8: s | x, y | 0
SE8: s | s | 0
SE9: x, y | s | 0
SE10: x, y | t | 0
SE10: s | x, y | 0
# what is always so: a term equals itself
SE1: x | x | s
# words too few, too many, or no numbers
SE1: nothing
SE1: x | y
SE1: x | y | s | s
SE1: x | y | s | +
SE1: + | y | s
SE2: x, y
SE2: x | x, y | 0
SE8: s | t
SE9: x, y | s
SE10: x, y | s
# no rules on sets
SE11: x, y | s | 0
SE: x | y | s
se1: x | y | s
EQ1: x | y | s without t
EN2: x | s | t";

const FORGED_OF_ITSELF: &str = "# a set is always itself, and what has a member has it
SE8: s | s | 2
SE4: s | s | s without s
# no term is asked for as a member
SE4: s | s | x
SE7: s | s | s without s
# no set is written
SE9: s | s | 0";

const FORGED_OF_SHARED: &str = "# numbers of no part of a rule
SE6: s | t | 2
# a member of the second set isn't asked for in the first
SE7: s | t | y
SE1: x | y | s
# nothing is asked of the second set and the first
SE6: t | s | 0
SE7: t | s | x
# no set is written
SE10: s | t | 0
SE10: s | t | 1";

const FORGED_OF_WRITTEN: &str = "# numbers of no member
SE3: x | x, y | 2
SE9: x, y | s | 3
SE10: t | x, y | 3
# sets that aren't written
SE2: x | t
SE3: x | t | 0
SE9: t | x, y | 0
# no member of a written set is picked
SE5: x, y | s | 0
SE6: t | x, y | 0
# a member isn't asked for in the other set
SE4: x, y | s | t without x, y
# nothing is asked of the two, or of them in this order
SE9: x, y | t | 0
SE10: x, y | s | 0
SE10: x, y | t | 0
# what is always so: a member is one
SE2: x | x, y";

const FORGED_OF_TAGS: &str = "# a text isn't asked for in other sets
SE1: x | y | s
# nothing is asked of two tags
SE4: tag x | tag y | x
SE7: tag x | tag y | x
SE8: tag x | tag y | 0";

// ---- instances

/// Whether a clause has these literals, one after the other.
fn are_literals(problem: &Problem<'_>, clause: &[Lit], facts: &str) -> bool {
    let mut rest = Some(facts);
    for literal in clause {
        let Some(facts) = rest else {
            return false;
        };
        let (fact, others) = first_of(facts, "; ");
        if !is_literal(problem, *literal, fact) {
            return false;
        }
        rest = others;
    }
    rest.is_none()
}

/// Whether an instance of this rule is told in an assignment.
fn is_told(
    alloc: Global,
    problem: &Problem<'_>,
    m: &Assignment,
    rule: &str,
) -> Result<bool, AllocError> {
    match Sets.violated(alloc, problem, m)? {
        Some(told) => Ok(told.rule.as_str() == rule),
        None => Ok(false),
    }
}

/// Whether an instance of this rule is told where just these literals are false.
fn is_found(
    alloc: Global,
    problem: &Problem<'_>,
    rule: &str,
    facts: &str,
) -> Result<bool, AllocError> {
    let m = assignment(alloc, problem, facts, true)?;
    is_told(alloc, problem, &m, rule)
}

/// Whether an instance is one of the problem, and has these literals.
fn has_literals(
    alloc: Global,
    problem: &Problem<'_>,
    instance: &Instance,
    facts: &str,
) -> Result<bool, AllocError> {
    if !Sets.accepts(alloc, problem, instance)? {
        return Ok(false);
    }
    let clause = Sets.clause(alloc, problem, instance)?;
    Ok(are_literals(problem, clause.as_slice(), facts))
}

/// Whether an instance is one of the problem, has these literals, and is found where they are false.
fn has_clause(
    alloc: Global,
    problem: &Problem<'_>,
    instance: &Instance,
    facts: &str,
) -> Result<bool, AllocError> {
    if !has_literals(alloc, problem, instance, facts)? {
        return Ok(false);
    }
    is_found(alloc, problem, instance.rule.as_str(), facts)
}

/// The same of the instance that is written.
fn is_instance(
    alloc: Global,
    problem: &Problem<'_>,
    written: &str,
    facts: &str,
) -> Result<bool, AllocError> {
    match instance(alloc, problem, written)? {
        Some(instance) => has_clause(alloc, problem, &instance, facts),
        None => Ok(false),
    }
}

/// The same of a row.
pub(crate) fn is_accepted(
    alloc: Global,
    problem: &Problem<'_>,
    row: &str,
) -> Result<bool, AllocError> {
    match row.split_once(" => ") {
        Some((written, facts)) => is_instance(alloc, problem, written, facts),
        None => Ok(false),
    }
}

const RIGHT: &str = "SE1: x | y | s => not x = y; not x in s; y in s
SE1: y | x | t => not y = x; not y in t; x in t
SE1: t without s | s without t | t => not t without s = s without t; not t without s in t; s without t in t
SE4: s | t | x => not s <= t; not x in s; x in t
SE4: t | s | s without t => not t <= s; not s without t in t; s without t in s
SE5: s | t | 0 => s <= t; s without t in s
SE5: s | t | 1 => s <= t; not s without t in t
SE5: t | s | 0 => t <= s; t without s in t
SE8: s | t | 0 => not s = t; s <= t
SE8: s | t | 1 => not s = t; t <= s
SE8: t | s | 1 => not t = s; s <= t
SE8: s | t | 2 => s = t; not s <= t; not t <= s
# each member of the written set, and all of them
SE10: x, y | s | 0 => x, y & s; not x in s
SE10: x, y | s | 1 => x, y & s; not y in s
SE10: x, y | s | 2 => not x, y & s; x in s; y in s";

const RIGHT_OF_ITSELF: &str = "SE8: s | s | 0 => not s = s; s <= s
SE8: s | s | 1 => not s = s; s <= s
SE5: s | s | 0 => s <= s; s without s in s
SE5: s | s | 1 => s <= s; not s without s in s";

const RIGHT_OF_SHARED: &str = "SE1: y | x | t => not y = x; not y in t; x in t
SE1: x | shared | s => not x = shared; not x in s; shared in s
SE6: s | t | 0 => not s & t; shared in s
SE6: s | t | 1 => not s & t; shared in t
# a member of the first set is asked for in the second
SE7: s | t | x => not x in s; not x in t; s & t
SE7: s | t | shared => not shared in s; not shared in t; s & t";

const RIGHT_OF_WRITTEN: &str = "SE1: y | x | x, y => not y = x; not y in x, y; x in x, y
SE2: t without x, y | x, y => not t without x, y in x, y; t without x, y = x; t without x, y = y
# also of the member itself
SE3: x | x, y | 0 => not x = x; x in x, y
SE3: x | x, y | 1 => not x = y; x in x, y
SE3: t without x, y | x, y | 1 => not t without x, y = y; t without x, y in x, y
SE4: t | x, y | t without x, y => not t <= x, y; not t without x, y in t; t without x, y in x, y
SE5: t | x, y | 0 => t <= x, y; t without x, y in t
SE5: t | x, y | 1 => t <= x, y; not t without x, y in x, y
# each member of the written set, and all of them
SE9: x, y | s | 0 => not x, y <= s; x in s
SE9: x, y | s | 1 => not x, y <= s; y in s
SE9: x, y | s | 2 => x, y <= s; not x in s; not y in s
# also where the second set is the written one
SE10: t | x, y | 0 => t & x, y; not x in t
SE10: t | x, y | 1 => t & x, y; not y in t
SE10: t | x, y | 2 => not t & x, y; x in t; y in t";

const RIGHT_OF_TAGS: &str = "# what is asked for in one tag is asked for in the other
SE1: x | y | tag x => not x = y; not x in tag x; y in tag x
SE1: x | y | tag y => not x = y; not x in tag y; y in tag y
SE1: x | y | keys => not x = y; not x in keys; y in keys";

// ---- tests

#[test]
fn refused(rt: HostRuntime) -> Result<(), Fail> {
    let wrong = first_wrong(rt.alloc(), Asked::Sets, Rows::Forged, FORGED)?;
    assert!(rt; wrong.is_none(), "{wrong:?}");
    let wrong = first_wrong(rt.alloc(), Asked::Itself, Rows::Forged, FORGED_OF_ITSELF)?;
    assert!(rt; wrong.is_none(), "{wrong:?}");
    let wrong = first_wrong(rt.alloc(), Asked::Shared, Rows::Forged, FORGED_OF_SHARED)?;
    assert!(rt; wrong.is_none(), "{wrong:?}");
    let wrong = first_wrong(rt.alloc(), Asked::Written, Rows::Forged, FORGED_OF_WRITTEN)?;
    assert!(rt; wrong.is_none(), "{wrong:?}");
    let wrong = first_wrong(rt.alloc(), Asked::Tags, Rows::Forged, FORGED_OF_TAGS)?;
    assert!(rt; wrong.is_none(), "{wrong:?}");
    Ok(())
}

#[test]
fn accepted(rt: HostRuntime) -> Result<(), Fail> {
    let wrong = first_wrong(rt.alloc(), Asked::Sets, Rows::Right, RIGHT)?;
    assert!(rt; wrong.is_none(), "{wrong:?}");
    let wrong = first_wrong(rt.alloc(), Asked::Itself, Rows::Right, RIGHT_OF_ITSELF)?;
    assert!(rt; wrong.is_none(), "{wrong:?}");
    let wrong = first_wrong(rt.alloc(), Asked::Shared, Rows::Right, RIGHT_OF_SHARED)?;
    assert!(rt; wrong.is_none(), "{wrong:?}");
    let wrong = first_wrong(rt.alloc(), Asked::Written, Rows::Right, RIGHT_OF_WRITTEN)?;
    assert!(rt; wrong.is_none(), "{wrong:?}");
    let wrong = first_wrong(rt.alloc(), Asked::Tags, Rows::Right, RIGHT_OF_TAGS)?;
    assert!(rt; wrong.is_none(), "{wrong:?}");
    Ok(())
}
