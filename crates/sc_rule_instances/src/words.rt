//! Which rule an instance names.
ghost use Rattle.std.specs.Prelude.{◌≡◌};
ghost use Rattle.std.specs.List.{list_all};
ghost use Rattle.sc_footprint.specs.Written.{is_word};
ghost use Rattle.sc_rule_instances.specs.Names as names;

use crate::rule::{EntityRule, EqualRule, SetRule};
use sc_clauses::{Instance, Word};
use sc_lists::equals;

/// A log holds numbers below this one, which have at most 18 digits.
pub(crate) const NUMBER_LIMIT: u64 = 1_000_000_000_000_000_000;

/// The numbers that words are, where there are one to four.
#[derive(Clone, Copy)]
pub(crate) enum Numbers {
    One(u64),
    Two(u64, u64),
    Three(u64, u64, u64),
    Four(u64, u64, u64, u64),
    Other,
}

fn numbers_of(words: &[Word]) -> Numbers
    ensures { result ≡ names.numbers_of words.now }
{
    match words {
        [Word::Number(a)] => Numbers::One(*a),
        [Word::Number(a), Word::Number(b)] => Numbers::Two(*a, *b),
        [Word::Number(a), Word::Number(b), Word::Number(c)] => Numbers::Three(*a, *b, *c),
        [
            Word::Number(a),
            Word::Number(b),
            Word::Number(c),
            Word::Number(d),
        ] => Numbers::Four(*a, *b, *c, *d),
        _ => Numbers::Other,
    }
}

/// Whether a log can hold a word.
fn is_written(word: &Word) -> bool
    ensures { result ≡ is_word word.now }
{
    match word {
        Word::Number(n) => *n < NUMBER_LIMIT,
        Word::Signs(signs) => !signs.is_empty(),
    }
}

/// Whether a log can hold each of some words.
pub fn are_written(words: &[Word]) -> bool
    ensures { result ≡ list_all is_word words.now }
{
    words.iter().all(|word| is_written(word))
}

/// The numbers that words are, where there are one to four that a log can hold.
fn numbers_in(words: &[Word]) -> Numbers
    ensures { result ≡ names.numbers_in words.now }
{
    if are_written(words) {
        numbers_of(words)
    } else {
        Numbers::Other
    }
}

fn equal_two(rule: &str, a: u64, b: u64) -> Option<EqualRule>
    ensures { result ≡ names.equal_two rule.now a b }
{
    if equals(rule, "EQ2") {
        Some(EqualRule::Eq2(a, b))
    } else if equals(rule, "EQ4") {
        Some(EqualRule::Eq4(a, b))
    } else if equals(rule, "EQ5") {
        Some(EqualRule::Eq5(a, b))
    } else if equals(rule, "EQ6") {
        Some(EqualRule::Eq6(a, b))
    } else {
        None
    }
}

fn equal_three(rule: &str, a: u64, b: u64, c: u64) -> Option<EqualRule>
    ensures { result ≡ names.equal_three rule.now a b c }
{
    if equals(rule, "EQ1") {
        Some(EqualRule::Eq1(a, b, c))
    } else if equals(rule, "EQ3") {
        Some(EqualRule::Eq3(a, b, c))
    } else if equals(rule, "EQ7") {
        Some(EqualRule::Eq7(a, b, c))
    } else {
        None
    }
}

/// The rule on equations that an instance names. None exactly where it is none.
pub fn equal_rule(instance: &Instance) -> Option<EqualRule>
    ensures { result ≡ names.equal_rule instance.now }
{
    let rule = instance.rule.as_str();
    match numbers_in(instance.words.as_slice()) {
        Numbers::One(a) => {
            if equals(rule, "EQ8") {
                Some(EqualRule::Eq8(a))
            } else {
                None
            }
        }
        Numbers::Two(a, b) => equal_two(rule, a, b),
        Numbers::Three(a, b, c) => equal_three(rule, a, b, c),
        _ => None,
    }
}

fn set_three(rule: &str, a: u64, b: u64, c: u64) -> Option<SetRule>
    ensures { result ≡ names.set_three rule.now a b c }
{
    if equals(rule, "SE1") {
        Some(SetRule::Se1(a, b, c))
    } else if equals(rule, "SE3") {
        Some(SetRule::Se3(a, b, c))
    } else if equals(rule, "SE4") {
        Some(SetRule::Se4(a, b, c))
    } else if equals(rule, "SE5") {
        Some(SetRule::Se5(a, b, c))
    } else if equals(rule, "SE6") {
        Some(SetRule::Se6(a, b, c))
    } else if equals(rule, "SE7") {
        Some(SetRule::Se7(a, b, c))
    } else if equals(rule, "SE8") {
        Some(SetRule::Se8(a, b, c))
    } else if equals(rule, "SE9") {
        Some(SetRule::Se9(a, b, c))
    } else if equals(rule, "SE10") {
        Some(SetRule::Se10(a, b, c))
    } else {
        None
    }
}

/// The rule on sets that an instance names. None exactly where it is none.
pub fn set_rule(instance: &Instance) -> Option<SetRule>
    ensures { result ≡ names.set_rule instance.now }
{
    let rule = instance.rule.as_str();
    match numbers_in(instance.words.as_slice()) {
        Numbers::Two(a, b) => {
            if equals(rule, "SE2") {
                Some(SetRule::Se2(a, b))
            } else {
                None
            }
        }
        Numbers::Three(a, b, c) => set_three(rule, a, b, c),
        _ => None,
    }
}

fn entity_one(rule: &str, a: u64) -> Option<EntityRule>
    ensures { result ≡ names.entity_one rule.now a }
{
    if equals(rule, "EN4") {
        Some(EntityRule::En4(a))
    } else if equals(rule, "EN6") {
        Some(EntityRule::En6(a))
    } else if equals(rule, "EN8") {
        Some(EntityRule::En8(a))
    } else if equals(rule, "EQ9") {
        Some(EntityRule::Eq9(a))
    } else {
        None
    }
}

fn entity_two(rule: &str, a: u64, b: u64) -> Option<EntityRule>
    ensures { result ≡ names.entity_two rule.now a b }
{
    if equals(rule, "EN7") {
        Some(EntityRule::En7(a, b))
    } else {
        None
    }
}

fn entity_three(rule: &str, a: u64, b: u64, c: u64) -> Option<EntityRule>
    ensures { result ≡ names.entity_three rule.now a b c }
{
    if equals(rule, "EN1") {
        Some(EntityRule::En1(a, b, c))
    } else if equals(rule, "EN2") {
        Some(EntityRule::En2(a, b, c))
    } else if equals(rule, "EN3") {
        Some(EntityRule::En3(a, b, c))
    } else {
        None
    }
}

/// The rule on entities that an instance names. None exactly where it is none.
pub fn entity_rule(instance: &Instance) -> Option<EntityRule>
    ensures { result ≡ names.entity_rule instance.now }
{
    let rule = instance.rule.as_str();
    match numbers_in(instance.words.as_slice()) {
        Numbers::One(a) => entity_one(rule, a),
        Numbers::Two(a, b) => entity_two(rule, a, b),
        Numbers::Three(a, b, c) => entity_three(rule, a, b, c),
        Numbers::Four(a, b, c, d) => {
            if equals(rule, "EN5") {
                Some(EntityRule::En5(a, b, c, d))
            } else {
                None
            }
        }
        Numbers::Other => None,
    }
}
