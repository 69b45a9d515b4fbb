//! Which rule on strings an instance names.
ghost use Rattle.std.specs.Prelude.{◌≡◌, IfOk};
ghost use Rattle.th_strings_instances.specs.Names as names;

use crate::numbers::{are_numbers, copied_signs, numbers};
use crate::rule::StringRule;
use sc_clauses::{Instance, Word};
use sc_lists::equals;
use sc_rule_instances::are_written;
use std::alloc::{AllocError, Global};

/// The three numbers that words are.
fn three_numbers(words: &[Word]) -> Option<(u64, u64, u64)>
    ensures { result ≡ names.three_numbers words.now }
{
    match words {
        [Word::Number(a), Word::Number(b), Word::Number(c)] => Some((*a, *b, *c)),
        _ => None,
    }
}

/// The rule that three numbers go with.
fn plain_rule(rule: &str, words: &[Word]) -> Option<StringRule>
    ensures { result ≡ names.plain_named rule.now (names.three_numbers words.now) }
{
    match three_numbers(words) {
        Some((a, b, pattern)) => {
            if equals(rule, "ST1") {
                Some(StringRule::St1(a, b, pattern))
            } else {
                None
            }
        }
        None => None,
    }
}

/// A counting rule, by its signs and the words after them.
fn counted_rule(
    alloc: Global,
    rule: &str,
    signs: &[Option<bool>],
    words: &[Word],
) -> Result<Option<StringRule>, AllocError>
    ensures { IfOk result (λ o. o ≡ names.counted_if rule.now signs.now words.now) }
{
    if !are_numbers(words) {
        return Ok(None);
    }
    if equals(rule, "ST2") {
        let signs = copied_signs(alloc, signs)?;
        let strings = numbers(alloc, words)?;
        return Ok(Some(StringRule::St2(signs, strings)));
    }
    if equals(rule, "ST3") {
        let signs = copied_signs(alloc, signs)?;
        let strings = numbers(alloc, words)?;
        return Ok(Some(StringRule::St3(signs, strings)));
    }
    Ok(None)
}

/// The rule that words go with.
fn rule_by(alloc: Global, rule: &str, words: &[Word]) -> Result<Option<StringRule>, AllocError>
    ensures { IfOk result (λ o. o ≡ names.string_named rule.now words.now) }
{
    match words.split_first() {
        Some((Word::Signs(signs), rest)) => counted_rule(alloc, rule, signs.as_slice(), rest),
        _ => Ok(plain_rule(rule, words)),
    }
}

/// The rule on strings that an instance names. None exactly where it is none; want of memory is
/// its one fault.
pub fn string_rule(alloc: Global, instance: &Instance) -> Result<Option<StringRule>, AllocError>
    ensures { IfOk result (λ o. o ≡ names.string_rule instance.now) }
{
    let words = instance.words.as_slice();
    if !are_written(words) {
        return Ok(None);
    }
    rule_by(alloc, instance.rule.as_str(), words)
}
