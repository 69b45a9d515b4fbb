//! Instances of the rules on strings, with the words that name them.
ghost use Rattle.std.specs.Prelude.{◌≡◌, ◌∷◌, [], map, Some, IfOk};
ghost use Rattle.sc_clauses.specs.declared.step.Word.TheVariants.{Number, Signs};
ghost use Rattle.th_strings_instances.specs.Names as names;

use crate::numbers::copied_signs;
use crate::rule::StringRule;
use sc_clauses::{Instance, Word};
use sc_lists::{Seq, Text};
use sc_rule_instances::{are_written, put_numbers};
use std::alloc::{AllocError, Global};

/// An instance of some words. No memory holds so many terms that a log can't hold their numbers,
/// and no counting rule has an instance where there are no patterns.
#[tactic(auto, using(crate::proofs::NameLaws::named_back))]
fn instance(alloc: Global, rule: &str, words: Seq<Word>) -> Result<Instance, AllocError>
    ensures { IfOk result (λ i. names.string_rule i ≡ names.string_named rule.now words) }
{
    if !are_written(words.as_slice()) {
        return Err(AllocError);
    }
    let rule = Text::from_str(alloc, rule)?;
    Ok(Instance { rule, words })
}

/// An instance of ST1.
fn matched(alloc: Global, a: u64, b: u64, pattern: u64) -> Result<Instance, AllocError>
    ensures { IfOk result (λ i. names.string_rule i ≡ Some (names.matched a b pattern)) }
{
    let mut words = Seq::new(alloc);
    put_numbers(&mut words, &[a, b, pattern])?;
    instance(alloc, "ST1", words)
}

/// The words of a counting rule.
fn counted_words(
    alloc: Global,
    signs: &[Option<bool>],
    strings: &[u64],
) -> Result<Seq<Word>, AllocError>
    ensures { IfOk result (λ ws. ws ≡ Signs signs.now ∷ map Number strings.now) }
{
    let mut words = Seq::new(alloc);
    words.push(Word::Signs(copied_signs(alloc, signs)?))?;
    put_numbers(&mut words, strings)?;
    Ok(words)
}

/// An instance of a counting rule.
fn counted(
    alloc: Global,
    rule: &str,
    signs: &[Option<bool>],
    strings: &[u64],
) -> Result<Instance, AllocError>
    ensures { IfOk result (λ i. names.string_rule i ≡ names.counted_named rule.now signs.now strings.now) }
{
    let words = counted_words(alloc, signs, strings)?;
    instance(alloc, rule, words)
}

/// The instance that a rule on strings is.
pub fn write_string(alloc: Global, rule: &StringRule) -> Result<Instance, AllocError>
    ensures { IfOk result (λ i. names.string_rule i ≡ Some rule.now) }
{
    match rule {
        StringRule::St1(a, b, pattern) => matched(alloc, *a, *b, *pattern),
        StringRule::St2(signs, strings) => {
            counted(alloc, "ST2", signs.as_slice(), strings.as_slice())
        }
        StringRule::St3(signs, strings) => {
            counted(alloc, "ST3", signs.as_slice(), strings.as_slice())
        }
    }
}
