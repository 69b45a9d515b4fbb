//! Instances, with the words that name their rules and with their numbers.
ghost use Rattle.std.specs.Prelude.{◌≡◌, ◌++◌, map, Some, true, IfOk, OnOk};
ghost use Rattle.std.specs.List.{list_all};
ghost use Rattle.sc_clauses.specs.declared.step.Word.TheVariants.{Number};
ghost use Rattle.sc_footprint.specs.Written.{is_number};
ghost use Rattle.sc_rule_instances.specs.Names as names;

use crate::rule::{EntityRule, EqualRule, SetRule};
use crate::words::NUMBER_LIMIT;
use sc_clauses::{Instance, Word};
use sc_lists::{Seq, Text};
use std::alloc::{AllocError, Global};

/// Whether a log can hold each of these numbers.
fn are_small(numbers: &[u64]) -> bool
    ensures { result ≡ list_all is_number numbers.now }
{
    numbers.iter().all(|n| *n < NUMBER_LIMIT)
}

/// Puts numbers after the other words.
pub fn put_numbers(words: &mut Seq<Word>, numbers: &[u64]) -> Result<(), AllocError>
    ensures { OnOk result (words.new ≡ words.old ++ map Number numbers.now) }
{
    let mut rest = numbers;
    while let Some((n, later)) = rest.split_first() {
        words.push(Word::Number(*n))?;
        rest = later;
    }
    Ok(())
}

/// An instance of a rule for numbers. No memory holds so many terms that a log can't hold their
/// numbers.
fn numbered(alloc: Global, rule: &str, numbers: &[u64]) -> Result<Instance, AllocError>
    ensures rule { IfOk result (λ i. i.rule ≡ rule.now) }
    ensures words { IfOk result (λ i. i.words ≡ map Number numbers.now) }
    ensures small { IfOk result (λ i. list_all is_number numbers.now ≡ true) }
{
    if !are_small(numbers) {
        return Err(AllocError);
    }
    let rule = Text::from_str(alloc, rule)?;
    let mut words = Seq::new(alloc);
    put_numbers(&mut words, numbers)?;
    Ok(Instance { rule, words })
}

/// The instance that a rule on equations is.
#[tactic(auto, using(crate::proofs::NameLaws::equal_back))]
pub fn write_equal(alloc: Global, rule: EqualRule) -> Result<Instance, AllocError>
    ensures { IfOk result (λ i. names.equal_rule i ≡ Some rule) }
{
    match rule {
        EqualRule::Eq1(a, b, c) => numbered(alloc, "EQ1", &[a, b, c]),
        EqualRule::Eq2(x, i) => numbered(alloc, "EQ2", &[x, i]),
        EqualRule::Eq3(r, s, i) => numbered(alloc, "EQ3", &[r, s, i]),
        EqualRule::Eq4(r, s) => numbered(alloc, "EQ4", &[r, s]),
        EqualRule::Eq5(o, q) => numbered(alloc, "EQ5", &[o, q]),
        EqualRule::Eq6(o, q) => numbered(alloc, "EQ6", &[o, q]),
        EqualRule::Eq7(o, q, i) => numbered(alloc, "EQ7", &[o, q, i]),
        EqualRule::Eq8(o) => numbered(alloc, "EQ8", &[o]),
    }
}

/// The instance that a rule on sets is.
#[tactic(auto, using(crate::proofs::NameLaws::set_back))]
pub fn write_set(alloc: Global, rule: SetRule) -> Result<Instance, AllocError>
    ensures { IfOk result (λ i. names.set_rule i ≡ Some rule) }
{
    match rule {
        SetRule::Se1(x, y, s) => numbered(alloc, "SE1", &[x, y, s]),
        SetRule::Se2(x, s) => numbered(alloc, "SE2", &[x, s]),
        SetRule::Se3(x, s, i) => numbered(alloc, "SE3", &[x, s, i]),
        SetRule::Se4(s, t, x) => numbered(alloc, "SE4", &[s, t, x]),
        SetRule::Se5(s, t, i) => numbered(alloc, "SE5", &[s, t, i]),
        SetRule::Se6(s, t, i) => numbered(alloc, "SE6", &[s, t, i]),
        SetRule::Se7(s, t, x) => numbered(alloc, "SE7", &[s, t, x]),
        SetRule::Se8(s, t, i) => numbered(alloc, "SE8", &[s, t, i]),
        SetRule::Se9(s, t, i) => numbered(alloc, "SE9", &[s, t, i]),
        SetRule::Se10(s, t, i) => numbered(alloc, "SE10", &[s, t, i]),
    }
}

/// The instance that a rule on entities is.
#[tactic(auto, using(crate::proofs::NameLaws::entity_back))]
pub fn write_entity(alloc: Global, rule: EntityRule) -> Result<Instance, AllocError>
    ensures { IfOk result (λ i. names.entity_rule i ≡ Some rule) }
{
    match rule {
        EntityRule::En1(x, y, i) => numbered(alloc, "EN1", &[x, y, i]),
        EntityRule::En2(x, s, z) => numbered(alloc, "EN2", &[x, s, z]),
        EntityRule::En3(x, y, i) => numbered(alloc, "EN3", &[x, y, i]),
        EntityRule::En4(e) => numbered(alloc, "EN4", &[e]),
        EntityRule::En5(e, f, x, u) => numbered(alloc, "EN5", &[e, f, x, u]),
        EntityRule::En6(a) => numbered(alloc, "EN6", &[a]),
        EntityRule::En7(s, x) => numbered(alloc, "EN7", &[s, x]),
        EntityRule::En8(x) => numbered(alloc, "EN8", &[x]),
        EntityRule::Eq9(x) => numbered(alloc, "EQ9", &[x]),
    }
}
