//! The least number that is no id of a sort yet.
ghost use Rattle.std.specs.Prelude.{◌≡◌, ◌&&◌, ◌<◌, decimal, length, IfOk};
ghost use Rattle.sc_model_names.specs.Ids.{is_id as is_id_of, least_id as least_id_of};
ghost use Rattle.sc_rule_laws.specs.Terms.{one_sort};
ghost use Rattle.std.specs.Str.{bytes_eq};
ghost use Rattle.sc_model_names.specs.Numbers.{HaveTerms, named_terms};
ghost use Rattle.sc_terms.specs.Tables.{tree};

use itoa::Buffer;
use sc_footprint::Problem;
use sc_lists::Text;
use sc_rule_instances::is_one_sort;
use std::alloc::{AllocError, Global};

/// A number in decimal.
fn numeral(alloc: Global, number: u64) -> Result<Text, AllocError>
    ensures { IfOk result (λ t. t ≡ decimal number) }
{
    let mut buffer = Buffer::new();
    Text::from_str(alloc, buffer.format(number))
}

/// Whether a text is an id of a term's sort.
fn is_id(problem: &Problem<'_>, entries: &[(u64, Text)], x: u64, text: &Text) -> bool
    requires entries_in { HaveTerms problem.now.nodes entries.now }
    requires x_in { x < length problem.now.nodes }
    ensures { result ≡ is_id_of (named_terms problem.now.nodes entries.now) (tree problem.now.nodes x) text.now }
{
    let mut rest = entries;
    while let Some((entry, later)) = rest.split_first() {
        if is_id_of_sort(problem, entry, x, text) {
            return true;
        }
        rest = later;
    }
    false
}

#[tactic(auto, using(crate::proofs::TruthLaws::both_exchanged))]
fn is_id_of_sort(problem: &Problem<'_>, entry: &(u64, Text), x: u64, text: &Text) -> bool
    requires entry_in { entry.now.0 < length problem.now.nodes }
    requires x_in { x < length problem.now.nodes }
    ensures { result ≡ (one_sort (tree problem.now.nodes x) (tree problem.now.nodes entry.now.0)
        && bytes_eq entry.now.1 text.now) }
{
    entry.1.is_same(text) && is_one_sort(problem, x, entry.0)
}

/// The least number that is no id of a term's sort, in decimal.
#[tactic(auto, unfolding(crate::specs::Ids::least_id))]
pub(crate) fn least_id(
    alloc: Global,
    problem: &Problem<'_>,
    entries: &[(u64, Text)],
    x: u64,
) -> Result<Text, AllocError>
    requires entries_in { HaveTerms problem.now.nodes entries.now }
    requires x_in { x < length problem.now.nodes }
    ensures { IfOk result (λ t. t ≡ least_id_of (named_terms problem.now.nodes entries.now) (tree problem.now.nodes x) 0
        (named_terms problem.now.nodes entries.now)) }
{
    let mut number = 0;
    for _entry in entries {
        let text = numeral(alloc, number)?;
        if !is_id(problem, entries, x, &text) {
            return Ok(text);
        }
        number += 1;
    }
    numeral(alloc, number)
}
