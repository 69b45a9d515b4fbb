//! Names that terms have got.
ghost use Rattle.std.specs.Prelude.{◌≡◌, ◌<◌, [], length, unwrap_or, IfOk};
ghost use Rattle.std.specs.List.{list_any};
ghost use Rattle.std.specs.Option.{option_copied};
ghost use Rattle.std.specs.Str.{bytes_eq};
ghost use Rattle.sc_model_values.specs.Models.{truth_in};
ghost use Rattle.sc_model_laws.specs.Names.{are_equal, name_in as name_among, unused as first_unused};
ghost use Rattle.sc_model_names.specs.Numbers.{HaveTerms, named_terms};
ghost use Rattle.sc_terms.specs.Tables.{tree};

use crate::truth::is_equal;
use sc_clauses::Assignment;
use sc_footprint::Problem;
use sc_lists::{Seq, Text};
use std::alloc::{AllocError, Global};

/// The name of a term that equals another, if one has a name.
#[tactic(auto, unfolding(sc_model_laws::specs::Names::name_in))]
pub fn name_in<'a>(
    problem: &Problem<'_>,
    m: &Assignment,
    entries: &'a [(u64, Text)],
    x: u64,
) -> Option<&'a Text>
    requires entries_in { HaveTerms problem.now.nodes entries.now }
    requires x_in { x < length problem.now.nodes }
    ensures { option_copied result ≡ name_among (are_equal (truth_in problem.now m.now))
        (named_terms problem.now.nodes entries.now) (tree problem.now.nodes x) }
{
    let mut rest = entries;
    while let Some((entry, later)) = rest.split_first() {
        if is_equal(problem, m, x, entry.0) {
            return Some(&entry.1);
        }
        rest = later;
    }
    None
}

/// Whether a text is a name of a term of the table.
fn is_name(problem: &Problem<'_>, entries: &[(u64, Text)], text: &Text) -> bool
    ensures { result ≡ list_any (λ e. bytes_eq e.1 text.now) (named_terms problem.now.nodes entries.now) }
{
    let mut rest = entries;
    while let Some((entry, later)) = rest.split_first() {
        if entry.1.is_same(text) {
            return true;
        }
        rest = later;
    }
    false
}

/// The first of some texts that is no name; the empty one where each is, or there are none.
#[tactic(auto, unfolding(sc_model_laws::specs::Names::unused))]
pub(crate) fn unused(
    alloc: Global,
    problem: &Problem<'_>,
    entries: &[(u64, Text)],
    texts: &[Text],
) -> Result<Text, AllocError>
    ensures { IfOk result (λ t. t ≡ first_unused (named_terms problem.now.nodes entries.now) texts.now) }
{
    let mut rest = texts;
    while let Some((text, later)) = rest.split_first() {
        if is_name(problem, entries, text) {
            rest = later;
        } else {
            return text.try_clone(alloc);
        }
    }
    Text::from_str(alloc, "")
}

/// The same where there may be no texts.
#[tactic(auto, unfolding(sc_model_laws::specs::Names::unused))]
pub(crate) fn unused_of(
    alloc: Global,
    problem: &Problem<'_>,
    entries: &[(u64, Text)],
    texts: Option<&Seq<Text>>,
) -> Result<Text, AllocError>
    ensures { IfOk result (λ t. t ≡ first_unused (named_terms problem.now.nodes entries.now)
        (unwrap_or (option_copied texts.entry) [])) }
{
    match texts {
        Some(texts) => unused(alloc, problem, entries, texts.as_slice()),
        None => Text::from_str(alloc, ""),
    }
}
