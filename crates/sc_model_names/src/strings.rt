//! The names of strings.
ghost use Rattle.std.specs.Prelude.{◌≡◌, ◌<◌, ◌++◌, length, map, IfOk, OnOk};
ghost use Rattle.std.specs.Option.{option_copied};
ghost use Rattle.sc_footprint.specs.Problems.{goal_term};
ghost use Rattle.sc_model_values.specs.Models.{truth_in};
ghost use Rattle.sc_model_laws.specs.Consistent.{IsConsistent};
ghost use Rattle.sc_model_laws.specs.Names.{literal_text, literal_entries, next_name as name_after, named, signs_of as signs_under, unused as first_unused};
ghost use Rattle.sc_model_names.specs.Naming.{AreStringNames};
ghost use Rattle.sc_model_names.specs.Numbers.{AreIn, HaveTerms, named_terms};
ghost use Rattle.sc_model_names.specs.Tables.{texts_in};
ghost use Rattle.sc_terms.specs.Tables.{tree};

use crate::classes::classes_of;
use crate::names::{name_in, unused_of};
use crate::numbers::{closed_numbers, strings_among};
use crate::patterns::patterns_of;
use crate::table::{Entry, signs_of, table_of, texts_at};
use sc_clauses::Assignment;
use sc_footprint::Problem;
use sc_lists::{Seq, Text};
use sc_model_laws::model_laws;
use sc_pattern::Pattern;
use sc_sorts::{Leaf, Literal, Node};
use std::alloc::{AllocError, Global};

/// What a literal says. None exactly of what is no literal of a string.
fn text_at<'a>(problem: &'a Problem<'_>, n: u64) -> Option<&'a Text>
    requires { n < length problem.now.nodes }
    ensures { option_copied result ≡ literal_text (tree problem.now.nodes n) }
{
    match problem.terms().node(n) {
        Node::Leaf(Leaf::Literal(Literal::String(text))) => Some(text),
        _ => None,
    }
}

/// The literals of some strings, with what they say.
fn literals_of(
    alloc: Global,
    problem: &Problem<'_>,
    strings: &[u64],
) -> Result<Seq<(u64, Text)>, AllocError>
    requires { AreIn problem.now.nodes strings.now }
    ensures value { IfOk result (λ es. named_terms problem.now.nodes es ≡ literal_entries
        (map (tree problem.now.nodes) strings.now)) }
    ensures within { IfOk result (λ es. HaveTerms problem.now.nodes es) }
{
    let mut entries = Seq::new(alloc);
    let mut rest = strings;
    while let Some((n, later)) = rest.split_first() {
        if let Some(text) = text_at(problem, *n) {
            let name = text.try_clone(alloc)?;
            entries.push((*n, name))?;
        }
        rest = later;
    }
    Ok(entries)
}

/// A text for a string that equals none with a name.
fn further_name(
    alloc: Global,
    problem: &Problem<'_>,
    m: &Assignment,
    patterns: &[Pattern],
    table: &[Entry],
    entries: &[(u64, Text)],
    x: u64,
) -> Result<Text, AllocError>
    requires { x < length problem.now.nodes }
    ensures { IfOk result (λ t. t ≡ first_unused (named_terms problem.now.nodes entries.now) (texts_in table.now
        (signs_under (truth_in problem.now m.now) patterns.now (tree problem.now.nodes x)))) }
{
    let signs = signs_of(alloc, problem, m, patterns, x)?;
    let texts = texts_at(table, signs.as_slice());
    unused_of(alloc, problem, entries, texts)
}

/// The name of an equal string, or else such a text.
fn next_name(
    alloc: Global,
    problem: &Problem<'_>,
    m: &Assignment,
    patterns: &[Pattern],
    table: &[Entry],
    entries: &[(u64, Text)],
    x: u64,
) -> Result<Text, AllocError>
    requires x_in { x < length problem.now.nodes }
    requires entries_in { HaveTerms problem.now.nodes entries.now }
    ensures { IfOk result (λ t. t ≡ name_after (truth_in problem.now m.now) patterns.now (texts_in table.now)
        (named_terms problem.now.nodes entries.now) (tree problem.now.nodes x)) }
{
    match name_in(problem, m, entries, x) {
        Some(name) => name.try_clone(alloc),
        None => further_name(alloc, problem, m, patterns, table, entries, x),
    }
}

/// Literals first, and then each string in its order.
#[tactic(auto, unfolding(sc_model_laws::specs::Names::named))]
fn name_strings(
    alloc: Global,
    problem: &Problem<'_>,
    m: &Assignment,
    patterns: &[Pattern],
    table: &[Entry],
    strings: &[u64],
) -> Result<Seq<(u64, Text)>, AllocError>
    requires { AreIn problem.now.nodes strings.now }
    ensures value { IfOk result (λ es. named_terms problem.now.nodes es ≡ named (truth_in problem.now m.now)
        patterns.now
        (texts_in table.now) (literal_entries (map (tree problem.now.nodes) strings.now))
        (map (tree problem.now.nodes) strings.now)) }
    ensures within { IfOk result (λ es. HaveTerms problem.now.nodes es) }
{
    let mut entries = literals_of(alloc, problem, strings)?;
    let mut rest = strings;
    while let Some((x, later)) = rest.split_first() {
        let name = next_name(alloc, problem, m, patterns, table, entries.as_slice(), *x)?;
        entries.push((*x, name))?;
        rest = later;
    }
    Ok(entries)
}

/// Names for the closed strings of a problem under a consistent assignment, by their numbers in the table of terms. A
/// string that equals a literal is its text; the others take distinct further texts, one a class of equal strings, that
/// match just the patterns which they are to match. The time is that of `strings_of` for each combination of patterns
/// that strings match, with as many texts as there are classes, beside a look at each pair of strings.
pub fn string_names(
    alloc: Global,
    problem: &Problem<'_>,
    m: &Assignment,
) -> Result<Seq<(u64, Text)>, AllocError>
    requires { IsConsistent problem.now.schema problem.now.env (goal_term problem.now) (truth_in problem.now m.now) }
    ensures names { IfOk result (λ es. AreStringNames problem.now m.now es) }
    ensures within { IfOk result (λ es. HaveTerms problem.now.nodes es) }
{
    problem.laws();
    model_laws();
    let closed = closed_numbers(alloc, problem)?;
    let numbers = closed.as_slice();
    let asked = patterns_of(alloc, problem, numbers)?;
    let patterns = asked.as_slice();
    let found = strings_among(alloc, problem, numbers)?;
    let strings = found.as_slice();
    let classes = classes_of(alloc, problem, m, strings)?;
    let wanted = classes.len() as u64;
    let entered = table_of(alloc, problem, m, patterns, strings, wanted)?;
    let table = entered.as_slice();
    name_strings(alloc, problem, m, patterns, table, strings)
}
