//! The names of closed terms.
ghost use Rattle.std.specs.Prelude.{◌≡◌, ◌<◌, [], length, map, IfOk};
ghost use Rattle.std.specs.List.{AllByRecursion};
ghost use Rattle.std.specs.Option.{option_copied};
ghost use Rattle.std.specs.Str.{IsUtf8};
ghost use Rattle.sc_footprint.specs.Problems.{goal_term};
ghost use Rattle.sc_model_names.specs.Models.{truth_in, model};
ghost use Rattle.sc_model_names.specs.Ids.{is_same};
ghost use Rattle.sc_model_names.specs.Namings.{name_of_term};
ghost use Rattle.sc_model_laws.specs.Consistent.{IsConsistent};
ghost use Rattle.sc_model_laws.specs.Models.{IsModel};
ghost use Rattle.sc_model_laws.specs.Names.{or_fresh, name_in as name_among, are_equal};
ghost use Rattle.sc_model_names.specs.Numbers.{AreIn, HaveTerms, named_terms};
ghost use Rattle.sc_terms.specs.Tables.{tree};

use crate::ids::{id_in, ids_of};
use crate::names::name_in;
use crate::numbers::closed_numbers;
use crate::strings::string_names;
use sc_clauses::Assignment;
use sc_footprint::Problem;
use sc_lists::{Seq, Text};
use sc_model_laws::model_laws;
use sc_sorts::Sort;
use std::alloc::{AllocError, Global};

/// A name, or else the empty text.
fn or_empty(alloc: Global, name: Option<&Text>) -> Result<Text, AllocError>
    ensures { IfOk result (λ t. t ≡ or_fresh (option_copied name.entry) []) }
{
    match name {
        Some(text) => text.try_clone(alloc),
        None => Text::from_str(alloc, ""),
    }
}

/// The name of a term.
fn name_of(
    alloc: Global,
    problem: &Problem<'_>,
    m: &Assignment,
    strings: &[(u64, Text)],
    ids: &[(u64, Text)],
    n: u64,
) -> Result<Text, AllocError>
    requires strings_in { HaveTerms problem.now.nodes strings.now }
    requires ids_in { HaveTerms problem.now.nodes ids.now }
    requires n_in { n < length problem.now.nodes }
    ensures { IfOk result (λ t. t ≡ name_of_term (truth_in problem.now m.now)
        (named_terms problem.now.nodes strings.now)
        (named_terms problem.now.nodes ids.now) (tree problem.now.nodes n)) }
{
    match problem.terms().sort(n) {
        Sort::String => or_empty(alloc, name_in(problem, m, strings, n)),
        Sort::Entity(_, _) => or_empty(alloc, id_in(problem, m, ids, n)),
        _ => Text::from_str(alloc, ""),
    }
}

/// A text is one.
fn text_law(text: &Text)
    ensures { IsUtf8 text.now }
{
    let _text = text.as_str();
}

/// The names of some terms.
fn write_names(
    alloc: Global,
    problem: &Problem<'_>,
    m: &Assignment,
    strings: &[(u64, Text)],
    ids: &[(u64, Text)],
    numbers: &[u64],
) -> Result<Seq<Text>, AllocError>
    requires strings_in { HaveTerms problem.now.nodes strings.now }
    requires ids_in { HaveTerms problem.now.nodes ids.now }
    requires numbers_in { AreIn problem.now.nodes numbers.now }
    ensures value { IfOk result (λ names. names ≡ map (name_of_term (truth_in problem.now m.now)
        (named_terms problem.now.nodes strings.now) (named_terms problem.now.nodes ids.now))
        (map (tree problem.now.nodes) numbers.now)) }
    ensures texts { IfOk result (λ names. AllByRecursion IsUtf8 names) }
{
    let mut names = Seq::new(alloc);
    let mut rest = numbers;
    while let Some((n, later)) = rest.split_first() {
        let name = name_of(alloc, problem, m, strings, ids, *n)?;
        text_law(&name);
        names.push(name)?;
        rest = later;
    }
    Ok(names)
}

/// Names for the closed terms of a problem, by their numbers: of a string its text, of an entity its id, of any other
/// term the empty text. Equal terms have one name, and with these names a consistent assignment is a model. A class of
/// equal entities with a literal has the literal's id; the others take, in the order of their first terms, the least
/// number that is no id of their sort yet, in decimal. A class of equal strings with a literal has its text; the others
/// take distinct further texts that match just the patterns which they are to match. The time is that of
/// `string_names`, and for entities grows with the square of the number of their classes times that of entities.
pub fn names_of(
    alloc: Global,
    problem: &Problem<'_>,
    m: &Assignment,
) -> Result<Seq<Text>, AllocError>
    requires consistent { IsConsistent problem.now.schema problem.now.env (goal_term problem.now)
        (truth_in problem.now m.now) }
    ensures model { IfOk result (λ names. IsModel problem.now.schema problem.now.env (goal_term problem.now)
        (model problem.now m.now names)) }
    ensures texts { IfOk result (λ names. AllByRecursion IsUtf8 names) }
{
    problem.laws();
    model_laws();
    let closed = closed_numbers(alloc, problem)?;
    let numbers = closed.as_slice();
    let named = string_names(alloc, problem, m)?;
    let strings = named.as_slice();
    let identified = ids_of(alloc, problem, m, numbers)?;
    let ids = identified.as_slice();
    write_names(alloc, problem, m, strings, ids, numbers)
}
