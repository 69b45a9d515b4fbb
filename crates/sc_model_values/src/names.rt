//! The names of closed terms: the text of a string, and an entity's uid.
ghost use Rattle.std.specs.Prelude.{◌≡◌, ◌<◌, [], length, unwrap_or, IfOk};
ghost use Rattle.sc_clauses.specs.Assignments.{Assignment as AnyAssignment};
ghost use Rattle.sc_footprint.specs.Problems.{closed_terms, number_among, numbered};
ghost use Rattle.sc_model_values.specs.Models.{model, name_in};
ghost use Rattle.sc_term_laws.specs.Tests.{name_of};
ghost use Rattle.sc_terms.specs.Tables.{tree};
ghost use Rattle.sc_terms.specs.TreeSorts.{tree_sort};

use sc_footprint::Problem;
use sc_lists::Text;
use sc_names::{Name, Uid};
use sc_sorts::Sort;
use std::alloc::{AllocError, Global};

/// The number of a closed term; 0 of a term that is none.
fn number(problem: &Problem<'_>, term: u64) -> u64
    requires { term < length problem.now.nodes }
    ensures { result ≡ number_among (closed_terms problem.now) (tree problem.now.nodes term) }
{
    problem.laws();
    problem.terms().laws();
    problem.number_of(term).unwrap_or(0)
}

/// The name of a number, counted from 1; the empty one where there is none.
fn text_at<'a>(names: &'a [Text], number: u64) -> &'a str
    ensures { result.now ≡ unwrap_or (numbered names.now number) [] }
{
    if number == 0 {
        return "";
    }
    match names.get((number - 1) as usize) {
        Some(name) => name.as_str(),
        None => "",
    }
}

/// The name of a term of the table, by the number that it has among the closed terms; no other
/// term has one.
pub fn name_at<'a>(problem: &Problem<'_>, names: &'a [Text], term: u64) -> &'a str
    requires { term < length problem.now.nodes }
    ensures { result.now ≡ name_in problem.now names.now (tree problem.now.nodes term) }
{
    text_at(names, number(problem, term))
}

/// The type of an entity; of another term the empty name.
fn type_name(alloc: Global, problem: &Problem<'_>, term: u64) -> Result<Name, AllocError>
    requires { term < length problem.now.nodes }
    ensures { IfOk result (λ name. name ≡ name_of (tree_sort (tree problem.now.nodes term))) }
{
    match problem.terms().sort(term) {
        Sort::Entity(name, _) => name.try_clone(alloc),
        _ => Ok(Name::from_text(Text::from_str(alloc, "")?)),
    }
}

/// The uid of an entity, a term of the table: its type and its name.
pub fn uid_of(
    alloc: Global,
    problem: &Problem<'_>,
    names: &[Text],
    term: u64,
) -> Result<Uid, AllocError>
    requires { term < length problem.now.nodes }
    ensures { IfOk result (λ uid. (m : AnyAssignment)
        → uid ≡ (model problem.now m names.now).uid (tree problem.now.nodes term)) }
{
    let type_name = type_name(alloc, problem, term)?;
    let id = Text::from_str(alloc, name_at(problem, names, term))?;
    Ok(Uid { type_name, id })
}
