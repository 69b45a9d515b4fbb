//! Values and records of closed terms.
ghost use Rattle.std.specs.Prelude.{◌≡◌, unwrap_or, IfOk, false};
ghost use Rattle.sc_model_worlds.specs.Listed.{IsListed};
ghost use Rattle.sc_model_values.specs.Models.{model};
ghost use Rattle.sc_model_laws.specs.Vals.{val_of};
ghost use Rattle.sc_sorts.specs.Defaults.{is_option as option_sort};
ghost use Rattle.sc_terms.specs.Tables.{tree};
ghost use Rattle.sc_terms.specs.TreeSorts.{tree_sort};
ghost use Rattle.sc_terms.specs.Values.{fields_seen, record_in, value_in};
ghost use Rattle.sc_values.specs.declared.value.Value.{out-Value};
ghost use Rattle.sc_values.specs.declared.value.Value.TheVariants as value;

use sc_clauses::Assignment;
use sc_footprint::Problem;
use sc_lists::{Seq, Text};
use sc_model_values::value_of;
use sc_sorts::Sort;
use sc_values::{Rec, Value};
use std::alloc::{AllocError, Global};

fn is_option(sort: &Sort) -> bool
    ensures { result ≡ option_sort sort.now }
{
    matches!(sort, Sort::Option(_))
}

/// What is shown, and `false` where nothing is.
fn shown_or_false(shown: Option<Value>) -> Value
    ensures { result ≡ unwrap_or shown (value.Bool false) }
{
    match shown {
        Some(value) => value,
        None => Value::Bool(false),
    }
}

/// The value of a closed term; of an option `false`.
pub(crate) fn value_at(
    alloc: Global,
    problem: &Problem<'_>,
    m: &Assignment,
    names: &[Text],
    term: u64,
) -> Result<Value, AllocError>
    requires { IsListed problem.now term }
    ensures { IfOk result (λ x. x ≡ value_in (val_of (model problem.now m.now names.now)
        (tree_sort (tree problem.now.nodes term)) (tree problem.now.nodes term))) }
{
    if is_option(problem.terms().sort(term)) {
        return Ok(Value::Bool(false));
    }
    let shown = value_of(alloc, problem, m, names, term)?;
    Ok(shown_or_false(shown))
}

/// The fields of a record, and none of another value.
pub(crate) fn record_of(alloc: Global, value: Value) -> Rec
    ensures { result ≡ fields_seen (out-Value value) }
{
    match value {
        Value::Record(fields) => fields,
        _ => Seq::new(alloc),
    }
}

/// The fields of the record of a closed term.
pub(crate) fn record_at(
    alloc: Global,
    problem: &Problem<'_>,
    m: &Assignment,
    names: &[Text],
    term: u64,
) -> Result<Rec, AllocError>
    requires { IsListed problem.now term }
    ensures { IfOk result (λ r. r ≡ record_in (val_of (model problem.now m.now names.now)
        (tree_sort (tree problem.now.nodes term)) (tree problem.now.nodes term))) }
{
    let value = value_at(alloc, problem, m, names, term)?;
    Ok(record_of(alloc, value))
}
