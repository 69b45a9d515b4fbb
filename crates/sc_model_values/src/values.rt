//! The value of a closed term, by its sort.
ghost use Rattle.std.specs.Prelude.{◌≡◌, ◌<◌, ◌++◌, Contains, ℕ, List, flat_map, length, map, IfOk, OnOk};
ghost use Rattle.std.specs.List.{AllByRecursion};
ghost use Rattle.sc_model_values.specs.Parts.{IsOf};
ghost use Rattle.sc_model_values.specs.Values.{shown};
ghost use Rattle.sc_bits.specs.Addresses.{ip_of};
ghost use Rattle.sc_bits.specs.Bits.{of_bits64};
ghost use Rattle.sc_clauses.specs.Assignments.{Assignment as AnyAssignment};
ghost use Rattle.sc_model_values.specs.Models.{model, name_in, truth_in};
ghost use Rattle.sc_model_laws.specs.Assignments.{lit};
ghost use Rattle.sc_model_laws.specs.Vals.{elements, val_of};
ghost use Rattle.sc_sorts.specs.declared.sort.Sort.{Sort as AnySort};
ghost use Rattle.sc_sorts.specs.declared.sort.Sort.TheVariants as sorts;
ghost use Rattle.sc_terms.specs.Folds.{bit_term, field_term};
ghost use Rattle.sc_terms.specs.Tables.{tree};
ghost use Rattle.sc_terms.specs.TreeSorts.{tree_sort};
ghost use Rattle.sc_terms.specs.Values.{field_of, set_from, value_in};
ghost use Rattle.sc_values.specs.declared.value.Value.TheVariants as value;

use crate::bits::{address, number};
use crate::members::elements_of;
use crate::names::{name_at, uid_of};
use crate::parts::{field, held, present};
use crate::truth::truth;
use sc_clauses::Assignment;
use sc_decimal::Decimal;
use sc_footprint::{Problem, closed_laws};
use sc_lists::{Seq, Text};
use sc_sorts::Sort;
use sc_values::{Rec, Set, Value, set_of};
use std::alloc::{AllocError, Global};

/// The value of a whole number.
fn long_value(
    alloc: Global,
    problem: &Problem<'_>,
    m: &Assignment,
    term: u64,
) -> Result<Value, AllocError>
    requires { IsOf problem.now sorts.Long term }
    ensures { IfOk result (λ x. x
        ≡ value.Long (of_bits64 (λ i. lit (truth_in problem.now m.now) (bit_term (tree problem.now.nodes term) i)))) }
{
    Ok(Value::Long(number(alloc, problem, m, term)?))
}

/// The value of a string: its name.
fn string_value(
    alloc: Global,
    problem: &Problem<'_>,
    names: &[Text],
    term: u64,
) -> Result<Value, AllocError>
    requires { term < length problem.now.nodes }
    ensures { IfOk result (λ x. x ≡ value.String (name_in problem.now names.now (tree problem.now.nodes term))) }
{
    let text = Text::from_str(alloc, name_at(problem, names, term))?;
    Ok(Value::String(text))
}

/// The value of a decimal number.
fn decimal_value(
    alloc: Global,
    problem: &Problem<'_>,
    m: &Assignment,
    term: u64,
) -> Result<Value, AllocError>
    requires { IsOf problem.now sorts.Decimal term }
    ensures { IfOk result (λ x. x
        ≡ value.Decimal (of_bits64 (λ i. lit (truth_in problem.now m.now)
        (bit_term (tree problem.now.nodes term) i)))) }
{
    let number = number(alloc, problem, m, term)?;
    Ok(Value::Decimal(Decimal::from_ten_thousandths(number)))
}

/// The value of an address.
fn ip_value(
    alloc: Global,
    problem: &Problem<'_>,
    m: &Assignment,
    term: u64,
) -> Result<Value, AllocError>
    requires { IsOf problem.now sorts.Ip term }
    ensures { IfOk result (λ x. x
        ≡ value.Ip (ip_of (λ i. lit (truth_in problem.now m.now) (bit_term (tree problem.now.nodes term) i)))) }
{
    Ok(Value::Ip(address(alloc, problem, m, term)?))
}

/// The value of an entity: its uid.
fn entity_value(
    alloc: Global,
    problem: &Problem<'_>,
    names: &[Text],
    term: u64,
) -> Result<Value, AllocError>
    requires { term < length problem.now.nodes }
    ensures { IfOk result (λ x. (m : AnyAssignment)
        → x ≡ value.Entity ((model problem.now m names.now).uid (tree problem.now.nodes term))) }
{
    Ok(Value::Entity(uid_of(alloc, problem, names, term)?))
}

/// The value of a term whose sort isn't one of options; of another `false`.
#[cycle(values)]
fn plain_value(
    alloc: Global,
    problem: &Problem<'_>,
    m: &Assignment,
    names: &[Text],
    sort: &Sort,
    term: u64,
) -> Result<Value, AllocError>
    requires { IsOf problem.now sort.now term }
    ensures { IfOk result (λ x. x
        ≡ value_in (val_of (model problem.now m.now names.now) sort.now (tree problem.now.nodes term))) }
{
    match sort {
        Sort::Bool => Ok(Value::Bool(truth(problem, m, term))),
        Sort::Long => long_value(alloc, problem, m, term),
        Sort::String => string_value(alloc, problem, names, term),
        Sort::Decimal => decimal_value(alloc, problem, m, term),
        Sort::Ip => ip_value(alloc, problem, m, term),
        Sort::Entity(_, _) => entity_value(alloc, problem, names, term),
        Sort::Set(member) => {
            let members = set_value(alloc, problem, m, names, member.get(), term)?;
            Ok(Value::Set(members))
        }
        Sort::Record(fields) => {
            let fields = record_value(alloc, problem, m, names, fields, term)?;
            Ok(Value::Record(fields))
        }
        Sort::Option(_) => Ok(Value::Bool(false)),
    }
}

/// The value of a term; none for an option that is absent.
#[cycle(values)]
fn shown_value(
    alloc: Global,
    problem: &Problem<'_>,
    m: &Assignment,
    names: &[Text],
    sort: &Sort,
    term: u64,
) -> Result<Option<Value>, AllocError>
    requires { IsOf problem.now sort.now term }
    ensures { IfOk result (λ x. x
        ≡ shown (val_of (model problem.now m.now names.now) sort.now (tree problem.now.nodes term))) }
{
    match sort {
        Sort::Option(held) => option_value(alloc, problem, m, names, held.get(), term),
        _ => Ok(Some(plain_value(alloc, problem, m, names, sort, term)?)),
    }
}

/// What an option holds, if it holds a value.
#[cycle(values)]
fn option_value(
    alloc: Global,
    problem: &Problem<'_>,
    m: &Assignment,
    names: &[Text],
    inner: &Sort,
    term: u64,
) -> Result<Option<Value>, AllocError>
    requires { IsOf problem.now (sorts.Option inner.now) term }
    ensures { IfOk result (λ x. x ≡ shown (val_of (model problem.now m.now names.now) (sorts.Option inner.now)
        (tree problem.now.nodes term))) }
{
    if truth(problem, m, present(problem, inner, term)) {
        let part = held(problem, inner, term);
        Ok(Some(plain_value(alloc, problem, m, names, inner, part)?))
    } else {
        Ok(None)
    }
}

/// The set of the members of a set.
#[cycle(values)]
fn set_value(
    alloc: Global,
    problem: &Problem<'_>,
    m: &Assignment,
    names: &[Text],
    member: &Sort,
    term: u64,
) -> Result<Set, AllocError>
    requires { IsOf problem.now (sorts.Set member.now) term }
    ensures { IfOk result (λ s. s ≡ set_from (map (λ y.
        value_in (val_of (model problem.now m.now names.now) member.now y))
        (elements (model problem.now m.now names.now) (tree problem.now.nodes term)))) }
{
    problem.laws();
    problem.terms().laws();
    closed_laws();
    let terms = elements_of(alloc, problem, m, term)?;
    let members = member_values(alloc, problem, m, names, member, terms.as_slice())?;
    set_of(alloc, members.as_slice())
}

/// The values of terms of one sort.
#[cycle(values)]
fn member_values(
    alloc: Global,
    problem: &Problem<'_>,
    m: &Assignment,
    names: &[Text],
    sort: &Sort,
    terms: &[u64],
) -> Result<Seq<Value>, AllocError>
    requires { AllByRecursion (IsOf problem.now sort.now) terms.now }
    ensures { IfOk result (λ xs. xs ≡ map (λ n.
        value_in (val_of (model problem.now m.now names.now) sort.now (tree problem.now.nodes n))) terms.now) }
{
    let mut values = Seq::new(alloc);
    for term in terms {
        values.push(plain_value(alloc, problem, m, names, sort, *term)?)?;
    }
    Ok(values)
}

/// The fields of a record, those that are absent left out.
#[cycle(values)]
fn record_value(
    alloc: Global,
    problem: &Problem<'_>,
    m: &Assignment,
    names: &[Text],
    fields: &Seq<(Text, Sort)>,
    term: u64,
) -> Result<Rec, AllocError>
    requires { IsOf problem.now (sorts.Record fields.now) term }
    ensures { IfOk result (λ r. r ≡ flat_map (λ (f : List ℕ × AnySort). field_of (
      f.0,
      val_of (model problem.now m.now names.now) f.1 (field_term f.0 (tree problem.now.nodes term)),
    )) fields.now) }
{
    let mut record = Seq::new(alloc);
    for (place, entry) in fields.as_slice().iter().enumerate() {
        let part = field(problem, fields, term, place as u64);
        put_field(alloc, problem, m, names, entry, part, &mut record)?;
    }
    Ok(record)
}

/// Puts a field, unless it is absent.
#[cycle(values)]
fn put_field(
    alloc: Global,
    problem: &Problem<'_>,
    m: &Assignment,
    names: &[Text],
    field: &(Text, Sort),
    part: u64,
    put: &mut Rec,
) -> Result<(), AllocError>
    requires { IsOf problem.now field.now.1 part }
    ensures { OnOk result (put.new ≡ put.old ++ field_of (
      field.now.0,
      val_of (model problem.now m.now names.now) field.now.1 (tree problem.now.nodes part),
    )) }
{
    let name = field.0.try_clone(alloc)?;
    match shown_value(alloc, problem, m, names, &field.1, part)? {
        Some(value) => put.push((name, value)),
        None => Ok(()),
    }
}

/// The value that an assignment gives to a closed term, with these names of closed terms, by their
/// numbers from 1 on; none for an option that is absent. Want of memory is its one fault.
pub fn value_of(
    alloc: Global,
    problem: &Problem<'_>,
    m: &Assignment,
    names: &[Text],
    term: u64,
) -> Result<Option<Value>, AllocError>
    requires closed { Contains problem.now.closed term }
    ensures { IfOk result (λ x. x ≡ shown (val_of (model problem.now m.now names.now)
        (tree_sort (tree problem.now.nodes term)) (tree problem.now.nodes term))) }
{
    problem.laws();
    let sort = problem.terms().sort(term);
    shown_value(alloc, problem, m, names, sort, term)
}
