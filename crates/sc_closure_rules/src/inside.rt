//! What tells the value of a term, by its sort, by numbers.
ghost use Rattle.std.specs.Prelude.{◌≡◌, ◌<◌, ◌≤◌, ◌++◌, [], ◌∷◌, length, map, IfOk, OnOk};
ghost use Rattle.std.specs.Map.{keys_of};
ghost use Rattle.sc_sorts.specs.declared.sort.Sort.{out-Sort};
ghost use Rattle.sc_sorts.specs.Inside.{fields_in};
ghost use Rattle.sc_terms.specs.TreeSorts.{tree_sort};
ghost use Rattle.sc_terms.specs.Tables.{tree, Keeps, StandsFor};
ghost use Rattle.sc_terms.specs.Folds.{equal_term, field_term, present_term, held_term, default_term, bit_term};
ghost use Rattle.sc_term_definitions.specs.Definitions.{bit_count as count_of};
ghost use Rattle.sc_term_definitions.specs.Making.{Puts};
ghost use Rattle.sc_closure_rules.specs.Closure as closing;
ghost use Rattle.sc_closure_rules.specs.Beside.{held_option, held_terms};

use sc_lists::{Seq, Text};
use sc_sorts::{Sort, try_clone};
use sc_term_definitions::bit_count;
use sc_terms::Terms;
use std::alloc::{AllocError, Global};

/// The names of fields.
fn names_of(alloc: Global, fields: &Seq<(Text, Sort)>) -> Result<Seq<Text>, AllocError>
    ensures { IfOk result (λ names. names ≡ keys_of fields.now) }
{
    let mut names = Seq::new(alloc);
    for field in fields.as_slice() {
        names.push(field.0.try_clone(alloc)?)?;
    }
    Ok(names)
}

/// The names of a sort's fields, if it is one of records.
pub(crate) fn field_names(alloc: Global, sort: &Sort) -> Result<Seq<Text>, AllocError>
    ensures { IfOk result (λ names. names ≡ keys_of (fields_in (out-Sort sort.now))) }
{
    match sort {
        Sort::Record(fields) => names_of(alloc, fields),
        _ => Ok(Seq::new(alloc)),
    }
}

/// The sort of what an option holds, if a sort is one of options.
fn held_of(alloc: Global, sort: &Sort) -> Result<Option<Sort>, AllocError>
    ensures { IfOk result (λ held. held ≡ held_option (out-Sort sort.now)) }
{
    match sort {
        Sort::Option(held) => {
            let held = try_clone(alloc, held.get())?;
            Ok(Some(held))
        }
        _ => Ok(None),
    }
}

/// Puts three numbers.
pub(crate) fn put_three(
    first: u64,
    second: u64,
    third: u64,
    numbers: &mut Vec<u64>,
) -> Result<(), AllocError>
    ensures { OnOk result (numbers.new.items ≡ numbers.old.items ++ first ∷ second ∷ third ∷ []) }
{
    numbers.extend_from_slice(&[first, second, third])?;
    Ok(())
}

/// The number of a record's field of a name.
pub(crate) fn field(
    alloc: Global,
    terms: &mut Terms,
    n: u64,
    name: &Text,
) -> Result<u64, AllocError>
    requires { n < length terms.old }
    ensures ok { IfOk result (λ m. StandsFor terms.new m (field_term name.now (tree terms.old n))) }
    ensures kept { Keeps terms.old terms.new }
{
    let name = name.try_clone(alloc)?;
    terms.field(n, name)
}

/// Puts the fields of a record.
fn put_fields(
    alloc: Global,
    terms: &mut Terms,
    n: u64,
    names: &[Text],
    numbers: &mut Vec<u64>,
) -> Result<(), AllocError>
    requires { n < length terms.old }
    ensures ok { OnOk result (Puts terms.old terms.new numbers.old.items numbers.new.items (map (λ name. field_term
        name (tree terms.old n)) names.now)) }
    ensures kept { Keeps terms.old terms.new }
{
    for name in names {
        let m = field(alloc, terms, n, name)?;
        numbers.push(m)?;
    }
    Ok(())
}

/// The number of the equation of a term with the default of a sort.
pub(crate) fn is_default(terms: &mut Terms, n: u64, sort: &Sort) -> Result<u64, AllocError>
    requires { n < length terms.old }
    ensures ok { IfOk result (λ m. StandsFor terms.new m (equal_term (tree terms.old n) (default_term sort.now))) }
    ensures kept { Keeps terms.old terms.new }
{
    let default = terms.default(sort)?;
    let equation = terms.equal(n, default)?;
    Ok(equation)
}

/// Puts whether an option holds a value, what it holds, and whether that is the default.
#[tactic(auto, using(sc_term_definitions::proofs::MakingLaws::puts_three))]
fn put_option(
    terms: &mut Terms,
    n: u64,
    held: &Sort,
    numbers: &mut Vec<u64>,
) -> Result<(), AllocError>
    requires { n < length terms.old }
    ensures ok { OnOk result (Puts terms.old terms.new numbers.old.items numbers.new.items (present_term
        (tree terms.old n) ∷ held_term (tree terms.old n) ∷ equal_term (held_term (tree terms.old n)) (default_term
        held.now) ∷ [])) }
    ensures kept { Keeps terms.old terms.new }
{
    let present = terms.present(n)?;
    let value = terms.held(n)?;
    let equation = is_default(terms, value, held)?;
    put_three(present, value, equation, numbers)?;
    Ok(())
}

/// The number of a bit of a term.
#[tactic(auto, using(sc_term_definitions::proofs::PlaceLaws::place_in))]
fn bit(terms: &mut Terms, n: u64, place: u64) -> Result<u64, AllocError>
    requires within { n < length terms.old }
    requires place { place < count_of (tree_sort (tree terms.old n)) }
    ensures ok { IfOk result (λ m. StandsFor terms.new m (bit_term (tree terms.old n) place)) }
    ensures kept { Keeps terms.old terms.new }
{
    terms.bit(n, place)
}

/// Puts so many bits of a term.
fn put_bits(terms: &mut Terms, n: u64, count: u64, numbers: &mut Vec<u64>) -> Result<(), AllocError>
    requires within { n < length terms.old }
    requires places { count ≤ count_of (tree_sort (tree terms.old n)) }
    ensures ok { OnOk result (Puts terms.old terms.new numbers.old.items numbers.new.items (closing.bit_terms count
        (tree terms.old n))) }
    ensures kept { Keeps terms.old terms.new }
{
    for place in 0..count {
        let m = bit(terms, n, place)?;
        numbers.push(m)?;
    }
    Ok(())
}

/// Puts what tells an option of a sort, if there is one.
#[tactic(auto, using(sc_term_definitions::proofs::MakingLaws::puts_nothing))]
fn put_option_if(
    terms: &mut Terms,
    n: u64,
    held: &Option<Sort>,
    numbers: &mut Vec<u64>,
) -> Result<(), AllocError>
    requires { n < length terms.old }
    ensures ok { OnOk result (Puts terms.old terms.new numbers.old.items numbers.new.items (held_terms held.now
        (tree terms.old n))) }
    ensures kept { Keeps terms.old terms.new }
{
    match held {
        Some(sort) => put_option(terms, n, sort, numbers),
        None => Ok(()),
    }
}

/// Puts what tells an option, if a term is one.
fn put_held(
    alloc: Global,
    terms: &mut Terms,
    n: u64,
    numbers: &mut Vec<u64>,
) -> Result<(), AllocError>
    requires { n < length terms.old }
    ensures ok { OnOk result (Puts terms.old terms.new numbers.old.items numbers.new.items (held_terms (held_option
        (out-Sort (tree_sort (tree terms.old n)))) (tree terms.old n))) }
    ensures kept { Keeps terms.old terms.new }
{
    let held = held_of(alloc, terms.sort(n))?;
    let outcome = put_option_if(terms, n, &held, numbers);
    drop(held);
    outcome
}

/// Puts what tells a term's value, by its sort.
pub(crate) fn put_inside(
    alloc: Global,
    terms: &mut Terms,
    n: u64,
    numbers: &mut Vec<u64>,
) -> Result<(), AllocError>
    requires { n < length terms.old }
    ensures ok { OnOk result (Puts terms.old terms.new numbers.old.items numbers.new.items (closing.inside
        (tree terms.old n))) }
    ensures kept { Keeps terms.old terms.new }
{
    let names = field_names(alloc, terms.sort(n))?;
    let count = bit_count(terms.sort(n));
    put_fields(alloc, terms, n, names.as_slice(), numbers)?;
    put_held(alloc, terms, n, numbers)?;
    put_bits(terms, n, count, numbers)?;
    Ok(())
}
