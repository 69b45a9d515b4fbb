//! The closed terms that go with a closed term.
ghost use Rattle.std.specs.Prelude.{◌≡◌, ◌<◌, Contains, ℕ, List, Some, IsSome, false, length, slice_get};
ghost use Rattle.sc_model_values.specs.Parts.{IsOf};
ghost use Rattle.sc_footprint.specs.Atoms.{is_bool};
ghost use Rattle.sc_footprint.specs.Closure.{inside};
ghost use Rattle.sc_sorts.specs.declared.sort.Sort.{Sort as AnySort};
ghost use Rattle.sc_sorts.specs.declared.sort.Sort.TheVariants as sorts;
ghost use Rattle.sc_terms.specs.Folds.{field_term, held_term, present_term};
ghost use Rattle.sc_terms.specs.Tables.{tree};

use sc_footprint::{Problem, closed_laws};
use sc_lists::{Seq, Text};
use sc_sorts::Sort;

/// Of what is inside a term that is no truth value, its fields or bits or what it holds, the one at
/// a place.
pub(crate) fn part(problem: &Problem<'_>, term: u64, place: u64) -> u64
    requires closed { Contains problem.now.closed term }
    requires plain { is_bool (tree problem.now.nodes term) ≡ false }
    requires there { IsSome (slice_get (inside (tree problem.now.nodes term)) place) }
    ensures closed { Contains problem.now.closed result }
    ensures within { result < length problem.now.nodes }
    ensures value { slice_get (inside (tree problem.now.nodes term)) place ≡ Some (tree problem.now.nodes result) }
{
    problem.laws();
    problem.terms().laws();
    let Some(number) = problem.number_of(term) else {
        unreachable!()
    };
    match problem.companion(number, place) {
        Some(part) => part,
        None => unreachable!(),
    }
}

/// Whether an option holds a value, as a term.
pub(crate) fn present(problem: &Problem<'_>, held: &Sort, term: u64) -> u64
    requires { IsOf problem.now (sorts.Option held.now) term }
    ensures within { result < length problem.now.nodes }
    ensures value { tree problem.now.nodes result ≡ present_term (tree problem.now.nodes term) }
{
    part(problem, term, 0)
}

/// What an option holds, or else the default.
pub(crate) fn held(problem: &Problem<'_>, held: &Sort, term: u64) -> u64
    requires { IsOf problem.now (sorts.Option held.now) term }
    ensures of { IsOf problem.now held.now result }
    ensures value { tree problem.now.nodes result ≡ held_term (tree problem.now.nodes term) }
{
    problem.laws();
    closed_laws();
    part(problem, term, 1)
}

/// The field at a place of a record.
pub(crate) fn field(problem: &Problem<'_>, fields: &Seq<(Text, Sort)>, term: u64, place: u64) -> u64
    requires record { IsOf problem.now (sorts.Record fields.now) term }
    requires place { place < length fields.now }
    ensures { (f : List ℕ × AnySort) → slice_get fields.now place ≡ Some f
        → IsOf problem.now f.1 result × (tree problem.now.nodes result ≡ field_term f.0 (tree problem.now.nodes term)) }
{
    problem.laws();
    closed_laws();
    let _fields = fields;
    part(problem, term, place)
}
