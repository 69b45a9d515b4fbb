//! What goes with each closed term, by numbers.
ghost use Rattle.std.specs.Prelude.{◌≡◌, ◌<◌, ◌≤◌, ◌^◌, length, slice_get, IfOk};
ghost use Rattle.std.specs.List.{AllByRecursion};
ghost use Rattle.sc_terms.specs.Tables.{tree, Keeps};
ghost use Rattle.sc_closure.specs.Making.{IsSomeTerm};
ghost use Rattle.sc_footprint.specs.Companions.{AreListed, between};

use indexmap::IndexSet;
use sc_closure::put_following;
use sc_schema::Schema;
use sc_terms::Terms;
use std::alloc::{AllocError, Global};

/// Where what goes with a term stands: from one place up to another.
#[derive(Clone, Copy)]
pub(crate) struct Span {
    /// The term's number in the table.
    pub(crate) term: u64,
    /// The place of the first.
    pub(crate) from: u64,
    /// The place after the last.
    pub(crate) until: u64,
}

/// What goes with terms: where it stands for each, and one list of numbers.
#[derive(Drop)]
pub(crate) struct Companions {
    pub(crate) spans: Vec<Span>,
    pub(crate) numbers: Vec<u64>,
}

/// What goes with each of these terms, which come to be in the table where they aren't yet.
pub(crate) fn companions_of(
    alloc: Global,
    schema: &Schema,
    terms: &mut Terms,
    closed: &IndexSet<u64>,
) -> Result<Companions, AllocError>
    requires within { AllByRecursion (λ n. n < length terms.old) closed.now.keys }
    requires terms { AllByRecursion (λ n. IsSomeTerm (tree terms.old n)) closed.now.keys }
    ensures ok { IfOk result (λ c. AreListed schema.now terms.new closed.now.keys c.spans.items c.numbers.items) }
    ensures small { IfOk result (λ c. length c.spans.items < 10 ^ 18) }
    ensures kept { Keeps terms.old terms.new }
{
    let mut spans = Vec::new(alloc);
    let mut numbers = Vec::new(alloc);
    for term in closed.iter() {
        let from = numbers.len() as u64;
        put_following(alloc, schema, terms, *term, &mut numbers)?;
        let until = numbers.len() as u64;
        spans.push(Span {
            term: *term,
            from,
            until,
        })?;
    }
    // A span has 24 bytes, so there are fewer than 10^18, which the slice tells.
    let _all = spans.as_slice();
    Ok(Companions { spans, numbers })
}

/// The span at a place, counted from 0; None past the end.
pub(crate) fn span_at(spans: &[Span], place: u64) -> Option<Span>
    ensures { result ≡ slice_get spans.now place }
{
    match spans.get(place as usize) {
        Some(span) => Some(*span),
        None => None,
    }
}

/// The number at a place of a span, counted from 0; None past its end.
pub(crate) fn number_between(numbers: &[u64], span: Span, place: u64) -> Option<u64>
    requires { span.from ≤ span.until }
    ensures { result ≡ slice_get (between numbers.now span) place }
{
    if place >= span.until - span.from {
        return None;
    }
    match numbers.get((span.from + place) as usize) {
        Some(number) => Some(*number),
        None => None,
    }
}
