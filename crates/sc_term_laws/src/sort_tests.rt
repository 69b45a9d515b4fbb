//! Kinds of sorts.
ghost use Rattle.std.specs.Prelude.{◌≡◌};
ghost use Rattle.sc_sorts.specs.Defaults.{is_option as option_is};
ghost use Rattle.sc_term_laws.specs.Tests as tests;

use sc_sorts::Sort;

pub(crate) fn is_bool(sort: &Sort) -> bool
    ensures { result ≡ tests.is_bool sort.now }
{
    matches!(sort, Sort::Bool)
}

pub(crate) fn is_string(sort: &Sort) -> bool
    ensures { result ≡ tests.is_string sort.now }
{
    matches!(sort, Sort::String)
}

pub(crate) fn is_ip(sort: &Sort) -> bool
    ensures { result ≡ tests.is_ip sort.now }
{
    matches!(sort, Sort::Ip)
}

pub(crate) fn is_option(sort: &Sort) -> bool
    ensures { result ≡ option_is sort.now }
{
    matches!(sort, Sort::Option(_))
}

fn is_long(sort: &Sort) -> bool
    ensures { result ≡ tests.is_long sort.now }
{
    matches!(sort, Sort::Long)
}

pub(crate) fn both_long(k: &Sort, l: &Sort) -> bool
    ensures { result ≡ tests.both_long k.now l.now }
{
    is_long(k) && is_long(l)
}

/// Whether values of the sort are numbers.
pub(crate) fn is_number(sort: &Sort) -> bool
    ensures { result ≡ tests.is_number sort.now }
{
    match sort {
        Sort::Long => true,
        Sort::Decimal => true,
        _ => false,
    }
}

fn is_set(sort: &Sort) -> bool
    ensures { result ≡ tests.is_set sort.now }
{
    matches!(sort, Sort::Set(_))
}

pub(crate) fn both_sets(k: &Sort, l: &Sort) -> bool
    ensures { result ≡ tests.both_sets k.now l.now }
{
    is_set(k) && *k == *l
}

/// Whether a sort is one of sets with members of another.
pub(crate) fn is_set_of(set: &Sort, member: &Sort) -> bool
    ensures { result ≡ tests.is_set_of set.now member.now }
{
    match set {
        Sort::Set(own) => *own.get() == *member,
        _ => false,
    }
}

/// Whether values of the sort have a bit at a place.
pub(crate) fn has_place(sort: &Sort, place: u64) -> bool
    ensures { result ≡ tests.has_place sort.now place }
{
    match sort {
        Sort::Long => place < 64,
        Sort::Decimal => place < 64,
        Sort::Ip => place < 257,
        _ => false,
    }
}
