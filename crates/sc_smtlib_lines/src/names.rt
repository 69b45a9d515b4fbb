//! What a script names: the datatypes, and the terms by their places.
ghost use Rattle.std.specs.Prelude.{◌≡◌, ◌<◌, length, IfOk};
ghost use Rattle.sc_terms.specs.Tables.{tree};
ghost use Rattle.sc_footprint.specs.Problems.{number_among};
ghost use Rattle.sc_smtlib_lines.specs.Gaining.{AreNames, terms_of};
ghost use Rattle.sc_smtlib_lines.specs.Names as named;

use indexmap::IndexSet;
use sc_closure::place_in;
use sc_smtlib_forms::{Form, with_one};
use sc_smtlib_terms::numeral;
use sc_sorts::Sort;
use sc_terms::Terms;
use std::alloc::{AllocError, Global};

/// The terms of a script, in the order of terms, and its datatypes in theirs.
#[derive(Clone, Copy)]
pub(crate) struct Names<'t> {
    pub(crate) terms: &'t Terms,
    pub(crate) numbers: &'t IndexSet<u64>,
    pub(crate) sorts: &'t [Sort],
}

/// The place of a term, counted from 1; 0 where it isn't there.
#[tactic(auto, using(crate::proofs::PlaceLaws::place_same))]
pub(crate) fn place(names: &Names<'_>, n: u64) -> u64
    requires named { AreNames names.now }
    requires within { n < length names.now.terms.now }
    ensures { result ≡ number_among (terms_of names.now) (tree names.now.terms.now n) }
{
    place_in(names.numbers, n)
}

/// The name of a term.
pub(crate) fn term_name(alloc: Global, names: &Names<'_>, n: u64) -> Result<Vec<u8>, AllocError>
    requires named { AreNames names.now }
    requires within { n < length names.now.terms.now }
    ensures { IfOk result (λ v. v.items ≡ named.term_name (terms_of names.now) (tree names.now.terms.now n)) }
{
    with_one(
        alloc,
        Form::TermName,
        numeral(alloc, place(names, n))?.as_slice(),
    )
}
