//! The atoms among the closed terms.
ghost use Rattle.std.specs.Prelude.{◌≡◌, ◌<◌, length, IfOk};
ghost use Rattle.std.specs.List.{AllByRecursion};
ghost use Rattle.sc_closure.specs.Following.{atoms_of};

use indexmap::IndexSet;
use sc_closure::{is_atom, put};
use sc_terms::Terms;
use std::alloc::{AllocError, Global};

/// The numbers of the atoms among terms, in their order.
pub(crate) fn atoms_among(
    alloc: Global,
    terms: &Terms,
    closed: &IndexSet<u64>,
) -> Result<IndexSet<u64>, AllocError>
    requires { AllByRecursion (λ n. n < length terms.now) closed.now.keys }
    ensures { IfOk result (λ s. s.keys ≡ atoms_of terms.now closed.now.keys) }
{
    let mut atoms = IndexSet::new(alloc);
    for n in closed.iter() {
        if is_atom(terms, *n) {
            put(&mut atoms, *n)?;
        }
    }
    Ok(atoms)
}
