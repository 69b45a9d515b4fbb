//! The datatypes that the sorts of terms tell of.
ghost use Rattle.std.specs.Prelude.{◌≡◌, ◌<◌, ◌∷◌, [], map, flat_map, length, ℕ, List, IfOk, OnOk};
ghost use Rattle.std.specs.List.{AllByRecursion};
ghost use Rattle.sc_lists.specs.Members.{Has};
ghost use Rattle.sc_sorts.specs.declared.sort.Sort.{Sort as AnySort};
ghost use Rattle.sc_terms.specs.Tables.{tree};
ghost use Rattle.sc_smtlib_lines.specs.Subterms.{AreJust, datatypes_in, datatypes_of};
ghost use Rattle.sc_smtlib_lines.specs.Depths.{depth_cmp};
ghost use Rattle.sc_smtlib_lines.specs.Gaining.{AreLayered, Gains, sorts_in};

use crate::depth::depth;
use sc_lists::{Seq, Text, members};
use sc_sorts::{Sort, sort_laws, try_clone};
use sc_terms::Terms;
use std::alloc::{AllocError, Global};

/// A sort with its depth, by which datatypes are ordered first.
#[derive(PartialEq, Eq, PartialOrd, Ord, Drop)]
pub(crate) struct Layered {
    pub(crate) depth: u64,
    pub(crate) sort: Sort,
}

fn put_one(alloc: Global, set: &mut Seq<Layered>, sort: &Sort) -> Result<(), AllocError>
    requires { AreLayered set.old }
    ensures layered { OnOk result (AreLayered set.new) }
    ensures gains { OnOk result (Gains (sorts_in set.old) (sorts_in set.new) (sort.now ∷ [])) }
{
    sort_laws();
    let copy = try_clone(alloc, sort)?;
    let layered = Layered {
        depth: depth(sort),
        sort: copy,
    };
    members::put(set, layered)
}

/// Puts a sort and those that it is made of, as far as they are declared as datatypes.
#[cycle(inside)]
#[tactic(auto, using(crate::proofs::DatatypeLaws::none_in_Bool, crate::proofs::DatatypeLaws::none_in_Long, crate::proofs::DatatypeLaws::none_in_String, crate::proofs::DatatypeLaws::none_in_Decimal, crate::proofs::DatatypeLaws::gains_Ip, crate::proofs::DatatypeLaws::gains_Entity, crate::proofs::DatatypeLaws::gains_Set, crate::proofs::DatatypeLaws::gains_Record, crate::proofs::DatatypeLaws::gains_Option))]
fn put_inside(alloc: Global, set: &mut Seq<Layered>, sort: &Sort) -> Result<(), AllocError>
    requires { AreLayered set.old }
    ensures layered { OnOk result (AreLayered set.new) }
    ensures gains { OnOk result (Gains (sorts_in set.old) (sorts_in set.new) (datatypes_in sort.now)) }
{
    match sort {
        Sort::Bool => Ok(()),
        Sort::Long => Ok(()),
        Sort::String => Ok(()),
        Sort::Decimal => Ok(()),
        Sort::Ip => put_one(alloc, set, sort),
        Sort::Entity(_, _) => put_one(alloc, set, sort),
        Sort::Set(member) => put_inside(alloc, set, member.get()),
        Sort::Record(fields) => {
            put_fields(alloc, set, fields)?;
            put_one(alloc, set, sort)
        }
        Sort::Option(held) => {
            put_inside(alloc, set, held.get())?;
            put_one(alloc, set, sort)
        }
    }
}

#[cycle(inside)]
fn put_fields(
    alloc: Global,
    set: &mut Seq<Layered>,
    fields: &Seq<(Text, Sort)>,
) -> Result<(), AllocError>
    requires { AreLayered set.old }
    ensures layered { OnOk result (AreLayered set.new) }
    ensures gains { OnOk result (Gains (sorts_in set.old) (sorts_in set.new) (flat_map (λ (f : List ℕ
        × AnySort). datatypes_in f.1) fields.now)) }
{
    for field in fields.as_slice() {
        put_inside(alloc, set, &field.1)?;
    }
    Ok(())
}

fn layers(alloc: Global, terms: &Terms, numbers: &[u64]) -> Result<Seq<Layered>, AllocError>
    requires { AllByRecursion (λ n. n < length terms.now) numbers.now }
    ensures layered { IfOk result (λ set. AreLayered set) }
    ensures gains { IfOk result (λ set. Gains [] (sorts_in set) (datatypes_of (map (tree terms.now) numbers.now))) }
{
    let mut set = Seq::new(alloc);
    let mut rest = numbers;
    while let Some((n, later)) = rest.split_first() {
        put_inside(alloc, &mut set, terms.sort(*n))?;
        rest = later;
    }
    Ok(set)
}

fn sorts_of(alloc: Global, layers: Seq<Layered>) -> Result<Seq<Sort>, AllocError>
    ensures { IfOk result (λ sorts. sorts ≡ sorts_in layers) }
{
    let mut sorts = Seq::new(alloc);
    for layered in layers.into_vec() {
        let Layered { depth: _, sort } = layered;
        sorts.push(sort)?;
    }
    Ok(sorts)
}

/// The datatypes that the sorts of these terms tell of, each after those that it is made of.
pub(crate) fn datatypes(
    alloc: Global,
    terms: &Terms,
    numbers: &[u64],
) -> Result<Seq<Sort>, AllocError>
    requires { AllByRecursion (λ n. n < length terms.now) numbers.now }
    ensures { IfOk result (λ sorts. AreJust depth_cmp (Has (datatypes_of (map (tree terms.now) numbers.now))) sorts) }
{
    let layers = layers(alloc, terms, numbers)?;
    sorts_of(alloc, layers)
}
