//! The script of a goal.
ghost use Rattle.std.specs.Prelude.{◌≡◌, ◌<◌, ◌++◌, [], length, map, flat_map, ℕ, List, IfOk, OnOk};
ghost use Rattle.std.specs.List.{AllByRecursion};
ghost use Rattle.sc_lists.specs.Members.{Has};
ghost use Rattle.sc_terms.specs.Order.{tree_cmp};
ghost use Rattle.sc_terms.specs.Tables.{tree};
ghost use Rattle.sc_terms.specs.Trees.{Tree as AnyTree};
ghost use Rattle.sc_smtlib_lines.specs.Ancestries as told;
ghost use Rattle.sc_smtlib_lines.specs.Functions.{function_cmp};
ghost use Rattle.sc_smtlib_lines.specs.Gaining.{AreNames, AreWithin, seen_at, terms_of};
ghost use Rattle.sc_smtlib_lines.specs.Scripts as scripts;
ghost use Rattle.sc_smtlib_lines.specs.Subterms.{AreJust};
ghost use Rattle.sc_smtlib_terms.specs.Forms.{IsSubterm};

use crate::ancestries::{Ancestry, ancestries, put_all_nested as put_nested_functions};
use crate::assertions::{put_all_nested, put_all_own, put_definitions, put_question};
use crate::datatypes::datatypes;
use crate::declarations::{put_choices, put_constants, put_datatypes, put_functions, put_header};
use crate::functions::{Function, put_all_called};
use crate::names::Names;
use crate::order::order;
use indexmap::IndexSet;
use sc_lists::Seq;
use sc_terms::Terms;
use std::alloc::{AllocError, Global};

/// The functions that a goal uses, each once, in order.
fn functions(
    alloc: Global,
    names: &Names<'_>,
    all: &[Ancestry],
) -> Result<Seq<Function>, AllocError>
    requires named { AreNames names.now }
    requires within { AreWithin (length names.now.terms.now) all.now }
    requires are { map (seen_at names.now) all.now ≡ told.ancestries (terms_of names.now) }
    ensures { IfOk result (λ fs. AreJust function_cmp
        (Has (scripts.functions_of names.now.sorts.now (terms_of names.now)))
        fs) }
{
    let mut set = Seq::new(alloc);
    put_all_called(alloc, names, &mut set)?;
    put_nested_functions(alloc, names, all, &mut set)?;
    Ok(set)
}

#[tactic(auto, using(crate::proofs::PutLaws::five_put))]
fn put_declarations(
    out: &mut Vec<u8>,
    alloc: Global,
    names: &Names<'_>,
    functions: &[Function],
) -> Result<(), AllocError>
    requires { AreNames names.now }
    ensures { OnOk result (out.new.items ≡ out.old.items ++ flat_map scripts.with_newline
        (scripts.declarations names.now.sorts.now (terms_of names.now) functions.now)) }
{
    put_header(out, alloc)?;
    put_datatypes(out, alloc, names.sorts)?;
    put_choices(out, alloc, names.sorts)?;
    put_constants(out, alloc, names)?;
    put_functions(out, functions)
}

#[tactic(auto, using(crate::proofs::PutLaws::four_put))]
fn put_assertions(
    out: &mut Vec<u8>,
    alloc: Global,
    names: &Names<'_>,
    order: &[u64],
    all: &[Ancestry],
    goal: u64,
) -> Result<(), AllocError>
    requires named { AreNames names.now }
    requires goal { goal < length names.now.terms.now }
    requires order { AllByRecursion (λ x. x < length (terms_of names.now)) order.now }
    requires within { AreWithin (length names.now.terms.now) all.now }
    requires are { map (seen_at names.now) all.now ≡ told.ancestries (terms_of names.now) }
    ensures { OnOk result (out.new.items ≡ out.old.items ++ flat_map scripts.with_newline
        (scripts.assertions names.now.sorts.now (terms_of names.now) order.now (tree names.now.terms.now goal))) }
{
    put_definitions(out, alloc, names, order, goal)?;
    put_all_own(out, alloc, names, all)?;
    put_all_nested(out, alloc, names, all)?;
    put_question(out, alloc, names, goal)
}

/// The script of a goal, whose subterms are these numbers, in the order of terms.
pub fn script_text(
    alloc: Global,
    terms: &Terms,
    goal: u64,
    numbers: &IndexSet<u64>,
) -> Result<Vec<u8>, AllocError>
    requires goal { goal < length terms.now }
    requires within { AllByRecursion (λ n. n < length terms.now) numbers.now.keys }
    requires subterms { AreJust tree_cmp (IsSubterm (tree terms.now goal)) (map (tree terms.now) numbers.now.keys) }
    ensures { IfOk result (λ v. scripts.IsScript (tree terms.now goal) v.items) }
{
    terms.laws();
    let keys = numbers.as_slice();
    let sorts = datatypes(alloc, terms, keys)?;
    let declared = sorts.as_slice();
    let names = Names {
        terms,
        numbers,
        sorts: declared,
    };
    named_script(alloc, &names, goal)
}

/// The same, where the datatypes are known.
fn named_script(alloc: Global, names: &Names<'_>, goal: u64) -> Result<Vec<u8>, AllocError>
    requires named { AreNames names.now }
    requires goal { goal < length names.now.terms.now }
    requires subterms { AreJust tree_cmp (IsSubterm (tree names.now.terms.now goal)) (terms_of names.now) }
    ensures { IfOk result (λ v. scripts.IsScriptBy (tree names.now.terms.now goal) (terms_of names.now)
        names.now.sorts.now v.items) }
{
    let all = ancestries(alloc, names)?;
    let told = all.as_slice();
    let functions = functions(alloc, names, told)?;
    let declared = functions.as_slice();
    let order = order(alloc, names)?;
    let places = order.as_slice();
    let mut out = Vec::new(alloc);
    put_declarations(&mut out, alloc, names, declared)?;
    put_assertions(&mut out, alloc, names, places, told, goal)?;
    Ok(out)
}

/// A goal has one script.
#[tactic(auto, using(crate::proofs::OneScriptLaws::one_script))]
pub fn script_laws()
    ensures { (goal : AnyTree) (a b : List ℕ) → scripts.IsScript goal a → scripts.IsScript goal b → a ≡ b }
{}
