//! Sets as a script writes them.
ghost use Rattle.std.specs.Prelude.{◌≡◌, ◌++◌, flat_map, IfOk, OnOk};
ghost use Rattle.sc_smtlib_forms.specs.Forms as forms;
ghost use Rattle.sc_smtlib_forms.specs.declared.form.Form.TheVariants as form;
ghost use Rattle.sc_smtlib_terms.specs.Sets as sets;

use sc_lists::Seq;
use sc_smtlib_forms::{Form, put_filled, with_one};
use std::alloc::{AllocError, Global};

fn put_begun(out: &mut Vec<u8>, members: &[Seq<u8>]) -> Result<(), AllocError>
    ensures { OnOk result (out.new.items ≡ out.old.items ++ flat_map sets.begun members.now) }
{
    for a in members {
        put_filled(out, Form::UnionWith, a.as_slice(), b"", b"")?;
    }
    Ok(())
}

fn put_ended(out: &mut Vec<u8>, members: &[Seq<u8>]) -> Result<(), AllocError>
    ensures { OnOk result (out.new.items ≡ out.old.items ++ flat_map sets.ended members.now) }
{
    for a in members {
        let _ = a;
        put_filled(out, Form::UnionEnd, b"", b"", b"")?;
    }
    Ok(())
}

/// The set of these members, each before the last put around what follows it.
fn union_text(alloc: Global, last: &Seq<u8>, others: &[Seq<u8>]) -> Result<Vec<u8>, AllocError>
    ensures { IfOk result (λ v. v.items ≡ sets.around others.now last.now) }
{
    let mut out = Vec::new(alloc);
    put_begun(&mut out, others)?;
    put_filled(&mut out, Form::Singleton, last.as_slice(), b"", b"")?;
    put_ended(&mut out, others)?;
    Ok(out)
}

/// The set of a sort, of the texts of its members. Its length is that of these texts and a little for
/// each.
#[tactic(auto, using(crate::proofs::SetLaws::union_of))]
pub fn set_text(alloc: Global, sort: &[u8], members: &[Seq<u8>]) -> Result<Vec<u8>, AllocError>
    ensures { IfOk result (λ v. v.items ≡ sets.set_text sort.now members.now) }
{
    match members.split_last() {
        None => with_one(alloc, Form::EmptySet, sort),
        Some((last, others)) => union_text(alloc, last, others),
    }
}
