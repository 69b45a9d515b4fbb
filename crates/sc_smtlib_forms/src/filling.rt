//! Forms that are filled.
ghost use Rattle.std.specs.Prelude.{◌≡◌, ◌++◌, ◌∷◌, [], IfOk, OnOk};
ghost use Rattle.sc_smtlib_forms.specs.Forms as forms;

use crate::form::Form;
use crate::template::template;
use std::alloc::{AllocError, Global};

/// Puts bytes at the end.
pub fn put_bytes(out: &mut Vec<u8>, bytes: &[u8]) -> Result<(), AllocError>
    ensures { OnOk result (out.new.items ≡ out.old.items ++ bytes.now) }
{
    out.extend_from_slice(bytes)?;
    Ok(())
}

fn put_byte(out: &mut Vec<u8>, b: u8) -> Result<(), AllocError>
    ensures { OnOk result (out.new.items ≡ out.old.items ++ b ∷ []) }
{
    out.push(b)?;
    Ok(())
}

/// Puts what stands for a byte of a form.
fn put_for(out: &mut Vec<u8>, w: &[u8], x: &[u8], y: &[u8], b: u8) -> Result<(), AllocError>
    ensures { OnOk result (out.new.items ≡ out.old.items ++ forms.put_for w.now x.now y.now b) }
{
    if b == b'W' {
        put_bytes(out, w)
    } else if b == b'X' {
        put_bytes(out, x)
    } else if b == b'Y' {
        put_bytes(out, y)
    } else {
        put_byte(out, b)
    }
}

/// Puts a form at the end, with these texts for `W`, `X` and `Y`.
#[tactic(auto, unfolding(crate::specs::Forms::filled))]
pub fn put_filled(
    out: &mut Vec<u8>,
    form: Form,
    w: &[u8],
    x: &[u8],
    y: &[u8],
) -> Result<(), AllocError>
    ensures { OnOk result (out.new.items ≡ out.old.items ++ forms.filled form w.now x.now y.now) }
{
    for b in template(form).as_bytes() {
        put_for(out, w, x, y, *b)?;
    }
    Ok(())
}

/// A form, with these texts for `W`, `X` and `Y`.
pub fn with_three(
    alloc: Global,
    form: Form,
    w: &[u8],
    x: &[u8],
    y: &[u8],
) -> Result<Vec<u8>, AllocError>
    ensures { IfOk result (λ v. v.items ≡ forms.with_three form w.now x.now y.now) }
{
    let mut out = Vec::new(alloc);
    put_filled(&mut out, form, w, x, y)?;
    Ok(out)
}

/// A form, with these texts for `W` and `X`.
pub fn with_two(alloc: Global, form: Form, w: &[u8], x: &[u8]) -> Result<Vec<u8>, AllocError>
    ensures { IfOk result (λ v. v.items ≡ forms.with_two form w.now x.now) }
{
    with_three(alloc, form, w, x, b"")
}

/// A form, with this text for `W`.
pub fn with_one(alloc: Global, form: Form, w: &[u8]) -> Result<Vec<u8>, AllocError>
    ensures { IfOk result (λ v. v.items ≡ forms.with_one form w.now) }
{
    with_three(alloc, form, w, b"", b"")
}

/// A form in which nothing is put.
pub fn plain(alloc: Global, form: Form) -> Result<Vec<u8>, AllocError>
    ensures { IfOk result (λ v. v.items ≡ forms.plain form) }
{
    with_three(alloc, form, b"", b"", b"")
}
