//! Lines at the end of a text.
ghost use Rattle.std.specs.Prelude.{◌≡◌, ◌++◌, OnOk};
ghost use Rattle.sc_smtlib_forms.specs.Forms as forms;
ghost use Rattle.sc_smtlib_lines.specs.Scripts.{with_newline};

use sc_smtlib_forms::{Form, plain, put_bytes};
use std::alloc::{AllocError, Global};

/// Puts a line and its newline at the end.
pub(crate) fn put_line(out: &mut Vec<u8>, line: &[u8]) -> Result<(), AllocError>
    ensures { OnOk result (out.new.items ≡ out.old.items ++ with_newline line.now) }
{
    put_bytes(out, line)?;
    put_bytes(out, b"\n")
}

/// Puts the line of a form.
pub(crate) fn put_plain(out: &mut Vec<u8>, alloc: Global, form: Form) -> Result<(), AllocError>
    ensures { OnOk result (out.new.items ≡ out.old.items ++ with_newline (forms.plain form)) }
{
    let line = plain(alloc, form)?;
    put_line(out, line.as_slice())
}
