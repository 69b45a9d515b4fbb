//! Numbers in decimal.
ghost use Rattle.std.specs.Prelude.{◌≡◌, ◌++◌, decimal, IfOk, OnOk};

use itoa::Buffer;
use sc_smtlib_forms::put_bytes;
use std::alloc::{AllocError, Global};

/// A number in decimal digits.
pub fn numeral(alloc: Global, number: u64) -> Result<Vec<u8>, AllocError>
    ensures { IfOk result (λ v. v.items ≡ decimal number) }
{
    let mut buffer = Buffer::new();
    let mut out = Vec::new(alloc);
    put_bytes(&mut out, buffer.format(number).as_bytes())?;
    Ok(out)
}

/// A number of 128 bits in decimal digits.
pub(crate) fn wide_numeral(alloc: Global, number: u128) -> Result<Vec<u8>, AllocError>
    ensures { IfOk result (λ v. v.items ≡ decimal number) }
{
    let mut buffer = Buffer::new();
    let mut out = Vec::new(alloc);
    put_bytes(&mut out, buffer.format(number).as_bytes())?;
    Ok(out)
}
