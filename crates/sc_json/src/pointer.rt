//! The pointer of a member or an item, made from the inside out.
ghost use Rattle.std.specs.Prelude.{◌≡◌, ◌++◌, IfOk, OnOk, string_bytes};
ghost use Rattle.std.specs.Char.{encode_utf8};
ghost use Rattle.sc_json.specs.Pointers.{escaped_key, below};

use sc_lists::Text;
use std::alloc::{AllocError, Global};

/// The pointer that goes to the member of this name first, or to the item of this number, and then
/// on by a path: a `/` and the name, with `~0` for `~` and `~1` for `/` in it, before the path.
pub fn below(alloc: Global, key: &str, path: &Text) -> Result<Text, AllocError>
    ensures { IfOk result (λ pointer. pointer ≡ below key.now path.now) }
{
    let mut pointer = String::from_str(alloc, "/")?;
    put_escaped(&mut pointer, key)?;
    pointer.push_str(path.as_str())?;
    Text::from_string(pointer)
}

/// Puts a name at the end, with `~0` for `~` and `~1` for `/`.
#[tactic(auto, using(crate::proofs::PointersLaws::escaped_key_more))]
fn put_escaped(out: &mut String, key: &str) -> Result<(), AllocError>
    ensures { OnOk result (string_bytes out.new ≡ string_bytes out.old ++ escaped_key key.now) }
{
    for c in key.chars() {
        put_char(out, c)?;
    }
    Ok(())
}

#[tactic(auto, using(crate::proofs::PointersLaws::escaped_key_plain), unfolding(crate::specs::Pointers::escaped))]
fn put_char(out: &mut String, c: char) -> Result<(), AllocError>
    ensures { OnOk result (string_bytes out.new ≡ string_bytes out.old ++ escaped_key (encode_utf8 c)) }
{
    match c {
        '~' => out.push_str("~0"),
        '/' => out.push_str("~1"),
        _ => out.push(c),
    }
}
