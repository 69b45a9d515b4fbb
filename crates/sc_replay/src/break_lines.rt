//! The line of a world: whether it is well-formed, or what keeps it from being so.
ghost use Rattle.std.specs.Prelude.{◌≡◌, ◌++◌, string_bytes, IfOk, OnOk};
ghost use Rattle.sc_names.specs.Escapes.{uid_text};
ghost use Rattle.sc_replay.specs.Reports.{break_text, world_line};

use crate::breaks::Break;
use sc_lists::Text;
use sc_names::{Uid, put_uid};
use std::alloc::{AllocError, Global};

/// Puts a word and a uid at the end of a line.
fn put_named(line: &mut String, word: &str, uid: &Uid) -> Result<(), AllocError>
    ensures { OnOk result (string_bytes line.new ≡ string_bytes line.old ++ (word.now ++ uid_text uid.now)) }
{
    line.push_str(word)?;
    put_uid(line, uid)
}

/// Puts what keeps a world from being well-formed at the end of a line.
fn put_break(line: &mut String, found: &Break) -> Result<(), AllocError>
    ensures { OnOk result (string_bytes line.new ≡ string_bytes line.old ++ break_text found.now) }
{
    match found {
        Break::Request => line.push_str("request"),
        Break::Entity(uid) => put_named(line, "entity ", uid),
        Break::Missing(uid) => put_named(line, "missing ", uid),
    }
}

/// The line of a world, with its newline.
#[tactic(auto, unfolding(crate::specs::Reports::world_line))]
pub(crate) fn world_line(alloc: Global, found: &Option<Break>) -> Result<Text, AllocError>
    ensures { IfOk result (λ line. line ≡ world_line found.now) }
{
    let Some(found) = found else {
        return Text::from_str(alloc, "world well-formed\n");
    };
    let mut line = String::from_str(alloc, "world not well-formed: ")?;
    put_break(&mut line, found)?;
    line.push_str("\n")?;
    Text::from_string(line)
}
