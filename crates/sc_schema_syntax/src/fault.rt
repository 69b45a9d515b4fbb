//! Why a schema file isn't read.
use sc_lists::Text;
use sc_names::{Name, Uid};
use thiserror::Error;

/// The first fault of a schema file. A text is the path of a value in the file, a JSON pointer
/// (RFC 6901): for each member or item on the way a `/` and the member's name, with `~0` for `~` and
/// `~1` for `/` in it, or the item's number, counted from 0.
#[derive(Debug, Drop, Error)]
pub enum SchemaFault {
    /// The bytes aren't JSON (RFC 8259), or nest deeper than 127 levels.
    #[error("not JSON")]
    NotJson,
    /// The value there isn't of the form that is wanted, lacks a member, or isn't wanted at all.
    #[error("bad shape at {}", .0.as_str())]
    BadShape(Text),
    /// The name of the member there can't be declared.
    #[error("bad name at {}", .0.as_str())]
    BadName(Text),
    /// The text there names no type that is declared.
    #[error("unknown type at {}", .0.as_str())]
    UnknownType(Text),
    /// What stands there names no action that is declared.
    #[error("unknown action at {}", .0.as_str())]
    UnknownAction(Text),
    /// This common type reaches itself.
    #[error("type {} reaches itself", .0.as_str())]
    TypeCycle(Name),
    /// This action is in itself.
    #[error("action \"{}\" of {} is in itself", .0.id.as_str(), .0.type_name.as_str())]
    ActionCycle(Uid),
    /// The type there is no record type.
    #[error("no record type at {}", .0.as_str())]
    NotRecord(Text),
    /// The type there is too large, each common type in it written out.
    #[error("type too large at {}", .0.as_str())]
    TypeTooLarge(Text),
    /// There are too many environments of requests.
    #[error("too many environments")]
    TooManyEnvironments,
}
