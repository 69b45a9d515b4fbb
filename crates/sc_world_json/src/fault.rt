//! Why a world isn't read.
use sc_lists::Text;
use thiserror::Error;

/// The first fault of a world's text.
#[derive(Debug, Drop, Error)]
pub enum WorldFault {
    /// The bytes aren't JSON (RFC 8259), or nest deeper than 127 levels.
    #[error("not JSON")]
    NotJson,
    /// The value there isn't of the form that is wanted, or it is an object that lacks a member or
    /// has a further one. The text is its path, a JSON pointer (RFC 6901): for each member or item
    /// on the way a `/` and the member's name, with `~0` for `~` and `~1` for `/` in it, or the
    /// item's number, counted from 0.
    #[error("bad world at {}", .0.as_str())]
    BadWorld(Text),
}
