//! A file in memory that is read in pieces.
ghost use Rattle.std.specs.Prelude.{◌≡◌, ◌≤◌, Some, IfOk, OnErr, drop, string_bytes};
ghost use Rattle.sc_outside.specs.Pieces.{IsPiece};

use std::alloc::{AllocError, Global};

/// A file that was started, and how many of its bytes were taken.
#[derive(Drop)]
pub(crate) struct Started {
    name: String,
    taken: usize,
}

impl Started {
    /// The file of this name, of which nothing was taken.
    pub(crate) fn new(name: String) -> Started
        ensures name { result.name ≡ name }
        ensures taken { result.taken ≡ 0 }
    {
        Started { name, taken: 0 }
    }

    /// The name.
    pub(crate) fn name(&self) -> &str
        ensures { result.now ≡ string_bytes self.now.name }
    {
        &self.name
    }

    /// Takes at most `max` more of the bytes that the file has.
    pub(crate) fn take(
        &mut self,
        alloc: Global,
        bytes: &[u8],
        max: u64,
    ) -> Result<Vec<u8>, AllocError>
        requires { 1 ≤ max }
        ensures piece { IfOk result (λ piece. IsPiece (Some (Some (drop self.old.taken bytes.now)))
            (Some (Some (drop self.new.taken bytes.now))) max piece.items) }
        ensures kept { OnErr result (self.new.taken ≡ self.old.taken) }
        ensures name { self.new.name ≡ self.old.name }
    {
        let from = self.taken.min(bytes.len());
        let left = &bytes[from..];
        let count = left.len().min(max as usize);
        let piece = Vec::from_slice(alloc, &left[..count])?;
        self.taken = from + count;
        Ok(piece)
    }
}
