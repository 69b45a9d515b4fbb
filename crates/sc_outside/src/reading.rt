//! Reads the bytes that are left of an open file: all of them, or the next ones.
ghost use Rattle.std.specs.Prelude.{◌≡◌, ◌≢◌, ◌≤◌, ◌+◌, ◌↔◌, length, max, vec_capacity, IfErr, IfOk, IfSome, IsTrue, OnErr};
ghost use Rattle.std.specs.Io.{ReadsAtMost};
ghost use Rattle.std.specs.Io.KnownBytes.{Keeps, ReadConsumes};
ghost use Rattle.std.specs.IoError.{error_kind};
ghost use Rattle.sc_outside.specs.Pieces.{IsNextPiece};
ghost use Rattle.sc_outside.specs.Reads.{Reads};

use crate::faults::FileFault;
use std::alloc::{AllocError, Global};
use std::io;
use std::io::{ErrorKind, Read};

/// How many bytes a piece of a file may have, at most.
const LONGEST: u64 = 65536;

/// All bytes that are left of an open file. Where there are more than `limit`, one more than these is
/// taken, which tells that they are too many.
pub fn bytes_of<F: Read>(file: &mut F, alloc: Global, limit: u64) -> Result<Vec<u8>, FileFault>
    ensures told { IfSome (F.remaining file.old) (λ bytes. Reads bytes limit result) }
    ensures within { IfOk result (λ bytes. length bytes.items ≤ limit) }
{
    let mut bytes = Vec::new(alloc);
    for _ in 0..u64::MAX {
        let room = limit - bytes.len() as u64;
        let piece = match piece_of(file, alloc, room.saturating_add(1)) {
            Ok(piece) => piece,
            Err(fault) => return Err(fault),
        };
        if piece.is_empty() {
            return Ok(bytes);
        }
        if piece.len() as u64 > room {
            return Err(FileFault::TooLong);
        }
        make_room(&mut bytes, piece.len(), room as usize)?;
        bytes.extend_from_slice(&piece)?;
    }
    Err(FileFault::Failed)
}

/// The next bytes of an open file, as many as one read gives and at most `max` of them. Room for the
/// bytes is made before.
pub fn piece_of<F: Read>(file: &mut F, alloc: Global, max: u64) -> Result<Vec<u8>, FileFault>
    ensures piece { IfOk result (λ piece. IsNextPiece (F.remaining file.old) (F.remaining file.new) max piece.items) }
    ensures kept { OnErr result (Keeps (F.remaining file.old) (F.remaining file.new)) }
    ensures never_long { result ≢ Err FileFault.TooLong }
{
    let most = max.min(LONGEST) as usize;
    let mut piece = vec![in alloc; 0u8; most]?;
    match read_into(file, &mut piece) {
        Ok(count) => {
            piece.truncate(count);
            Ok(piece)
        }
        Err(error) => Err(fault_of(&error)),
    }
}

/// One read. Where it is interrupted it is tried again.
fn read_into<F: Read>(file: &mut F, buf: &mut [u8]) -> io::Result<usize>
    ensures bound { ReadsAtMost result buf.new }
    ensures bytes { ReadConsumes (F.remaining file.old) (F.remaining file.new) result buf.new }
    ensures retried { IfErr result (λ error. error_kind error ≢ ErrorKind.Interrupted) }
{
    for _ in 0..u64::MAX {
        match file.read(buf) {
            Ok(count) => return Ok(count),
            Err(error) => {
                if !is_interrupted(&error) {
                    return Err(error);
                }
            }
        }
    }
    Err(io::Error::from(ErrorKind::Other))
}

/// Whether an error says that a call was interrupted.
fn is_interrupted(error: &io::Error) -> bool
    ensures { IsTrue result ↔ (error_kind error.now ≡ ErrorKind.Interrupted) }
{
    error.kind() == ErrorKind::Interrupted
}

/// Makes room for `count` more bytes, and for at most `room`: the room grows as the bytes do.
fn make_room(bytes: &mut Vec<u8>, count: usize, room: usize) -> Result<(), AllocError>
    ensures items { bytes.new.items ≡ bytes.old.items }
    ensures capacity { vec_capacity bytes.new ≤ max (vec_capacity bytes.old) (length bytes.old.items + room) }
{
    if bytes.capacity() - bytes.len() >= count {
        return Ok(());
    }
    let more = count.max(bytes.len()).min(room);
    bytes.reserve_exact(more)
}

/// The fault that an error of the system is. Its want of memory isn't a failure.
pub(crate) fn fault_of(error: &io::Error) -> FileFault
    ensures memory { (result ≡ FileFault.NoMemory) ↔ (error_kind error.now ≡ ErrorKind.OutOfMemory) }
    ensures never_long { result ≢ FileFault.TooLong }
{
    match error.kind() {
        ErrorKind::OutOfMemory => FileFault::NoMemory,
        _ => FileFault::Failed,
    }
}
