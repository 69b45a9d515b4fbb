//! Readers of which some reads fail or are interrupted.
use sc_outside::{FileFault, bytes_of, piece_of};
use std::alloc::Global;
use std::io;
use std::io::{ErrorKind, Read, Result as IoResult};

/// A reader that gives at most three bytes at a time. A read for whose number, counted from 0, an error
/// is told fails with it.
#[derive(Drop)]
struct Fake<'t> {
    left: &'t [u8],
    errors: &'t [Option<ErrorKind>],
    reads: usize,
}

impl<'t> Fake<'t> {
    fn new(text: &'t [u8], errors: &'t [Option<ErrorKind>]) -> Fake<'t> {
        Fake {
            left: text,
            errors,
            reads: 0,
        }
    }

    /// The error of the next read, where it has one.
    fn error(&mut self) -> Option<ErrorKind> {
        let number = self.reads;
        self.reads = number.saturating_add(1);
        *self.errors.get(number)?
    }
}

impl Read for Fake<'_> {
    fn read(&mut self, buf: &mut [u8]) -> IoResult<usize> {
        if let Some(kind) = self.error() {
            return Err(io::Error::from(kind));
        }
        let count = self.left.len().min(buf.len()).min(3);
        buf[..count].copy_from_slice(&self.left[..count]);
        self.left = &self.left[count..];
        Ok(count)
    }
}

/// A read that gives bytes.
const READ: Option<ErrorKind> = None;

const INTERRUPTED: Option<ErrorKind> = Some(ErrorKind::Interrupted);

const FAILED: Option<ErrorKind> = Some(ErrorKind::PermissionDenied);

const OUT_OF_MEMORY: Option<ErrorKind> = Some(ErrorKind::OutOfMemory);

/// Whether a reader is read whole within a limit, and these are its bytes.
fn is_whole(alloc: Global, mut reader: Fake<'_>, limit: u64, bytes: &[u8]) -> bool {
    match bytes_of(&mut reader, alloc, limit) {
        Ok(read) => read.as_slice() == bytes,
        Err(_) => false,
    }
}

/// Whether a reader isn't read whole within a limit, for this fault.
fn is_refused(alloc: Global, mut reader: Fake<'_>, limit: u64, fault: FileFault) -> bool {
    match bytes_of(&mut reader, alloc, limit) {
        Ok(_) => false,
        Err(told) => told == fault,
    }
}

/// Whether this is the next piece of a reader, of at most so many bytes.
fn gives(alloc: Global, reader: &mut Fake<'_>, max: u64, bytes: &[u8]) -> bool {
    match piece_of(reader, alloc, max) {
        Ok(piece) => piece.as_slice() == bytes,
        Err(_) => false,
    }
}

/// Whether a reader has no next piece, for this fault.
fn refuses(alloc: Global, reader: &mut Fake<'_>, fault: FileFault) -> bool {
    match piece_of(reader, alloc, 9) {
        Ok(_) => false,
        Err(told) => told == fault,
    }
}

#[test]
fn reads_all_bytes(rt: HostRuntime) {
    let alloc = rt.alloc();
    let text = b"abcdefgh";
    assert!(rt; is_whole(alloc, Fake::new(text, &[]), 8, text));
    assert!(rt; is_whole(alloc, Fake::new(text, &[]), 9, text));
    assert!(rt; is_whole(alloc, Fake::new(b"", &[]), 0, b""));
    assert!(rt; is_refused(alloc, Fake::new(text, &[]), 7, FileFault::TooLong));
    assert!(rt; is_refused(alloc, Fake::new(text, &[]), 0, FileFault::TooLong));
}

#[test]
fn an_interrupted_read_is_tried_again(rt: HostRuntime) {
    let alloc = rt.alloc();
    let errors = &[INTERRUPTED, READ, INTERRUPTED, INTERRUPTED];
    assert!(rt; is_whole(alloc, Fake::new(b"abcdefgh", errors), 8, b"abcdefgh"));
    let mut reader = Fake::new(b"abcde", errors);
    assert!(rt; gives(alloc, &mut reader, 2, b"ab"));
    assert!(rt; gives(alloc, &mut reader, 9, b"cde"));
    assert!(rt; gives(alloc, &mut reader, 9, b""));
}

#[test]
fn a_failed_read_is_no_end(rt: HostRuntime) {
    let alloc = rt.alloc();
    let failed = &[READ, FAILED];
    assert!(rt; is_refused(alloc, Fake::new(b"abcdef", failed), 9, FileFault::Failed));
    assert!(rt; is_refused(alloc, Fake::new(b"abc", failed), 9, FileFault::Failed));
    let starved = &[READ, OUT_OF_MEMORY];
    assert!(rt; is_refused(alloc, Fake::new(b"abcdef", starved), 9, FileFault::NoMemory));
    let mut reader = Fake::new(b"abcdef", failed);
    assert!(rt; gives(alloc, &mut reader, 9, b"abc"));
    assert!(rt; refuses(alloc, &mut reader, FileFault::Failed));
    assert!(rt; gives(alloc, &mut reader, 9, b"def"), "no byte is lost");
}
