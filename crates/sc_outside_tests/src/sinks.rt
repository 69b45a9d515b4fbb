//! Sinks in memory, sinks that never fail, and the standard output.
use sc_outside::{MemSink, NeverFails, RealSink, Sink, SinkFault};
use std::fmt::Display;
use std::io;
use std::io::{ErrorKind, Result as IoResult};
use std::test::Fail;

/// Whether a sink takes a piece.
fn takes<S: Sink>(sink: &mut S, piece: &[u8]) -> bool {
    sink.write(piece).is_ok()
}

/// Whether a sink fails at a piece.
fn fails_at<S: Sink>(sink: &mut S, piece: &[u8]) -> bool {
    match sink.write(piece) {
        Ok(()) => false,
        Err(fault) => fault == SinkFault::Failed,
    }
}

fn has_text(sink: &MemSink, text: &[u8]) -> bool {
    sink.text() == text
}

/// Whether these are the lengths of the pieces that were written.
fn has_lengths(sink: &MemSink, lengths: &[usize]) -> bool {
    sink.lengths() == lengths
}

#[test]
fn writes_to_a_sink_in_memory(rt: HostRuntime) -> Result<(), Fail> {
    let alloc = rt.alloc();
    let mut sink = MemSink::new(alloc, vec![in alloc; (1, 2), (3, 9)]?);
    assert!(rt; sink.text().is_empty());
    assert!(rt; takes(&mut sink, b"one\n"));
    assert!(rt; fails_at(&mut sink, b"two\n"));
    assert!(rt; has_text(&sink, b"one\ntw"), "two bytes are kept");
    assert!(rt; takes(&mut sink, b"!\n"));
    assert!(rt; fails_at(&mut sink, b"end"));
    assert!(rt;
        has_text(&sink, b"one\ntw!\nend"),
        "more than the piece has"
    );
    assert!(rt; has_lengths(&sink, &[4, 2, 2, 3]));
    Ok(())
}

#[test]
fn never_fails(rt: HostRuntime) {
    let mut sink = NeverFails::new(Vec::new(rt.alloc()));
    assert!(rt; takes(&mut sink, b"ab"));
    assert!(rt; takes(&mut sink, b"c"));
    assert!(rt; sink.get().as_slice() == b"abc".as_slice());
}

/// An output that is closed.
struct Closed;

impl Print for Closed {
    fn print<D: Display + Drop>(&self, _value: D) -> IoResult<()> {
        Err(io::Error::from(ErrorKind::BrokenPipe))
    }

    fn println<D: Display + Drop>(&self, _value: D) -> IoResult<()> {
        Err(io::Error::from(ErrorKind::BrokenPipe))
    }

    fn write_all(&self, _bytes: &[u8]) -> IoResult<()> {
        Err(io::Error::from(ErrorKind::BrokenPipe))
    }
}

#[test]
fn writes_to_the_standard_output(rt: HostRuntime) {
    assert!(rt; takes(&mut RealSink::new(&rt), b"a line\n"));
    assert!(rt; fails_at(&mut RealSink::new(&Closed), b"a line\n"));
}
