//! Files in memory, and files that never fail, which are read whole and in pieces.
ghost use Rattle.std.specs.Prelude.{◌≤◌};

use sc_outside::{FileFault, Files, MemFiles, NeverFails};
use std::alloc::{AllocError, Global};
use std::collections::BTreeMap;
use std::test::Fail;

fn map_of(alloc: Global, name: &str, text: &str) -> Result<BTreeMap<String, Vec<u8>>, AllocError> {
    let mut files = BTreeMap::new(alloc);
    files.insert(
        String::from_str(alloc, name)?,
        Vec::from_slice(alloc, text.as_bytes())?,
    )?;
    Ok(files)
}

/// One file in memory, of which the calls of these numbers fail.
fn file_in_memory(
    alloc: Global,
    name: &str,
    text: &str,
    failing: &[u64],
) -> Result<MemFiles, AllocError> {
    let failing = Vec::from_slice(alloc, failing)?;
    Ok(MemFiles::new(map_of(alloc, name, text)?, failing))
}

// ---- files that are read whole

/// Whether a file is read within a limit, and these are its bytes.
pub(crate) fn reads<F: Files>(
    alloc: Global,
    files: &mut F,
    name: &str,
    limit: u64,
    bytes: &[u8],
) -> bool {
    match files.read(alloc, name, limit) {
        Ok(read) => read.as_slice() == bytes,
        Err(_) => false,
    }
}

/// Whether a file of any length is read, and has so many bytes.
pub(crate) fn has_length<F: Files>(alloc: Global, files: &mut F, name: &str, len: usize) -> bool {
    match files.read(alloc, name, u64::MAX) {
        Ok(read) => read.len() == len,
        Err(_) => false,
    }
}

/// Whether a file isn't read within a limit, for this fault.
pub(crate) fn fails<F: Files>(
    alloc: Global,
    files: &mut F,
    name: &str,
    limit: u64,
    fault: FileFault,
) -> bool {
    match files.read(alloc, name, limit) {
        Ok(_) => false,
        Err(told) => told == fault,
    }
}

#[test]
fn reads_files_in_memory(rt: HostRuntime) -> Result<(), Fail> {
    let alloc = rt.alloc();
    let mut files = file_in_memory(alloc, "schema", "{\"\":{}}", &[2])?;
    assert!(rt; reads(alloc, &mut files, "schema", 7, b"{\"\":{}}"));
    assert!(rt; fails(alloc, &mut files, "schema", 6, FileFault::TooLong));
    assert!(rt;
        fails(alloc, &mut files, "schema", 7, FileFault::Failed),
        "the call number 2"
    );
    assert!(rt;
        fails(alloc, &mut files, "policies", 7, FileFault::Failed),
        "no such file"
    );
    assert!(rt; has_length(alloc, &mut files, "schema", 7));
    Ok(())
}

#[test]
fn files_never_fail(rt: HostRuntime) -> Result<(), Fail> {
    let alloc = rt.alloc();
    let mut files = NeverFails::new(map_of(alloc, "policies", "permit")?);
    assert!(rt; reads(alloc, &mut files, "policies", 6, b"permit"));
    assert!(rt; fails(alloc, &mut files, "policies", 5, FileFault::TooLong));
    assert!(rt; reads(alloc, &mut files, "schema", 0, b""), "no such file");
    assert!(rt; files.get().len() == 1);
    Ok(())
}

// ---- files that are read in pieces

/// The pieces of a file that is started, each with a bar behind it.
#[tactic(auto, using(sc_outside::proofs::PieceLaws::is_started, sc_outside::proofs::PieceLaws::stays_started))]
fn in_pieces<F: Files>(
    alloc: Global,
    files: &mut F,
    name: &str,
    max: u64,
) -> Result<Vec<u8>, FileFault>
    requires { 1 ≤ max }
{
    let mut text = Vec::new(alloc);
    files.start(alloc, name)?;
    for _ in 0..99 {
        let piece = files.more(alloc, max)?;
        if piece.is_empty() {
            return Ok(text);
        }
        text.extend_from_slice(&piece)?;
        text.extend_from_slice(b"|")?;
    }
    Ok(text)
}

/// The first piece of a file.
#[tactic(auto, using(sc_outside::proofs::PieceLaws::is_started))]
fn first_piece<F: Files>(
    alloc: Global,
    files: &mut F,
    name: &str,
    max: u64,
) -> Result<Vec<u8>, FileFault>
    requires { 1 ≤ max }
{
    files.start(alloc, name)?;
    files.more(alloc, max)
}

/// Whether these are the pieces of a file.
pub(crate) fn has_pieces<F: Files>(
    alloc: Global,
    files: &mut F,
    name: &str,
    max: u64,
    text: &[u8],
) -> bool
    requires { 1 ≤ max }
{
    match in_pieces(alloc, files, name, max) {
        Ok(pieces) => pieces.as_slice() == text,
        Err(_) => false,
    }
}

/// Whether a file isn't read in pieces, since the source failed.
pub(crate) fn fails_in_pieces<F: Files>(alloc: Global, files: &mut F, name: &str, max: u64) -> bool
    requires { 1 ≤ max }
{
    match in_pieces(alloc, files, name, max) {
        Ok(_) => false,
        Err(told) => told == FileFault::Failed,
    }
}

#[test]
fn reads_pieces_of_files_in_memory(rt: HostRuntime) -> Result<(), Fail> {
    let alloc = rt.alloc();
    let mut files = file_in_memory(alloc, "log", "abcde", &[2, 5])?;
    assert!(rt;
        fails_in_pieces(alloc, &mut files, "log", 9),
        "the call number 2 is the end"
    );
    assert!(rt;
        fails_in_pieces(alloc, &mut files, "none", 9),
        "no such file"
    );
    assert!(rt;
        fails_in_pieces(alloc, &mut files, "log", 9),
        "the call number 5 is the first piece"
    );
    assert!(rt; has_pieces(alloc, &mut files, "log", 1, b"a|b|c|d|e|"));
    assert!(rt; has_pieces(alloc, &mut files, "log", 2, b"ab|cd|e|"));
    assert!(rt; has_pieces(alloc, &mut files, "log", u64::MAX, b"abcde|"));
    Ok(())
}

/// Whether this is the first piece of a file.
fn has_first<F: Files>(alloc: Global, files: &mut F, name: &str, max: u64, text: &[u8]) -> bool
    requires { 1 ≤ max }
{
    match first_piece(alloc, files, name, max) {
        Ok(piece) => piece.as_slice() == text,
        Err(_) => false,
    }
}

#[test]
fn a_file_that_is_started_again_is_whole_again(rt: HostRuntime) -> Result<(), Fail> {
    let alloc = rt.alloc();
    let mut files = NeverFails::new(map_of(alloc, "log", "abcde")?);
    assert!(rt; has_first(alloc, &mut files, "log", 3, b"abc"));
    assert!(rt; has_pieces(alloc, &mut files, "log", 2, b"ab|cd|e|"));
    assert!(rt;
        has_pieces(alloc, &mut files, "none", 2, b""),
        "no such file"
    );
    Ok(())
}
