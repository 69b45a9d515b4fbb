//! Files of the system, which are read whole and in pieces.
use crate::files::{fails, fails_in_pieces, has_length, has_pieces, reads};
use sc_outside::{FileFault, Files, RealFiles};
use std::alloc::{AllocError, Global};
use std::io::Result as IoResult;
use std::process::Abort;
use std::test::Fail;
use std::{env, fs, process, rt};

/// The path of a file of a process's own in a folder.
fn own_path(alloc: Global, folder: &str, name: &str, process: u32) -> Result<String, AllocError> {
    format!(in alloc; "{folder}/{name}-{process}")
}

/// Asserts that a file of these bytes is read whole, and not within a lesser limit.
fn is_read_within_its_length<F: Files>(
    rt: &impl Abort,
    alloc: Global,
    files: &mut F,
    path: &str,
    bytes: &[u8],
) {
    let limit = bytes.len() as u64;
    assert!(rt; reads(alloc, files, path, limit, bytes), "{limit} bytes");
    assert!(rt;
        has_length(alloc, files, path, bytes.len()),
        "{limit} bytes"
    );
    if limit > 0 {
        assert!(rt;
            fails(alloc, files, path, limit - 1, FileFault::TooLong),
            "{limit} bytes"
        );
        assert!(rt;
            fails(alloc, files, path, 0, FileFault::TooLong),
            "{limit} bytes"
        );
    }
}

/// So many bytes, each told by its place.
fn varied(alloc: Global, len: usize) -> Result<Vec<u8>, AllocError> {
    let mut bytes = Vec::new(alloc);
    for place in 0..len {
        bytes.push((place % 251) as u8)?;
    }
    Ok(bytes)
}

/// Asserts that a file of the system that has so many bytes is read as it is written.
fn is_read_as_written<R: rt::Files + Abort, F: Files>(
    rt: &R,
    alloc: Global,
    files: &mut F,
    path: &str,
    len: usize,
) -> IoResult<()> {
    let bytes = varied(alloc, len)?;
    fs::write(rt, path, bytes.as_slice())?;
    is_read_within_its_length(rt, alloc, files, path, bytes.as_slice());
    Ok(())
}

/// Lengths of files, some of them about that of the pieces in which a file is taken.
const LENGTHS: &[usize] = &[0, 3, 4097, 65535, 65536, 65537, 140000];

#[test]
fn reads_files_of_the_system(rt: HostRuntime) -> Result<(), Fail> {
    let alloc = rt.alloc();
    let folder = env::temp_dir(&rt)?;
    let path = own_path(
        alloc,
        folder.as_str(),
        "sc_outside",
        process::id(rt.process()),
    )?;
    let path = path.as_str();
    let mut files = RealFiles::new(&rt);
    for &len in LENGTHS {
        is_read_as_written(&rt, alloc, &mut files, path, len)?;
    }
    fs::remove_file(&rt, path)?;
    assert!(rt;
        fails(alloc, &mut files, path, 9, FileFault::Failed),
        "no such file"
    );
    assert!(rt;
        fails(alloc, &mut files, "/", 9, FileFault::Failed),
        "a directory"
    );
    Ok(())
}

#[test]
fn reads_pieces_of_a_file_of_the_system(rt: HostRuntime) -> Result<(), Fail> {
    let alloc = rt.alloc();
    let folder = env::temp_dir(&rt)?;
    let process = process::id(rt.process());
    let path = own_path(alloc, folder.as_str(), "sc_outside-pieces", process)?;
    let path = path.as_str();
    fs::write(&rt, path, b"abcde")?;
    let mut files = RealFiles::new(&rt);
    assert!(rt; has_pieces(alloc, &mut files, path, 2, b"ab|cd|e|"));
    assert!(rt; has_pieces(alloc, &mut files, path, u64::MAX, b"abcde|"));
    fs::remove_file(&rt, path)?;
    assert!(rt; fails_in_pieces(alloc, &mut files, path, 2), "no such file");
    assert!(rt; fails_in_pieces(alloc, &mut files, "/", 2), "a directory");
    Ok(())
}
