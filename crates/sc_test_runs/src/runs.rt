//! Runs over files and a sink in memory.
use sc_outside::{MemFiles, MemSink};
use sc_run::{Status, exit_code, run};
use std::alloc::{AllocError, Global};
use std::collections::BTreeMap;
use std::process::ExitCode;
use std::str;

/// Which call of a run fails, the calls being counted from 0.
#[derive(Clone, Copy)]
pub enum Failing {
    /// None does.
    Nothing,
    /// The call for a file of this number.
    File(u64),
    /// The call for a piece of text of this number, which keeps at most so many bytes.
    Piece(u64, usize),
}

/// How a run ends.
#[derive(Drop)]
pub struct Ended {
    /// Its status.
    pub code: u8,
    /// What it writes.
    pub text: Vec<u8>,
    /// How many logs it keeps.
    pub logs: usize,
    /// How many steps the first of these has.
    pub steps: usize,
}

/// The words of a line, between its spaces.
fn words_of(alloc: Global, line: &str) -> Result<Vec<String>, AllocError> {
    let mut words = Vec::new(alloc);
    for word in line.split(' ') {
        words.push(String::from_str(alloc, word)?)?;
    }
    Ok(words)
}

fn put_file(
    alloc: Global,
    files: &mut BTreeMap<String, Vec<u8>>,
    name: &str,
    bytes: &[u8],
) -> Result<(), AllocError> {
    let name = String::from_str(alloc, name)?;
    files.insert(name, Vec::from_slice(alloc, bytes)?)?;
    Ok(())
}

/// Files of these names and bytes.
fn files_of(
    alloc: Global,
    held: &[(&str, &[u8])],
) -> Result<BTreeMap<String, Vec<u8>>, AllocError> {
    let mut files = BTreeMap::new(alloc);
    for &(name, bytes) in held {
        put_file(alloc, &mut files, name, bytes)?;
    }
    Ok(files)
}

/// The calls for files that fail.
fn failing_files(alloc: Global, failing: Failing) -> Result<Vec<u64>, AllocError> {
    let mut calls = Vec::new(alloc);
    if let Failing::File(call) = failing {
        calls.push(call)?;
    }
    Ok(calls)
}

/// The calls for pieces that fail.
fn failing_pieces(alloc: Global, failing: Failing) -> Result<Vec<(u64, usize)>, AllocError> {
    let mut calls = Vec::new(alloc);
    if let Failing::Piece(call, kept) = failing {
        calls.push((call, kept))?;
    }
    Ok(calls)
}

fn held_files(
    alloc: Global,
    held: &[(&str, &[u8])],
    failing: Failing,
) -> Result<MemFiles, AllocError> {
    let calls = failing_files(alloc, failing)?;
    let files = files_of(alloc, held)?;
    Ok(MemFiles::new(files, calls))
}

fn steps_of(status: &Status) -> usize {
    match status.spent.get(0) {
        Some(log) => log.steps().len(),
        None => 0,
    }
}

/// The status of a run, how many logs it keeps, and how many steps the first of these has.
fn status_of(
    alloc: Global,
    words: &[String],
    files: &mut MemFiles,
    out: &mut MemSink,
) -> (u8, usize, usize) {
    let status = run(alloc, words, files, out);
    (status.code, status.spent.len(), steps_of(&status))
}

fn end_of(
    alloc: Global,
    words: &[String],
    files: &mut MemFiles,
    out: &mut MemSink,
) -> Result<Ended, AllocError> {
    let (code, logs, steps) = status_of(alloc, words, files, out);
    let text = Vec::from_slice(alloc, out.text())?;
    Ok(Ended {
        code,
        text,
        logs,
        steps,
    })
}

fn ran_over(
    alloc: Global,
    words: &[String],
    files: &mut MemFiles,
    failing: Failing,
) -> Result<Ended, AllocError> {
    let mut out = MemSink::new(alloc, failing_pieces(alloc, failing)?);
    end_of(alloc, words, files, &mut out)
}

/// How a run over these files ends.
pub fn ran(
    alloc: Global,
    line: &str,
    held: &[(&str, &[u8])],
    failing: Failing,
) -> Result<Ended, AllocError> {
    let words = words_of(alloc, line)?;
    let mut files = held_files(alloc, held, failing)?;
    ran_over(alloc, &words, &mut files, failing)
}

/// Whether a run ends with this status and these lines, and keeps so many logs.
fn is_told(ended: &Ended, told: (u8, &str), logs: usize) -> bool {
    ended.code == told.0 && lines_in(&ended.text) == told.1 && ended.logs == logs
}

/// The lines of what was written, without the end of the last one, which is empty where that has none.
fn lines_in(text: &[u8]) -> &str {
    match text_in(text).strip_suffix("\n") {
        Some(lines) => lines,
        None => "",
    }
}

/// Whether a run ends with this status and these lines, and keeps so many logs, where a call fails.
pub fn ends_so(
    alloc: Global,
    line: &str,
    held: &[(&str, &[u8])],
    failing: Failing,
    told: (u8, &str),
    logs: usize,
) -> Result<bool, AllocError> {
    let ended = ran(alloc, line, held, failing)?;
    Ok(is_told(&ended, told, logs))
}

/// Whether a run over these files ends with this status and these lines, and keeps no log.
pub fn ends(
    alloc: Global,
    line: &str,
    held: &[(&str, &[u8])],
    told: (u8, &str),
) -> Result<bool, AllocError> {
    ends_so(alloc, line, held, Failing::Nothing, told, 0)
}

/// Whether this text is written where a call keeps so many bytes of its piece and fails.
pub fn is_cut(
    alloc: Global,
    line: &str,
    held: &[(&str, &[u8])],
    call: (u64, usize),
    text: &str,
) -> Result<bool, AllocError> {
    let ended = ran(alloc, line, held, Failing::Piece(call.0, call.1))?;
    Ok(ended.code == 21 && ended.text.as_slice() == text.as_bytes())
}

/// What a run over these files writes, where it ends with this status, and else nothing.
pub fn written(
    alloc: Global,
    line: &str,
    held: &[(&str, &[u8])],
    code: u8,
) -> Result<Vec<u8>, AllocError> {
    let ended = ran(alloc, line, held, Failing::Nothing)?;
    if ended.code != code {
        return Ok(Vec::new(alloc));
    }
    Ok(ended.text)
}

/// Whether a process with these words, over these files, ends with this status and writes these lines.
pub fn exits(
    alloc: Global,
    words: &Result<Vec<String>, AllocError>,
    held: &[(&str, &[u8])],
    told: (u8, &str),
) -> Result<bool, AllocError> {
    let mut files = held_files(alloc, held, Failing::Nothing)?;
    let mut out = MemSink::new(alloc, Vec::new(alloc));
    let code = exit_code(alloc, words, &mut files, &mut out);
    Ok(code == ExitCode::from(told.0) && lines_in(out.text()) == told.1)
}

/// The text that bytes are, and else none.
pub fn text_in(bytes: &[u8]) -> &str {
    match str::from_utf8(bytes) {
        Ok(text) => text,
        Err(_) => "",
    }
}
