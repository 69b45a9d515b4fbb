//! Texts of worked patterns.
use sc_languages::strings_of;
use sc_pattern::Part::{Char, Star};
use sc_pattern::{Pattern, pattern_of};
use std::alloc::{AllocError, Global};
use std::test::Fail;

/// The pattern of a text in which `*` is a star.
fn pattern(alloc: Global, text: &str) -> Result<Pattern, AllocError> {
    let mut parts = Vec::new(alloc);
    for c in text.chars() {
        parts.push(if c == '*' { Star } else { Char(c) })?;
    }
    pattern_of(alloc, parts.as_slice())
}

fn patterns_of(alloc: Global, rows: &[(&str, bool)]) -> Result<Vec<Pattern>, AllocError> {
    let mut patterns = Vec::new(alloc);
    for (text, _) in rows {
        patterns.push(pattern(alloc, text)?)?;
    }
    Ok(patterns)
}

fn signs_of(alloc: Global, rows: &[(&str, bool)]) -> Result<Vec<bool>, AllocError> {
    let mut signs = Vec::new(alloc);
    for (_, sign) in rows {
        signs.push(*sign)?;
    }
    Ok(signs)
}

/// Texts of some patterns with their signs.
fn texts(alloc: Global, rows: &[(&str, bool)], wanted: u64) -> Result<Vec<String>, AllocError> {
    let patterns = patterns_of(alloc, rows)?;
    let signs = signs_of(alloc, rows)?;
    strings_of(alloc, patterns.as_slice(), signs.as_slice(), wanted)
}

/// How many texts are found of some patterns with their signs.
fn count(alloc: Global, rows: &[(&str, bool)], wanted: u64) -> Result<usize, AllocError> {
    Ok(texts(alloc, rows, wanted)?.len())
}

/// Whether there is just this text.
fn is_only(found: &[String], text: &str) -> bool {
    match found.split_first() {
        Some((first, others)) => first.as_str() == text && others.is_empty(),
        None => false,
    }
}

/// Whether just this text is found of some patterns with their signs.
fn is_only_text(
    alloc: Global,
    rows: &[(&str, bool)],
    wanted: u64,
    text: &str,
) -> Result<bool, AllocError> {
    let found = texts(alloc, rows, wanted)?;
    Ok(is_only(found.as_slice(), text))
}

#[test]
fn one_of_two_wanted(rt: HostRuntime) -> Result<(), Fail> {
    let rows = [("ab*", true), ("a*b", true), ("*b*b", false)];
    assert!(rt; is_only_text(rt.alloc(), &rows, 2, "ab")?);
    Ok(())
}

#[test]
fn none(rt: HostRuntime) -> Result<(), Fail> {
    assert!(rt; count(rt.alloc(), &[("*", false)], 1)? == 0);
    Ok(())
}

#[test]
fn one_text(rt: HostRuntime) -> Result<(), Fail> {
    assert!(rt; is_only_text(rt.alloc(), &[("a", true)], 5, "a")?);
    Ok(())
}

#[test]
fn no_patterns(rt: HostRuntime) -> Result<(), Fail> {
    assert!(rt; count(rt.alloc(), &[], 3)? == 3);
    Ok(())
}

#[test]
fn many(rt: HostRuntime) -> Result<(), Fail> {
    assert!(rt; count(rt.alloc(), &[("a*", true), ("*\u{e9}*", true)], 40)? == 40);
    Ok(())
}

const ORDINARY: &[(&str, bool)] = &[
    ("a*", false),
    ("b*", false),
    ("*.png", true),
    ("*.jpg", false),
    ("*.pdf", false),
    ("/home/*/x", false),
    ("/home/*", true),
    ("/tmp/*", false),
    ("*/secret/*", false),
    ("*draft*", false),
    ("report-*", false),
    ("report-*-final", false),
    ("*@example.com", false),
    ("admin*", false),
    ("*.tar.gz", false),
    ("/var/log/*.log", false),
    ("https://*", false),
    ("*:443", false),
    ("team-*", false),
    ("*-eu", false),
];

#[test]
fn twenty_ordinary_patterns(rt: HostRuntime) -> Result<(), Fail> {
    assert!(rt; count(rt.alloc(), ORDINARY, 3)? == 3);
    Ok(())
}

#[test]
fn prefixes_that_exclude_each_other(rt: HostRuntime) -> Result<(), Fail> {
    let rows = [("a*", true), ("b*", true), ("*.png", false)];
    assert!(rt; count(rt.alloc(), &rows, 1)? == 0);
    Ok(())
}
