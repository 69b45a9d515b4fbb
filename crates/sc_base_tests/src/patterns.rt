//! Worked rows of patterns and texts.
use sc_pattern::Part::{Char, Star};
use sc_pattern::{Part, Pattern, matches, pattern_of};
use std::alloc::{AllocError, Global};
use std::test::Fail;

/// Whether a pattern matches just those texts of a table that are marked.
fn answers(pattern: &Pattern, table: &[(&str, bool)]) -> bool {
    table
        .iter()
        .all(|(text, wanted)| matches(pattern, text) == *wanted)
}

/// Whether the pattern of these parts does.
fn parts_answer(alloc: Global, parts: &[Part], table: &[(&str, bool)]) -> Result<bool, AllocError> {
    let pattern = pattern_of(alloc, parts)?;
    Ok(answers(&pattern, table))
}

/// Whether a pattern has these parts.
fn has_parts(alloc: Global, parts: &[Part]) -> Result<bool, AllocError> {
    Ok(pattern_of(alloc, parts)?.parts() == parts)
}

/// Whether a copy of a pattern is equal to it.
fn is_copied(alloc: Global, parts: &[Part]) -> Result<bool, AllocError> {
    let pattern = pattern_of(alloc, parts)?;
    let copy: Pattern = pattern.try_clone(alloc)?;
    Ok(copy == pattern)
}

#[test]
fn copies(rt: HostRuntime) -> Result<(), Fail> {
    assert!(rt; has_parts(rt.alloc(), &[Char('a'), Star, Char('*')])?);
    assert!(rt; is_copied(rt.alloc(), &[Char('a'), Star, Char('*')])?);
    Ok(())
}

/// Texts, each with whether the empty pattern matches it.
const OF_NOTHING: &[(&str, bool)] = &[("", true), ("a", false)];

/// Texts, each with whether the pattern of a star's character matches it.
const OF_STAR_ALONE: &[(&str, bool)] = &[("*", true), ("", false), ("a", false), ("**", false)];

/// Texts, each with whether the pattern of one letter with an accent matches it.
const OF_ACCENT: &[(&str, bool)] = &[("\u{e9}", true), ("e\u{301}", false), ("e", false)];

#[test]
fn no_star(rt: HostRuntime) -> Result<(), Fail> {
    let alloc = rt.alloc();
    assert!(rt; parts_answer(alloc, &[], OF_NOTHING)?);
    assert!(rt; parts_answer(alloc, &[Char('*')], OF_STAR_ALONE)?);
    assert!(rt; parts_answer(alloc, &[Char('\u{e9}')], OF_ACCENT)?);
    Ok(())
}

/// Texts, all of which one star matches.
const OF_STAR: &[(&str, bool)] = &[("", true), ("a", true), ("abc", true), ("é", true)];

/// Texts, each with whether a star between `a` and `c` matches it.
const OF_MIDDLE: &[(&str, bool)] = &[
    ("abc", true),
    ("ac", true),
    ("acbc", true),
    ("acb", false),
    ("a", false),
    ("c", false),
];

#[test]
fn one_star(rt: HostRuntime) -> Result<(), Fail> {
    let alloc = rt.alloc();
    assert!(rt; parts_answer(alloc, &[Star], OF_STAR)?);
    assert!(rt; parts_answer(alloc, &[Char('a'), Star, Char('c')], OF_MIDDLE)?);
    Ok(())
}

/// Texts, each with whether an `a` between stars matches it.
const OF_INSIDE: &[(&str, bool)] = &[("a", true), ("bab", true), ("", false), ("b", false)];

/// Texts, each with whether two stars between `a` and `b` match it.
const OF_TWO_STARS: &[(&str, bool)] = &[("ab", true), ("abb", true), ("aba", false), ("", false)];

/// Texts, each with whether `ab` behind a star matches it.
const OF_END: &[(&str, bool)] = &[("ab", true), ("aaab", true), ("aba", false)];

#[test]
fn several_stars(rt: HostRuntime) -> Result<(), Fail> {
    let alloc = rt.alloc();
    assert!(rt; parts_answer(alloc, &[Star, Char('a'), Star], OF_INSIDE)?);
    assert!(rt; parts_answer(alloc, &[Char('a'), Star, Star, Char('b')], OF_TWO_STARS)?);
    assert!(rt; parts_answer(alloc, &[Star, Char('a'), Char('b')], OF_END)?);
    Ok(())
}

/// Whether a pattern of two stars matches a long text that has only the first letter.
fn matches_long_text(alloc: Global) -> Result<bool, AllocError> {
    let pattern = pattern_of(alloc, &[Star, Char('a'), Star, Char('b')])?;
    let text = "a".repeat(alloc, 200_000)?;
    Ok(matches(&pattern, text.as_str()))
}

#[test]
fn a_long_text(rt: HostRuntime) -> Result<(), Fail> {
    assert!(rt; !matches_long_text(rt.alloc())?);
    Ok(())
}
