//! Texts for strings, by the patterns that they are to match.
ghost use Rattle.std.specs.Prelude.{◌≡◌, ◌<◌, [], length, map, is_some, string_bytes, IfOk, OnOk};
ghost use Rattle.std.specs.Option.{option_copied};
ghost use Rattle.std.specs.Str.{chars};
ghost use Rattle.sc_languages.specs.Strings.{AreStrings};
ghost use Rattle.sc_model_values.specs.Models.{truth_in};
ghost use Rattle.sc_model_laws.specs.Names.{signs_of as signs_under};
ghost use Rattle.sc_model_names.specs.Numbers.{AreIn};
ghost use Rattle.sc_model_names.specs.Tables.{same_signs as same_signs_test, texts_at as texts_for, IsEntered, AreEntered};
ghost use Rattle.sc_terms.specs.Tables.{tree};

use crate::truth::is_like;
use sc_clauses::Assignment;
use sc_footprint::Problem;
use sc_languages::strings_of;
use sc_lists::{Seq, Text};
use sc_pattern::Pattern;
use std::alloc::{AllocError, Global};

/// By each pattern whether strings match it, and texts of which the same is true.
pub(crate) type Entry = (Seq<bool>, Seq<Text>);

/// By each pattern whether a string matches it.
pub(crate) fn signs_of(
    alloc: Global,
    problem: &Problem<'_>,
    m: &Assignment,
    patterns: &[Pattern],
    x: u64,
) -> Result<Seq<bool>, AllocError>
    requires { x < length problem.now.nodes }
    ensures { IfOk result (λ v. v ≡ signs_under (truth_in problem.now m.now) patterns.now (tree problem.now.nodes x)) }
{
    let mut signs = Seq::new(alloc);
    for pattern in patterns {
        let sign = is_like(alloc, problem, m, x, pattern)?;
        signs.push(sign)?;
    }
    Ok(signs)
}

fn same_signs(signs: &[bool], others: &[bool]) -> bool
    ensures { result ≡ same_signs_test signs.now others.now }
{
    let mut left = signs;
    let mut right = others;
    while let Some((a, later)) = left.split_first() {
        let Some((b, rest)) = right.split_first() else {
            return false;
        };
        if *a != *b {
            return false;
        }
        left = later;
        right = rest;
    }
    right.is_empty()
}

/// The texts for some signs.
pub(crate) fn texts_at<'a>(table: &'a [Entry], signs: &[bool]) -> Option<&'a Seq<Text>>
    ensures { option_copied result ≡ texts_for table.now signs.now }
{
    let mut rest = table;
    while let Some((entry, later)) = rest.split_first() {
        if same_signs(signs, entry.0.as_slice()) {
            return Some(&entry.1);
        }
        rest = later;
    }
    None
}

/// So many distinct texts with some signs, or all that there are.
fn texts_with(
    alloc: Global,
    patterns: &[Pattern],
    signs: &[bool],
    wanted: u64,
) -> Result<Seq<Text>, AllocError>
    ensures { IfOk result (λ ts. AreStrings patterns.now signs.now wanted (map chars ts)) }
{
    let strings = strings_of(alloc, patterns, signs, wanted)?;
    let texts = copies(alloc, strings.as_slice())?;
    Ok(texts)
}

fn copies(alloc: Global, strings: &[String]) -> Result<Seq<Text>, AllocError>
    ensures { IfOk result (λ ts. map chars ts ≡ map (λ s. chars (string_bytes s)) strings.now) }
{
    let mut texts = Seq::new(alloc);
    for string in strings {
        let text = Text::from_str(alloc, string.as_str())?;
        texts.push(text)?;
    }
    Ok(texts)
}

/// Texts for some signs go last, if there are none yet.
fn enter(
    alloc: Global,
    table: &mut Seq<Entry>,
    patterns: &[Pattern],
    wanted: u64,
    signs: Seq<bool>,
) -> Result<(), AllocError>
    ensures { OnOk result (IsEntered patterns.now wanted table.old table.new signs) }
{
    if is_entered(table.as_slice(), signs.as_slice()) {
        return Ok(());
    }
    let texts = texts_with(alloc, patterns, signs.as_slice(), wanted)?;
    table.push((signs, texts))?;
    Ok(())
}

fn is_entered(table: &[Entry], signs: &[bool]) -> bool
    ensures { result ≡ is_some (texts_for table.now signs.now) }
{
    match texts_at(table, signs) {
        Some(_) => true,
        None => false,
    }
}

/// Texts for the signs of each string.
pub(crate) fn table_of(
    alloc: Global,
    problem: &Problem<'_>,
    m: &Assignment,
    patterns: &[Pattern],
    strings: &[u64],
    wanted: u64,
) -> Result<Seq<Entry>, AllocError>
    requires { AreIn problem.now.nodes strings.now }
    ensures { IfOk result (λ table. AreEntered (truth_in problem.now m.now) patterns.now wanted
        (map (tree problem.now.nodes) strings.now) [] table) }
{
    let mut table = Seq::new(alloc);
    let mut rest = strings;
    while let Some((x, later)) = rest.split_first() {
        let signs = signs_of(alloc, problem, m, patterns, *x)?;
        enter(alloc, &mut table, patterns, wanted, signs)?;
        rest = later;
    }
    Ok(table)
}
