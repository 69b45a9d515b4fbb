//! Tests of what is found under partial assignments, given by tables.
ghost use Rattle.std.specs.Prelude.{◌≡◌, ◌<◌, ◌||◌, None, length, slice_get, slice_index_or};
ghost use Rattle.sc_term_tests.specs.Tables.{is_of, told, told_either, with_sign, sign_in};

use sc_falsified::{Equalities, Paths, Texts, crowd_of, gap, intransitive_among, labels};
use std::alloc::{AllocError, Global};
use std::test::Fail;

/// Two items, and a truth.
type Row = (usize, usize, bool);

/// Whether a row is of two items.
fn is_of(row: &Row, one: usize, other: usize) -> bool
    ensures { result ≡ is_of row.now one other }
{
    row.0 == one && row.1 == other
}

/// What a table says of two items.
fn told(rows: &[Row], one: usize, other: usize) -> Option<bool>
    ensures { result ≡ told rows.now one other }
{
    for row in rows {
        if is_of(row, one, other) {
            return Some(row.2);
        }
    }
    None
}

/// Whether a row is of two items in either order.
fn is_of_either(row: &Row, one: usize, other: usize) -> bool
    ensures { result ≡ (is_of row.now one other || is_of row.now other one) }
{
    is_of(row, one, other) || is_of(row, other, one)
}

/// What a table says of two items in either order.
fn told_either(rows: &[Row], one: usize, other: usize) -> Option<bool>
    ensures { result ≡ told_either rows.now one other }
{
    for row in rows {
        if is_of_either(row, one, other) {
            return Some(row.2);
        }
    }
    None
}

/// Items of which a table says what is known. Each equals itself.
#[derive(Clone, Copy)]
struct Table<'a> {
    count: u8,
    rows: &'a [Row],
}

impl<'a> Equalities for Table<'a> {
    ghost use Rattle.sc_term_tests.specs.Tables.{equal_by};
    ghost use Rattle.sc_term_tests.specs.TableLaws.{equal_turned, equal_itself};

    ghost size = { λ s. s.count };

    ghost truth = { λ s. equal_by s.rows.now };

    fn len(&self) -> usize {
        usize::from(self.count)
    }

    fn equal(&self, one: usize, other: usize) -> Option<bool> {
        if one == other {
            return Some(true);
        }
        told_either(self.rows, one, other)
    }

    ghost symmetric = { λ s. equal_turned s.rows.now };

    ghost reflexive = { λ s. equal_itself s.rows.now };
}

/// Three starts, middles and ends, of which tables say what is known.
#[derive(Clone, Copy)]
struct Steps<'a> {
    first: &'a [Row],
    second: &'a [Row],
    third: &'a [Row],
}

impl<'a> Paths for Steps<'a> {
    ghost use Rattle.sc_term_tests.specs.Tables.{told};

    ghost starts = { λ s. 3 };

    ghost middles = { λ s. 3 };

    ghost ends = { λ s. 3 };

    ghost first = { λ s. told s.first.now };

    ghost second = { λ s. told s.second.now };

    ghost third = { λ s. told s.third.now };

    fn starts(&self) -> usize {
        3
    }

    fn middles(&self) -> usize {
        3
    }

    fn ends(&self) -> usize {
        3
    }

    fn first(&self, start: usize, middle: usize) -> Option<bool> {
        told(self.first, start, middle)
    }

    fn second(&self, middle: usize, end: usize) -> Option<bool> {
        told(self.second, middle, end)
    }

    fn third(&self, start: usize, end: usize) -> Option<bool> {
        told(self.third, start, end)
    }
}

/// Texts of which so many match the one pattern and so many don't, and what is known of each item.
#[derive(Clone, Copy)]
struct OnePattern<'a> {
    matching: u8,
    other: u8,
    signs: &'a [Option<bool>],
}

/// How many texts have a sign.
fn with_sign(matching: u8, other: u8, sign: Option<bool>) -> usize
    ensures { result ≡ with_sign matching other sign }
{
    match sign {
        None => usize::from(matching) + usize::from(other),
        Some(true) => usize::from(matching),
        Some(false) => usize::from(other),
    }
}

/// The sign that is asked of the one pattern.
fn first(signs: &[Option<bool>]) -> Option<bool>
    requires { 0 < length signs.now }
    ensures { result ≡ slice_index_or signs.now 0 None }
{
    signs[0]
}

/// The sign that an item has, if it is listed.
fn sign_at(signs: &[Option<bool>], item: usize) -> Option<bool>
    ensures { result ≡ sign_in (slice_get signs.now item) }
{
    match signs.get(item) {
        None => None,
        Some(sign) => *sign,
    }
}

impl<'a> Texts for OnePattern<'a> {
    ghost use Rattle.std.specs.Prelude.{slice_get};
    ghost use Rattle.sc_term_tests.specs.Tables.{sign_in, are_few};
    ghost use Rattle.sc_term_tests.specs.TableLaws.{few_none, few_greater, few_asked, few_split};

    ghost patterns = { λ s. 1 };

    ghost sign = { λ s i p. sign_in (slice_get s.signs.now i) };

    ghost few = { λ s. are_few s.matching s.other };

    fn patterns(&self) -> usize {
        1
    }

    fn sign(&self, item: usize, _pattern: usize) -> Option<bool> {
        sign_at(self.signs, item)
    }

    fn few(
        &self,
        _alloc: Global,
        signs: &[Option<bool>],
        count: usize,
    ) -> Result<bool, AllocError> {
        Ok(with_sign(self.matching, self.other, first(signs)) < count)
    }

    ghost none = { λ s. few_none s.matching s.other };

    ghost greater = { λ s. few_greater s.matching s.other };

    ghost asked = { λ s. few_asked s.matching s.other };

    ghost split = { λ s. few_split s.matching s.other };
}

// ---- equality that isn't transitive

fn triple_is(
    alloc: Global,
    count: u8,
    rows: &[Row],
    wanted: Option<(usize, usize, usize)>,
) -> Result<bool, AllocError> {
    let items = Table { count, rows };
    let labels = labels(alloc, &items)?;
    let found = intransitive_among(alloc, &items, labels.as_slice())?;
    Ok(found == wanted)
}

#[test]
fn three_items_break_transitivity(rt: HostRuntime) -> Result<(), Fail> {
    let alloc = rt.alloc();
    let ordered = [(0, 1, true), (1, 2, true), (0, 2, false)];
    assert!(rt; triple_is(alloc, 3, &ordered, Some((0, 1, 2)))?);
    let turned = [(2, 1, true), (0, 2, true), (1, 0, false)];
    assert!(rt; triple_is(alloc, 3, &turned, Some((0, 2, 1)))?);
    Ok(())
}

#[test]
fn what_is_not_known_breaks_nothing(rt: HostRuntime) -> Result<(), Fail> {
    let alloc = rt.alloc();
    let one_class = [(0, 1, true), (1, 2, true), (0, 2, true)];
    assert!(rt; triple_is(alloc, 3, &one_class, None)?);
    let open = [(0, 1, true), (1, 2, true)];
    assert!(rt; triple_is(alloc, 3, &open, None)?);
    let long = [(0, 1, true), (1, 2, true), (2, 3, true), (0, 3, false)];
    assert!(rt; triple_is(alloc, 4, &long, None)?);
    Ok(())
}

// ---- steps that don't go on

fn gap_is(
    alloc: Global,
    first: &[Row],
    second: &[Row],
    third: &[Row],
    wanted: Option<(usize, usize, usize)>,
) -> Result<bool, AllocError> {
    let found = gap(
        alloc,
        &Steps {
            first,
            second,
            third,
        },
    )?;
    Ok(found == wanted)
}

#[test]
fn a_path_goes_on_or_breaks_off(rt: HostRuntime) -> Result<(), Fail> {
    let alloc = rt.alloc();
    let first = [(1, 0, true)];
    let second = [(0, 2, true)];
    assert!(rt; gap_is(alloc, &first, &second, &[(1, 2, false)], Some((1, 0, 2)))?);
    assert!(rt; gap_is(alloc, &first, &second, &[(1, 2, true)], None)?);
    assert!(rt; gap_is(alloc, &first, &second, &[(2, 1, false)], None)?);
    assert!(rt; gap_is(alloc, &[(1, 0, false)], &second, &[(1, 2, false)], None)?);
    Ok(())
}

// ---- crowds

/// Whether these items are found, of which each two are apart but for what the table says.
fn crowd_is(
    alloc: Global,
    items: &Table<'_>,
    texts: &OnePattern<'_>,
    wanted: &[usize],
) -> Result<bool, AllocError> {
    let Some(crowd) = crowd_of(alloc, items, texts)? else {
        return Ok(wanted.is_empty());
    };
    Ok(crowd.items.as_slice() == wanted)
}

#[test]
fn more_items_than_texts_are_a_crowd(rt: HostRuntime) -> Result<(), Fail> {
    let alloc = rt.alloc();
    let items = Table {
        count: 3,
        rows: &[(0, 1, false), (0, 2, false), (1, 2, false)],
    };
    let signs = [Some(true), Some(true), Some(true)];
    let mut texts = OnePattern {
        matching: 2,
        other: 9,
        signs: &signs,
    };
    assert!(rt; crowd_is(alloc, &items, &texts, &[0, 1, 2])?);
    texts.matching = 3;
    assert!(rt; crowd_is(alloc, &items, &texts, &[])?);
    Ok(())
}

#[test]
fn equal_items_count_once(rt: HostRuntime) -> Result<(), Fail> {
    let alloc = rt.alloc();
    let items = Table {
        count: 3,
        rows: &[(0, 1, true), (0, 2, false), (1, 2, false)],
    };
    let signs = [Some(false), Some(false), Some(false)];
    let mut texts = OnePattern {
        matching: 9,
        other: 2,
        signs: &signs,
    };
    assert!(rt; crowd_is(alloc, &items, &texts, &[])?);
    texts.other = 1;
    assert!(rt; crowd_is(alloc, &items, &texts, &[0, 2])?);
    Ok(())
}

#[test]
fn a_crowd_is_found_where_much_is_open(rt: HostRuntime) -> Result<(), Fail> {
    let alloc = rt.alloc();
    let items = Table {
        count: 4,
        rows: &[(1, 3, false)],
    };
    let signs = [None, Some(true), None, Some(true)];
    let mut texts = OnePattern {
        matching: 1,
        other: 9,
        signs: &signs,
    };
    assert!(rt; crowd_is(alloc, &items, &texts, &[1, 3])?);
    texts.matching = 2;
    assert!(rt; crowd_is(alloc, &items, &texts, &[])?);
    Ok(())
}
