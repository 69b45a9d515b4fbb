//! Identifiers and paths, and the texts, the order and the sets of uids.
use crate::samples::{is_text, uid};
use sc_lists::Fault;
use sc_names::{
    BadName, Lits, Uid, compare, is_ident, is_path, is_reserved, is_word, lits_of, lits_union,
    put_escaped, read_ident, read_name, uid_text,
};
use std::alloc::{AllocError, Global};
use std::cmp::Ordering;

/// Whether a text is read as an identifier of that text.
fn is_read(alloc: Global, text: &str) -> bool {
    match read_ident(alloc, text) {
        Ok(Some(ident)) => ident.as_str() == text,
        _ => false,
    }
}

/// Whether a text is read as an identifier whose copy equals it.
fn is_copied(alloc: Global, text: &str) -> bool {
    let Ok(Some(ident)) = read_ident(alloc, text) else {
        return false;
    };
    match ident.try_clone(alloc) {
        Ok(copy) => copy == ident,
        Err(_) => false,
    }
}

/// Whether a text is no identifier.
fn is_refused(alloc: Global, text: &str) -> bool {
    match read_ident(alloc, text) {
        Ok(None) => !is_ident(text),
        _ => false,
    }
}

/// Identifiers.
const IDENTIFIERS: &[&str] = &["a", "_", "Z9_", "ifx", "True", "__cedar_", "principal"];

#[test]
fn identifiers(rt: HostRuntime) {
    for &text in IDENTIFIERS {
        assert!(rt; is_ident(text), "{text}");
        assert!(rt; is_read(rt.alloc(), text), "{text}");
        assert!(rt; is_copied(rt.alloc(), text), "{text}");
    }
}

/// Texts that are no words.
const NO_WORDS: &[&str] = &["", "1", "a b", "a-", "é", "A::B", "a\n"];

#[test]
fn texts_that_are_no_words(rt: HostRuntime) {
    for &text in NO_WORDS {
        assert!(rt; !is_word(text.as_bytes()), "{text}");
        assert!(rt; is_refused(rt.alloc(), text), "{text}");
    }
}

/// Words that no identifier is.
const RESERVED: &[&str] = &[
    "true", "false", "if", "then", "else", "in", "like", "is", "has", "__cedar",
];

#[test]
fn reserved_words(rt: HostRuntime) {
    for &text in RESERVED {
        assert!(rt; is_reserved(text.as_bytes()), "{text}");
        assert!(rt; is_refused(rt.alloc(), text), "{text}");
    }
}

/// Whether a text is read as a path of that text.
fn is_path_of(alloc: Global, text: &str) -> bool {
    match read_name(alloc, text) {
        Ok(name) => name.as_str() == text,
        Err(_) => false,
    }
}

/// Paths.
const PATHS: &[&str] = &["A", "ifx", "A::B", "_::a1::__cedar_", "Shop::User::if_"];

#[test]
fn paths(rt: HostRuntime) {
    for &text in PATHS {
        assert!(rt; is_path(text), "{text}");
        assert!(rt; is_path_of(rt.alloc(), text), "{text}");
    }
}

/// The place where a text stops being a path.
fn bad_place(alloc: Global, text: &str) -> Option<u64> {
    match read_name(alloc, text) {
        Err(Fault::Told(BadName { at })) => Some(at),
        _ => None,
    }
}

/// Texts that are no paths, and where they stop being so.
const BAD_NAMES: &[(&str, u64)] = &[
    ("", 0),
    ("1", 0),
    (" A", 0),
    ("::A", 0),
    ("if", 2),
    ("if::A", 2),
    ("A:", 2),
    ("A:B", 2),
    ("A::", 3),
    ("A:::B", 3),
    ("A::if", 5),
    ("A::1", 3),
    ("A b", 1),
    ("A ", 1),
    ("é", 0),
    ("__cedar::A", 7),
    ("A::B::", 6),
];

#[test]
fn places_of_bad_names(rt: HostRuntime) {
    for &(text, at) in BAD_NAMES {
        assert!(rt; bad_place(rt.alloc(), text) == Some(at), "{text}");
    }
}

/// Whether a uid has this text.
fn has_text(alloc: Global, of: (&str, &str), text: &str) -> bool {
    match uid(alloc, of) {
        Ok(uid) => is_text(uid_text(alloc, &uid), text),
        Err(_) => false,
    }
}

/// The types and ids of uids, and their texts.
const TEXTS: &[(&str, &str, &str)] = &[
    ("User", "ann", r#"User::"ann""#),
    ("Shop::User", "", r#"Shop::User::"""#),
    ("Action", "read it's * / é", r#"Action::"read it's * / é""#),
    ("A", "\\\"\n\r\t\0", r#"A::"\\\"\n\r\t\0""#),
    (
        "A",
        "\u{1}\u{f}\u{10}\u{1f}\u{7f}\u{80}",
        "A::\"\\u{1}\\u{f}\\u{10}\\u{1f}\\u{7f}\u{80}\"",
    ),
    // a type is escaped as an id is
    ("A\nB", "", r#"A\nB::"""#),
    ("\\\"\n::é", "\"", r#"\\\"\n::é::"\"""#),
];

#[test]
fn texts_of_uids(rt: HostRuntime) {
    for &(type_name, id, text) in TEXTS {
        assert!(rt; has_text(rt.alloc(), (type_name, id), text), "{text}");
    }
}

/// A text with another put behind it.
fn put_behind(alloc: Global, text: &str, after: &str) -> Result<String, AllocError> {
    let mut out = String::from_str(alloc, after)?;
    put_escaped(&mut out, text)?;
    Ok(out)
}

#[test]
fn a_text_is_put_behind_another(rt: HostRuntime) {
    let both = put_behind(rt.alloc(), "/b\"\u{0}1", "/a");
    assert!(rt; is_text(both, r#"/a/b\"\01"#));
}

/// Types and ids of uids, ascending.
const UIDS: &[(&str, &str)] = &[
    ("A", "b"),
    ("A", "ba"),
    ("A::B", ""),
    ("B", "a"),
    ("a", "a"),
];

/// Whether two uids have this order, and are equal just where it is that of equals.
fn are_ordered(a: &Uid, b: &Uid, order: Ordering) -> bool {
    compare(a, b) == order && (*a == *b) == order.is_eq()
}

fn is_before(alloc: Global, a: &Uid, b: (&str, &str), order: Ordering) -> bool {
    match uid(alloc, b) {
        Ok(b) => are_ordered(a, &b, order),
        Err(_) => false,
    }
}

/// The same of the uids of these types and ids.
fn has_order(alloc: Global, a: (&str, &str), b: (&str, &str), order: Ordering) -> bool {
    match uid(alloc, a) {
        Ok(a) => is_before(alloc, &a, b, order),
        Err(_) => false,
    }
}

#[test]
fn order_of_uids(rt: HostRuntime) {
    for (i, &a) in UIDS.iter().enumerate() {
        for (j, &b) in UIDS.iter().enumerate() {
            assert!(rt; has_order(rt.alloc(), a, b, i.cmp(&j)), "{i} {j}");
        }
    }
}

/// The set of uids of these types and ids.
fn set_of(alloc: Global, uids: &[(&str, &str)]) -> Result<Lits, AllocError> {
    let mut list = Vec::new(alloc);
    for of in uids {
        list.push(uid(alloc, *of)?)?;
    }
    lits_of(alloc, list.as_slice())
}

/// The texts of a set's uids, each with a space after it.
fn texts_of(alloc: Global, lits: &Lits) -> Result<String, AllocError> {
    let mut out = String::new(alloc);
    for uid in lits.as_slice() {
        out.push_str(uid_text(alloc, uid)?.as_str())?;
        out.push(' ')?;
    }
    Ok(out)
}

/// Whether a set has uids of these texts, and so many of them.
fn are_in(alloc: Global, lits: &Lits, texts: &str, count: usize) -> bool {
    lits.len() == count && lits.is_empty() == (count == 0) && is_text(texts_of(alloc, lits), texts)
}

/// Whether a set is made that has uids of these texts, and so many of them.
fn is_set(alloc: Global, lits: Result<Lits, AllocError>, texts: &str, count: usize) -> bool {
    match lits {
        Ok(lits) => are_in(alloc, &lits, texts, count),
        Err(_) => false,
    }
}

/// The copy of the set of uids.
fn copied_set(alloc: Global, uids: &[(&str, &str)]) -> Result<Lits, AllocError> {
    set_of(alloc, uids)?.try_clone(alloc)
}

/// Uids of which one comes twice.
const SOME: &[(&str, &str)] = &[("A", "2"), ("A", "1"), ("A", "2")];

/// Others, of which one is among those.
const OTHERS: &[(&str, &str)] = &[("B", "1"), ("A", "1")];

#[test]
fn sets_of_uids(rt: HostRuntime) {
    let alloc = rt.alloc();
    let texts = r#"A::"1" A::"2" "#;
    assert!(rt; is_set(alloc, set_of(alloc, &[]), "", 0));
    assert!(rt; is_set(alloc, set_of(alloc, SOME), texts, 2));
    assert!(rt; is_set(alloc, copied_set(alloc, SOME), texts, 2));
}

/// The union of two sets.
fn union_of(
    alloc: Global,
    first: &[(&str, &str)],
    second: &[(&str, &str)],
) -> Result<Lits, AllocError> {
    let first = set_of(alloc, first)?;
    let second = set_of(alloc, second)?;
    lits_union(alloc, &first, &second)
}

#[test]
fn unions_of_sets(rt: HostRuntime) {
    let alloc = rt.alloc();
    let both = union_of(alloc, SOME, OTHERS);
    assert!(rt; is_set(alloc, both, r#"A::"1" A::"2" B::"1" "#, 3));
}

fn contains(alloc: Global, lits: &Lits, of: (&str, &str)) -> Option<bool> {
    match uid(alloc, of) {
        Ok(uid) => Some(lits.contains(&uid)),
        Err(_) => None,
    }
}

/// Whether a uid is in a set of uids.
fn is_member(alloc: Global, of: (&str, &str), uids: &[(&str, &str)]) -> Option<bool> {
    match set_of(alloc, uids) {
        Ok(lits) => contains(alloc, &lits, of),
        Err(_) => None,
    }
}

/// Uids, and whether they are in that set.
const MEMBERS: &[(&str, &str, bool)] = &[("A", "1", true), ("A", "2", true), ("B", "1", false)];

#[test]
fn members_of_sets(rt: HostRuntime) {
    let alloc = rt.alloc();
    for &(type_name, id, among) in MEMBERS {
        assert!(rt;
            is_member(alloc, (type_name, id), SOME) == Some(among),
            "{id}"
        );
    }
    assert!(rt; is_member(alloc, ("A", "1"), &[]) == Some(false));
    assert!(rt; Lits::new(alloc).is_empty());
}
