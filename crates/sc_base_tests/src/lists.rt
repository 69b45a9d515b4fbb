//! Calls with ample memory, and orders that no clause spells out.
ghost use Rattle.std.specs.Prelude.{IfOk};
ghost use Rattle.std.specs.List.Sorted.{IsStrictlySortedBy};
ghost use Rattle.std.specs.Map.{keys_of};
ghost use Rattle.std.specs.Ordering.{nat_cmp};

use sc_lists::{Boxed, Fault, Seq, Shared, Text, members, pairs};
use std::alloc::{AllocError, Global};
use std::cmp::Ordering;
use std::process::Abort;
use std::test::Fail;

/// The list of these numbers.
fn list_of(alloc: Global, numbers: &[u8]) -> Result<Seq<u8>, AllocError> {
    Ok(Seq::from_vec(Vec::from_slice(alloc, numbers)?))
}

/// Whether these are the numbers that are wanted.
fn are(numbers: &[u8], wanted: &[u8]) -> bool {
    numbers == wanted
}

#[test]
fn an_empty_list(rt: HostRuntime) {
    let list: Seq<u8> = Seq::new(rt.alloc());
    assert!(rt; list.is_empty());
    assert!(rt; list.len() == 0);
    assert!(rt; list.get(0).is_none());
}

/// Whether the element at a place is this number.
fn is_at(list: &Seq<u8>, at: usize, number: u8) -> bool {
    match list.get(at) {
        Some(element) => *element == number,
        None => false,
    }
}

#[test]
fn lists(rt: HostRuntime) -> Result<(), Fail> {
    let list = list_of(rt.alloc(), &[7, 8, 9])?;
    assert!(rt; !list.is_empty());
    assert!(rt; list.len() == 3);
    assert!(rt; is_at(&list, 0, 7));
    assert!(rt; is_at(&list, 2, 9));
    assert!(rt; list.get(3).is_none());
    assert!(rt; list.get(usize::MAX).is_none());
    assert!(rt; are(list.into_vec().as_slice(), &[7, 8, 9]));
    Ok(())
}

/// Two elements, put behind one another.
fn pushed(alloc: Global) -> Result<Seq<u8>, AllocError> {
    let mut list = Seq::new(alloc);
    list.push(1)?;
    list.push(3)?;
    Ok(list)
}

#[test]
fn pushes_to_a_list(rt: HostRuntime) -> Result<(), Fail> {
    let list = pushed(rt.alloc())?;
    assert!(rt; are(list.as_slice(), &[1, 3]));
    Ok(())
}

/// Four elements, put at the front, in the middle and at the end.
fn inserted(alloc: Global) -> Result<Seq<u8>, AllocError> {
    let mut list = Seq::new(alloc);
    list.insert(0, 3)?;
    list.insert(0, 1)?;
    list.insert(1, 2)?;
    list.insert(3, 4)?;
    Ok(list)
}

#[test]
fn inserts_into_a_list(rt: HostRuntime) -> Result<(), Fail> {
    let mut list = inserted(rt.alloc())?;
    assert!(rt; are(list.as_slice(), &[1, 2, 3, 4]));
    if 3 < list.len() {
        list.set(1, 20);
        list.set(3, 40);
    }
    assert!(rt; are(list.as_slice(), &[1, 20, 3, 40]));
    Ok(())
}

/// Lists in ascending order.
const LISTS: &[&[u8]] = &[&[], &[1], &[1, 2], &[2]];

/// Asserts that two lists are in this order, as each call tells it.
fn lists_are_so(rt: &impl Abort, a: &Seq<u8>, b: &Seq<u8>, wanted: Ordering) {
    assert!(rt; a.cmp(b) == wanted);
    assert!(rt; a.partial_cmp(b) == Some(wanted));
    assert!(rt; (a == b) == (wanted == Ordering::Equal));
}

/// Asserts that the lists of these numbers are in this order.
fn numbers_are_so(
    rt: &impl Abort,
    alloc: Global,
    a: &[u8],
    b: &[u8],
    wanted: Ordering,
) -> Result<(), AllocError> {
    let a = list_of(alloc, a)?;
    let b = list_of(alloc, b)?;
    lists_are_so(rt, &a, &b, wanted);
    Ok(())
}

#[test]
fn order_of_lists(rt: HostRuntime) -> Result<(), Fail> {
    for (i, a) in LISTS.iter().enumerate() {
        for (j, b) in LISTS.iter().enumerate() {
            numbers_are_so(&rt, rt.alloc(), a, b, i.cmp(&j))?;
        }
    }
    Ok(())
}

/// Asserts how boxes of one, of one again and of two compare.
fn boxes_compare(rt: &impl Abort, one: &Boxed<u8>, again: &Boxed<u8>, two: &Boxed<u8>) {
    assert!(rt; one == again && one != two);
    assert!(rt; one.cmp(two) == Ordering::Less);
    assert!(rt; two.partial_cmp(one) == Some(Ordering::Greater));
}

#[test]
fn boxes(rt: HostRuntime) -> Result<(), Fail> {
    let alloc = rt.alloc();
    let one = Boxed::new(alloc, 1)?;
    let again = Boxed::new(alloc, 1)?;
    let two = Boxed::new(alloc, 2)?;
    assert!(rt; *one.get() == 1);
    boxes_compare(&rt, &one, &again, &two);
    assert!(rt; two.into_inner() == 2);
    Ok(())
}

/// Asserts how shared values of one, of the same one and of two compare.
fn shared_values_compare(rt: &impl Abort, one: &Shared<u8>, again: &Shared<u8>, two: &Shared<u8>) {
    assert!(rt; *again.get() == 1);
    assert!(rt; one == again && one != two);
    assert!(rt; one.cmp(two) == Ordering::Less);
    assert!(rt; two.partial_cmp(one) == Some(Ordering::Greater));
}

#[test]
fn shared_values(rt: HostRuntime) -> Result<(), Fail> {
    let alloc = rt.alloc();
    let one = Shared::new(alloc, 1)?;
    let again = one.try_clone()?;
    let two = Shared::new(alloc, 2)?;
    shared_values_compare(&rt, &one, &again, &two);
    Ok(())
}

#[test]
fn a_shared_list(rt: HostRuntime) -> Result<(), Fail> {
    let list = Shared::new(rt.alloc(), list_of(rt.alloc(), &[7, 8])?)?;
    let again = list.try_clone()?;
    assert!(rt; are(again.as_slice(), &[7, 8]));
    Ok(())
}

/// Whether a text has these characters.
fn is_copied(alloc: Global, text: &str) -> Result<bool, AllocError> {
    Ok(Text::from_str(alloc, text)?.as_str() == text)
}

/// Whether a copy of a text is the same.
fn is_cloned(alloc: Global, text: &str) -> Result<bool, AllocError> {
    let copied = Text::from_str(alloc, text)?;
    let again = copied.try_clone(alloc)?;
    Ok(again.is_same(&copied))
}

/// Whether a string that becomes a text keeps its characters.
fn is_moved(alloc: Global, text: &str) -> Result<bool, AllocError> {
    let moved = Text::from_string(String::from_str(alloc, text)?)?;
    Ok(moved.as_str() == text)
}

const CHARACTERS: &[&str] = &["", "a", "a\0b", "é日🙂"];

#[test]
fn texts(rt: HostRuntime) -> Result<(), Fail> {
    let alloc = rt.alloc();
    for &text in CHARACTERS {
        assert!(rt; is_copied(alloc, text)?, "{text}");
        assert!(rt; is_cloned(alloc, text)?, "{text}");
        assert!(rt; is_moved(alloc, text)?, "{text}");
    }
    Ok(())
}

/// Texts in ascending order.
const TEXTS: &[&str] = &["", "B", "a", "aa", "b", "\u{ffff}", "\u{10000}"];

/// Asserts that two texts are in this order, as each call tells it.
fn texts_are_so(rt: &impl Abort, a: &Text, b: &Text, wanted: Ordering) {
    assert!(rt; a.compare(b) == wanted);
    assert!(rt; a.cmp(b) == wanted);
    assert!(rt; a.partial_cmp(b) == Some(wanted));
    assert!(rt; a.is_same(b) == (wanted == Ordering::Equal));
    assert!(rt; (a == b) == (wanted == Ordering::Equal));
}

/// Asserts that the texts of these characters are in this order.
fn characters_are_so(
    rt: &impl Abort,
    alloc: Global,
    a: &str,
    b: &str,
    wanted: Ordering,
) -> Result<(), AllocError> {
    let a = Text::from_str(alloc, a)?;
    let b = Text::from_str(alloc, b)?;
    texts_are_so(rt, &a, &b, wanted);
    Ok(())
}

#[test]
fn order_of_texts(rt: HostRuntime) -> Result<(), Fail> {
    for (i, a) in TEXTS.iter().enumerate() {
        for (j, b) in TEXTS.iter().enumerate() {
            characters_are_so(&rt, rt.alloc(), a, b, i.cmp(&j))?;
        }
    }
    Ok(())
}

/// The number, as the fault of a call that also took memory.
fn told(alloc: Global, number: u8) -> Result<(), Fault<u8>> {
    let _ = Boxed::new(alloc, number)?;
    Err(Fault::Told(number))
}

/// Whether this is what is told of a fault.
fn reads(alloc: Global, fault: Fault<u8>, text: &str) -> Result<bool, AllocError> {
    Ok(format!(in alloc; "{fault}")?.as_str() == text)
}

#[test]
fn faults(rt: HostRuntime) -> Result<(), Fail> {
    let alloc = rt.alloc();
    assert!(rt; told(alloc, 7) == Err(Fault::Told(7)));
    let wants: Fault<u8> = Fault::from(AllocError);
    assert!(rt; wants == Fault::NoMemory);
    assert!(rt; reads(alloc, wants, "out of memory")?);
    assert!(rt; reads(alloc, Fault::Told(7), "7")?);
    Ok(())
}

/// Three members, one of them put twice.
#[tactic(auto, using(sc_lists::proofs::OrderedLaws::none_ascends))]
fn members_put(alloc: Global) -> Result<Seq<u8>, AllocError>
    ensures { IfOk result (λ list. IsStrictlySortedBy nat_cmp list) }
{
    let mut list = Seq::new(alloc);
    members::put(&mut list, 5)?;
    members::put(&mut list, 9)?;
    members::put(&mut list, 2)?;
    members::put(&mut list, 5)?;
    Ok(list)
}

#[test]
fn members_in_order(rt: HostRuntime) -> Result<(), Fail> {
    let list = members_put(rt.alloc())?;
    assert!(rt; are(list.as_slice(), &[2, 5, 9]));
    assert!(rt; members::is_in(list.as_slice(), &9));
    assert!(rt; !members::is_in(list.as_slice(), &8));
    assert!(rt; members::ascending(list.as_slice()));
    assert!(rt; !members::ascending([2, 2].as_slice()));
    Ok(())
}

/// Two pairs, the value of one of them put twice.
#[tactic(auto, using(sc_lists::proofs::OrderedLaws::no_pair_ascends))]
fn pairs_put(alloc: Global) -> Result<Seq<(u8, u16)>, AllocError>
    ensures { IfOk result (λ list. IsStrictlySortedBy nat_cmp (keys_of list)) }
{
    let mut list = Seq::new(alloc);
    pairs::put(&mut list, 7, 700)?;
    pairs::put(&mut list, 3, 300)?;
    pairs::put(&mut list, 7, 701)?;
    Ok(list)
}

#[test]
fn pairs_in_order(rt: HostRuntime) -> Result<(), Fail> {
    let list = pairs_put(rt.alloc())?;
    assert!(rt; list.as_slice() == [(3, 300), (7, 701)].as_slice());
    assert!(rt; pairs::find(list.as_slice(), &7) == Some(&701));
    assert!(rt; pairs::find(list.as_slice(), &4).is_none());
    assert!(rt; pairs::place(list.as_slice(), &4) == Err(1));
    assert!(rt; pairs::ascending(list.as_slice()));
    assert!(rt; !pairs::ascending([(3, 1), (3, 2)].as_slice()));
    Ok(())
}
