//! The order of values, copies, sets, records, and which values are proper.
use crate::samples::uid;
use sc_decimal::Decimal;
use sc_ip::Ip;
use sc_lists::{Fault, Seq, Text};
use sc_values::{
    DuplicateKey, Rec, Set, Value, clone_rec, clone_set, cmp_value, contains, field, intersects,
    is_proper, is_proper_record, is_same, is_uid_text, rec_of, set_of, subset, try_clone,
};
use std::alloc::{AllocError, Global};

/// What a value is made of.
#[derive(Clone, Copy)]
enum Sample {
    Bool(bool),
    Long(i64),
    Text(&'static str),
    Entity(&'static str, &'static str),
    Set(&'static [i64]),
    Record(&'static [(&'static str, i64)]),
    Decimal(i64),
    V4(u32, u8),
    V6(u128, u8),
}

/// Values of all kinds, ascending.
const SAMPLES: &[Sample] = &[
    Sample::Bool(false),
    Sample::Bool(true),
    Sample::Long(-9223372036854775808),
    Sample::Long(-1),
    Sample::Long(0),
    Sample::Long(1),
    Sample::Long(9223372036854775807),
    Sample::Text(""),
    Sample::Text("a"),
    Sample::Text("aa"),
    Sample::Text("b"),
    Sample::Text("é"),
    Sample::Entity("A", "b"),
    Sample::Entity("A", "ba"),
    Sample::Entity("A::B", ""),
    Sample::Entity("B", "a"),
    Sample::Set(&[]),
    Sample::Set(&[1]),
    Sample::Set(&[2, 1]),
    Sample::Set(&[2]),
    Sample::Record(&[]),
    Sample::Record(&[("a", 1)]),
    Sample::Record(&[("b", 0), ("a", 1)]),
    Sample::Record(&[("a", 2)]),
    Sample::Decimal(-10),
    Sample::Decimal(0),
    Sample::Decimal(7),
    Sample::V4(0, 32),
    Sample::V4(1, 0),
    Sample::V4(1, 32),
    Sample::V6(0, 128),
    Sample::V6(1, 0),
];

fn put_long(values: &mut Vec<Value>, number: i64) -> Result<(), AllocError> {
    values.push(Value::Long(number))?;
    Ok(())
}

fn longs(alloc: Global, numbers: &[i64]) -> Result<Vec<Value>, AllocError> {
    let mut values = Vec::new(alloc);
    for n in numbers {
        put_long(&mut values, *n)?;
    }
    Ok(values)
}

fn set(alloc: Global, numbers: &[i64]) -> Result<Set, AllocError> {
    let members = longs(alloc, numbers)?;
    set_of(alloc, members.as_slice())
}

fn record(alloc: Global, fields: &[(&str, i64)]) -> Result<Rec, Fault<DuplicateKey>> {
    let mut pairs = Vec::new(alloc);
    for (name, n) in fields {
        pairs.push((Text::from_str(alloc, name)?, Value::Long(*n)))?;
    }
    rec_of(alloc, pairs.as_slice())
}

fn value_of(alloc: Global, sample: Sample) -> Result<Value, Fault<DuplicateKey>> {
    Ok(match sample {
        Sample::Bool(b) => Value::Bool(b),
        Sample::Long(n) => Value::Long(n),
        Sample::Text(text) => Value::String(Text::from_str(alloc, text)?),
        Sample::Entity(type_name, id) => Value::Entity(uid(alloc, (type_name, id))?),
        Sample::Set(numbers) => Value::Set(set(alloc, numbers)?),
        Sample::Record(fields) => Value::Record(record(alloc, fields)?),
        Sample::Decimal(n) => Value::Decimal(Decimal::from_ten_thousandths(n)),
        Sample::V4(address, prefix) => Value::Ip(Ip::V4 { address, prefix }),
        Sample::V6(address, prefix) => Value::Ip(Ip::V6 { address, prefix }),
    })
}

fn values_in_order(alloc: Global) -> Result<Vec<Value>, Fault<DuplicateKey>> {
    let mut values = Vec::new(alloc);
    for &sample in SAMPLES {
        values.push(value_of(alloc, sample)?)?;
    }
    Ok(values)
}

/// Whether a value, which stands at a place among others, comes behind those before it and before those
/// behind it.
fn is_in_place(place: usize, value: &Value, values: &[Value]) -> bool {
    for (i, other) in values.iter().enumerate() {
        if cmp_value(value, other) != place.cmp(&i) || is_same(value, other) != (place == i) {
            return false;
        }
    }
    true
}

/// The place of the first of values that doesn't stand in its place, counted from 0.
fn first_out_of_order(values: &[Value]) -> Option<usize> {
    for (place, value) in values.iter().enumerate() {
        if !is_in_place(place, value, values) {
            return Some(place);
        }
    }
    None
}

/// Whether the values of the samples are made, and ascend.
fn are_in_order(alloc: Global) -> bool {
    match values_in_order(alloc) {
        Ok(values) => first_out_of_order(values.as_slice()).is_none(),
        Err(_) => false,
    }
}

#[test]
fn order_of_values(rt: HostRuntime) {
    assert!(rt; are_in_order(rt.alloc()));
}

/// Whether a value is proper, and has a copy that is the same.
fn is_copied(alloc: Global, value: &Value) -> bool {
    match try_clone(alloc, value) {
        Ok(copy) => is_proper(&copy) && is_same(&copy, value),
        Err(_) => false,
    }
}

fn are_copied(alloc: Global, values: &[Value]) -> bool {
    for value in values {
        if !is_copied(alloc, value) {
            return false;
        }
    }
    true
}

/// Whether the values of the samples are made, and each has a copy.
fn have_copies(alloc: Global) -> bool {
    match values_in_order(alloc) {
        Ok(values) => are_copied(alloc, values.as_slice()),
        Err(_) => false,
    }
}

#[test]
fn copies_are_equal(rt: HostRuntime) {
    assert!(rt; have_copies(rt.alloc()));
}

/// Whether the copy of a set has these members in this order.
fn has_copy_of(alloc: Global, set: &Set, members: &[i64]) -> bool {
    match clone_set(alloc, set) {
        Ok(copy) => are_longs(copy.as_slice(), members),
        Err(_) => false,
    }
}

/// Whether the set of numbers has these members in this order, and so has its copy.
fn is_set_of(alloc: Global, numbers: &[i64], members: &[i64]) -> bool {
    match set(alloc, numbers) {
        Ok(found) => { are_longs(found.as_slice(), members) && has_copy_of(alloc, &found, members) }
        Err(_) => false,
    }
}

/// Whether values are just these numbers.
fn are_longs(values: &[Value], numbers: &[i64]) -> bool {
    values.len() == numbers.len()
        && values
            .iter()
            .zip(numbers)
            .all(|(value, n)| is_long(value, *n))
}

fn is_long(value: &Value, number: i64) -> bool {
    match value {
        Value::Long(n) => *n == number,
        _ => false,
    }
}

#[test]
fn sets_of_members(rt: HostRuntime) {
    assert!(rt; is_set_of(rt.alloc(), &[2, 1, 2], &[1, 2]));
    assert!(rt; is_set_of(rt.alloc(), &[], &[]));
}

fn has_number(set: &Set, number: i64) -> bool {
    contains(set, &Value::Long(number))
}

fn has_truth(set: &Set) -> bool {
    contains(set, &Value::Bool(true))
}

/// Whether the set of 3 and 2 has these members and no others.
fn has_two(alloc: Global) -> bool {
    match set(alloc, &[3, 2]) {
        Ok(two) => {
            has_number(&two, 3) && has_number(&two, 2) && !has_number(&two, 1) && !has_truth(&two)
        }
        Err(_) => false,
    }
}

#[test]
fn members_of_sets(rt: HostRuntime) {
    assert!(rt; has_two(rt.alloc()));
}

/// Whether one set is among the other as is said, and whether they meet.
fn are_related(first: &Set, second: &Set, among: bool, meet: bool) -> bool {
    subset(first, second) == among && intersects(first, second) == meet
}

fn is_related(alloc: Global, first: &Set, second: &[i64], among: bool, meet: bool) -> bool {
    match set(alloc, second) {
        Ok(second) => are_related(first, &second, among, meet),
        Err(_) => false,
    }
}

/// The same of the sets of numbers.
fn are_sets_related(alloc: Global, first: &[i64], second: &[i64], among: bool, meet: bool) -> bool {
    match set(alloc, first) {
        Ok(first) => is_related(alloc, &first, second, among, meet),
        Err(_) => false,
    }
}

/// Two sets each, whether the first is among the second, and whether they meet.
const RELATIONS: &[(&[i64], &[i64], bool, bool)] = &[
    (&[2], &[3, 2], true, true),
    (&[3, 2], &[2], false, true),
    (&[], &[2], true, false),
    (&[3, 2], &[], false, false),
    (&[], &[], true, false),
    (&[1, 3], &[1, 2, 3, 4], true, true),
    (&[1, 4], &[1, 2, 3], false, true),
    (&[1, 3], &[2, 3], false, true),
    (&[4], &[1, 2, 3], false, false),
    (&[0, 2, 4], &[1, 3, 5], false, false),
    (&[0, 2, 5], &[1, 3, 5], false, true),
];

#[test]
fn relations_of_sets(rt: HostRuntime) {
    for &(first, second, among, meet) in RELATIONS {
        assert!(rt; are_sets_related(rt.alloc(), first, second, among, meet));
    }
}

/// Numbers as a list in the order in which they are written.
fn list(alloc: Global, numbers: &[i64]) -> Result<Set, AllocError> {
    Ok(Seq::from_vec(longs(alloc, numbers)?))
}

fn is_list_related(alloc: Global, first: &Set, second: &[i64], among: bool, meet: bool) -> bool {
    match list(alloc, second) {
        Ok(second) => are_related(first, &second, among, meet),
        Err(_) => false,
    }
}

/// The same of two lists in the order in which they are written.
fn are_lists_related(
    alloc: Global,
    first: &[i64],
    second: &[i64],
    among: bool,
    meet: bool,
) -> bool {
    match list(alloc, first) {
        Ok(first) => is_list_related(alloc, &first, second, among, meet),
        Err(_) => false,
    }
}

/// Two lists each that don't both ascend, whether each member of the first is one of the second, and
/// whether they meet.
const LIST_RELATIONS: &[(&[i64], &[i64], bool, bool)] = &[
    (&[2, 1], &[1, 2], true, true),
    (&[1, 2], &[2, 1], true, true),
    (&[1, 1], &[1], true, true),
    (&[3, 2], &[1, 2], false, true),
    (&[3, 2], &[1, 4], false, false),
];

#[test]
fn relations_of_lists_out_of_order(rt: HostRuntime) {
    for &(first, second, among, meet) in LIST_RELATIONS {
        assert!(rt; are_lists_related(rt.alloc(), first, second, among, meet));
    }
}

/// The number in a field of a record of numbers, if it has the field.
fn long_at(fields: &Rec, name: &str) -> Option<i64> {
    match field(fields, name) {
        Some(Value::Long(n)) => Some(*n),
        _ => None,
    }
}

/// Whether a record is proper, and has just the field `a` of 2 and `b` of 1 among `a`, `b` and `c`.
fn has_fields(fields: &Rec) -> bool {
    is_proper_record(fields)
        && long_at(fields, "a") == Some(2)
        && long_at(fields, "b") == Some(1)
        && field(fields, "c").is_none()
}

fn is_record_of_two(alloc: Global) -> bool {
    match record(alloc, &[("b", 1), ("a", 2)]) {
        Ok(fields) => has_fields(&fields),
        Err(_) => false,
    }
}

#[test]
fn fields_of_records(rt: HostRuntime) {
    assert!(rt; is_record_of_two(rt.alloc()));
}

fn has_copied_fields(alloc: Global, fields: &Rec) -> bool {
    match clone_rec(alloc, fields) {
        Ok(copy) => copy.len() == 1 && long_at(&copy, "a") == Some(1),
        Err(_) => false,
    }
}

fn is_record_copied(alloc: Global) -> bool {
    match record(alloc, &[("a", 1)]) {
        Ok(fields) => has_copied_fields(alloc, &fields),
        Err(_) => false,
    }
}

#[test]
fn copies_of_records(rt: HostRuntime) {
    assert!(rt; is_record_copied(rt.alloc()));
}

/// Whether fields have this least key that comes twice.
fn comes_twice(alloc: Global, fields: &[(&str, i64)], least: &str) -> bool {
    match record(alloc, fields) {
        Err(Fault::Told(DuplicateKey { key })) => key.as_str() == least,
        _ => false,
    }
}

#[test]
fn keys_that_come_twice(rt: HostRuntime) {
    let alloc = rt.alloc();
    let fields = [("k", 1), ("c", 5), ("b", 3), ("k", 2), ("c", 4)];
    assert!(rt; comes_twice(alloc, &fields, "c"));
    assert!(rt; comes_twice(alloc, &[("k", 1), ("k", 2)], "k"));
}

/// Whether a set with these members in this order is made, and is proper just where that is said.
fn is_proper_list(alloc: Global, members: &[i64], proper: bool) -> bool {
    match list(alloc, members) {
        Ok(members) => is_proper(&Value::Set(members)) == proper,
        Err(_) => false,
    }
}

#[test]
fn members_of_proper_sets_ascend(rt: HostRuntime) {
    let alloc = rt.alloc();
    assert!(rt; is_proper_list(alloc, &[1, 2], true));
    assert!(rt; is_proper_list(alloc, &[2, 1], false));
    assert!(rt; is_proper_list(alloc, &[1, 1], false));
}

fn is_proper_address(address: u32, prefix: u8) -> bool {
    is_proper(&Value::Ip(Ip::V4 { address, prefix }))
}

fn has_uid_text(alloc: Global, of: (&str, &str)) -> bool {
    match uid(alloc, of) {
        Ok(uid) => is_uid_text(&uid),
        Err(_) => false,
    }
}

#[test]
fn what_is_proper_by_its_type(rt: HostRuntime) {
    assert!(rt; !is_proper_address(0, 33));
    assert!(rt; has_uid_text(rt.alloc(), ("A", "é")));
}
