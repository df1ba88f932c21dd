//! Names and numbers as keys of ordered maps.

use fuse_tables::{LentName, NameKey, NumberKey};
use std::alloc::{AllocError, Allocator};
use std::cmp::Ordering;
use std::collections::BTreeMap;
use std::test::Fail;

/// The first two and the next two have one front each, of names of several lengths; three are alike in more than eight
/// bytes; the front of the last two is the greatest number.
const NAMES: [&[u8]; 11] = [
    b"",
    b"\0",
    b"a",
    b"\0a",
    b"b",
    b"abcdefgh",
    b"abcdefghi",
    b"abcdefghj",
    b"abcdefghij",
    b"\xff\xff\xff\xff\xff\xff\xff\xff",
    b"\xff\xff\xff\xff\xff\xff\xff\xff\xff",
];

/// A map of each of the names to its place among them.
fn places<A: Allocator + Copy>(alloc: A) -> Result<BTreeMap<NameKey<A>, usize, A>, AllocError> {
    let mut map = BTreeMap::new(alloc);
    for (place, name) in NAMES.iter().enumerate() {
        let _none = map.insert(NameKey::new(name.to_vec(alloc)?), place)?;
    }
    Ok(map)
}

/// How many of the names lead to their own place.
fn count_found<A: Allocator>(map: &BTreeMap<NameKey<A>, usize, A>) -> usize {
    let mut found: usize = 0;
    for (place, name) in NAMES.iter().enumerate() {
        if map.get(LentName::of(name)) == Some(&place) {
            found = found.saturating_add(1);
        }
    }
    found
}

#[test]
fn each_name_is_a_key_of_its_own(rt: HostRuntime) -> Result<(), Fail> {
    let mut map = places(rt.alloc())?;
    assert!(rt; map.len() == 11 && count_found(&map) == 11);
    assert!(rt; map.get(LentName::of(b"abcdefg")).is_none());
    assert!(rt; map.get(LentName::of(b"abcdefghk")).is_none());
    assert!(rt; map.remove(LentName::of(b"a")) == Some(2));
    assert!(rt; map.get(LentName::of(b"a")).is_none() && count_found(&map) == 10);
    let again = map.insert(NameKey::new(b"abcdefgh".to_vec(rt.alloc())?), 20)?;
    assert!(rt; again == Some(5) && map.len() == 10);
    Ok(())
}

/// By the number of their first eight bytes, and then by all of them: `b` is before `abcdefgh`.
#[test]
fn names_stand_by_their_fronts(rt: HostRuntime) -> Result<(), Fail> {
    let map = places(rt.alloc())?;
    let mut order = Vec::new(rt.alloc());
    for (key, place) in &map {
        order.push(*place)?;
        assert!(rt; NAMES.get(*place) == Some(&key.name()) && map.get(key.lent()) == Some(place));
    }
    assert!(rt; order.as_slice() == [0, 1, 3, 2, 4, 5, 6, 8, 7, 9, 10].as_slice());
    Ok(())
}

#[test]
fn numbers_stand_in_their_order(rt: HostRuntime) -> Result<(), Fail> {
    let mut map = BTreeMap::new(rt.alloc());
    for number in [7_u64, 0, u64::MAX, 3] {
        let _none = map.insert(NumberKey(number), number / 3)?;
    }
    assert!(rt; map.get(&NumberKey(7)) == Some(&2) && map.get(&NumberKey(8)).is_none());
    let mut order = Vec::new(rt.alloc());
    for (key, _third) in &map {
        order.push(key.0)?;
    }
    assert!(rt; order.as_slice() == [0, 3, 7, u64::MAX].as_slice());
    assert!(rt; NumberKey(3).cmp(&NumberKey(7)) == Ordering::Less);
    assert!(rt; NumberKey(7).cmp(&NumberKey(3)) == Ordering::Greater);
    assert!(rt; NumberKey(3) == NumberKey(3) && NumberKey(3) != NumberKey(4));
    Ok(())
}
