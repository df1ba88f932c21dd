//! A table whose keys come in any order: each is found, and goes again, also where each growth is refused in turn.

use crate::tests::assert_between;
use fail_at::FailAt;
use fuse_tables::RisingTable;
use std::alloc::{AllocError, Allocator};
use std::test::Fail;

/// The key of a place: those of the first hundred places are a hundred numbers up to 100, in no order.
fn key_of(place: u64) -> u64 {
    place.wrapping_mul(37) % 101
}

/// Puts the keys of a hundred places. A growth that is refused is tried once more.
fn put_all<A: Allocator + Copy>(table: &mut RisingTable<u64, A>) -> Result<(), AllocError> {
    for place in 0..100 {
        if table.reserve(1).is_err() {
            table.reserve(1)?;
        }
        let key = key_of(place);
        if table.get(key).is_none() {
            table.put(key, place);
        }
    }
    Ok(())
}

/// How many places are found at their keys.
fn count_found<A: Allocator + Copy>(table: &RisingTable<u64, A>) -> u64 {
    let mut count: u64 = 0;
    for place in 0..100 {
        if table.get(key_of(place)) == Some(&place) {
            count = count.saturating_add(1);
        }
    }
    count
}

/// Takes out the keys of the places, the last one first: how many there were.
fn take_all<A: Allocator + Copy>(table: &mut RisingTable<u64, A>) -> u64 {
    let mut count: u64 = 0;
    for step in 0..100u64 {
        if table.remove(key_of(99u64.wrapping_sub(step))).is_some() {
            count = count.saturating_add(1);
        }
    }
    count
}

/// Puts another value, a thousand above, at each key from 0 to 100: how many had one.
fn replace_all<A: Allocator + Copy>(table: &mut RisingTable<u64, A>) -> u64 {
    let mut count: u64 = 0;
    for place in 0..101u64 {
        if table
            .replace(key_of(place), place.wrapping_add(1000))
            .is_some()
        {
            count = count.saturating_add(1);
        }
    }
    count
}

/// How many places are found at their keys, a thousand above.
fn count_replaced<A: Allocator + Copy>(table: &RisingTable<u64, A>) -> u64 {
    let mut count: u64 = 0;
    for place in 0..100u64 {
        if table.get(key_of(place)) == Some(&place.wrapping_add(1000)) {
            count = count.saturating_add(1);
        }
    }
    count
}

/// Keeps the even keys, and says how many there are.
fn keep_even<A: Allocator + Copy>(table: &mut RisingTable<u64, A>) -> usize {
    table.retain(|key| key % 2 == 0);
    table.len()
}

/// How many of a hundred values are replaced, how many keys are even, and how many values are found at them.
fn change<A: Allocator + Copy>(alloc: A) -> Result<[u64; 3], AllocError> {
    let mut table = RisingTable::new(alloc);
    let put = put_all(&mut table);
    let replaced = replace_all(&mut table);
    let even = keep_even(&mut table) as u64;
    let found = count_replaced(&table);
    drop(table);
    put?;
    Ok([replaced, even, found])
}

/// How many of a hundred keys a table has, finds and gives back, and has then, where each third key below 3 times `aside` has
/// a row set aside first.
fn fill<A: Allocator + Copy>(alloc: A, aside: u64) -> Result<[u64; 4], AllocError> {
    let mut table = RisingTable::new(alloc);
    if table.reserve(aside as usize).is_err() {
        table.reserve(aside as usize)?;
    }
    for step in 0..aside {
        table.set_aside(step.wrapping_mul(3), aside as usize);
    }
    let put = put_all(&mut table);
    let len = table.len() as u64;
    let found = count_found(&table);
    let taken = take_all(&mut table);
    let left = table.len() as u64;
    drop(table);
    put?;
    Ok([len, found, taken, left])
}

/// Puts a key as its own value, where it has none.
fn put_key<A: Allocator + Copy>(
    table: &mut RisingTable<u64, A>,
    key: u64,
) -> Result<(), AllocError> {
    table.reserve(1)?;
    if table.get(key).is_none() {
        table.put(key, key);
    }
    Ok(())
}

/// The keys 10 to 29, then every third one from 40 to 94, of which 52 is taken out, and at last 50, which comes late.
fn put_with_gaps<A: Allocator + Copy>(table: &mut RisingTable<u64, A>) -> Result<(), AllocError> {
    for key in 10..30u64 {
        put_key(table, key)?;
    }
    for step in 0..19u64 {
        put_key(table, step.wrapping_mul(3).wrapping_add(40))?;
    }
    let _emptied = table.remove(52);
    put_key(table, 50)
}

/// Adds a thousand to the value at a key, in its place: the value after that.
fn add_thousand<A: Allocator + Copy>(table: &mut RisingTable<u64, A>, key: u64) -> Option<u64> {
    let value = table.get_mut(key)?;
    *value = value.wrapping_add(1000);
    table.get(key).copied()
}

/// How many keys have themselves as their value.
fn count_unchanged<A: Allocator + Copy>(table: &RisingTable<u64, A>) -> u64 {
    let mut count: u64 = 0;
    for key in 0..100u64 {
        if table.get(key) == Some(&key) {
            count = count.saturating_add(1);
        }
    }
    count
}

/// The values at some keys after a thousand was added to each, and how many values stayed.
fn change_in_place<A: Allocator + Copy>(alloc: A) -> Result<([Option<u64>; 8], u64), AllocError> {
    let mut table = RisingTable::new(alloc);
    let put = put_with_gaps(&mut table);
    let changed = [
        add_thousand(&mut table, 10),
        add_thousand(&mut table, 94),
        add_thousand(&mut table, 20),
        add_thousand(&mut table, 61),
        add_thousand(&mut table, 50),
        add_thousand(&mut table, 52),
        add_thousand(&mut table, 42),
        add_thousand(&mut table, 5),
    ];
    let unchanged = count_unchanged(&table);
    drop(table);
    put?;
    Ok((changed, unchanged))
}

/// The even keys from 2 to 60.
fn put_by_two<A: Allocator + Copy>(table: &mut RisingTable<u64, A>) -> Result<(), AllocError> {
    for step in 1..31u64 {
        put_key(table, step.wrapping_mul(2))?;
    }
    Ok(())
}

/// The same of keys that rise by two, of which one in the middle and the first are taken out on the way.
fn change_by_two<A: Allocator + Copy>(alloc: A) -> Result<([Option<u64>; 10], u64), AllocError> {
    let mut table = RisingTable::new(alloc);
    let put = put_by_two(&mut table);
    let changed = [
        add_thousand(&mut table, 2),
        add_thousand(&mut table, 60),
        add_thousand(&mut table, 32),
        add_thousand(&mut table, 33),
        add_thousand(&mut table, 62),
        table.remove(32),
        add_thousand(&mut table, 32),
        table.remove(2),
        add_thousand(&mut table, 4),
        add_thousand(&mut table, 34),
    ];
    let unchanged = count_unchanged(&table);
    drop(table);
    put?;
    Ok((changed, unchanged))
}

/// How many entries the list of a table has, if their keys rise and each has its key as its value.
fn count_listed<A: Allocator + Copy>(alloc: A) -> Result<Option<usize>, AllocError> {
    let mut table = RisingTable::new(alloc);
    let put = put_with_gaps(&mut table);
    let listed = table.list(alloc);
    drop(table);
    put?;
    let listed = listed?;
    let mut last = 0;
    for (key, value) in &listed {
        if *key <= last || value != key {
            return Ok(None);
        }
        last = *key;
    }
    Ok(Some(listed.len()))
}

#[test]
fn keys_in_any_order_are_found(rt: HostRuntime) -> Result<(), Fail> {
    assert!(rt; fill(rt.alloc(), 0)? == [100, 100, 100, 0]);
    Ok(())
}

/// Of the numbers up to 100 no place has 64, so 50 of the even ones are left.
#[test]
fn values_are_replaced_and_keys_kept(rt: HostRuntime) -> Result<(), Fail> {
    assert!(rt; change(rt.alloc())? == [100, 50, 50]);
    Ok(())
}

/// The first key, the last, one where keys have no gaps, one behind gaps, and one that came late. Then one that was taken
/// out, one between others and one below all, which have no value. Of 39 values 5 are changed.
#[test]
fn values_are_changed_in_place(rt: HostRuntime) -> Result<(), Fail> {
    let (changed, unchanged) = change_in_place(rt.alloc())?;
    assert!(rt;
        changed
            == [
                Some(1010),
                Some(1094),
                Some(1020),
                Some(1061),
                Some(1050),
                None,
                None,
                None,
            ]
    );
    assert!(rt; unchanged == 34);
    Ok(())
}

/// The first key, the last, one in the middle, one between others and one above all; what is taken out in the middle, which
/// is gone then; the first, and two behind it. Of 30 values 2 are taken out, and 3 of the others changed.
#[test]
fn values_are_found_where_keys_rise_by_two(rt: HostRuntime) -> Result<(), Fail> {
    let (changed, unchanged) = change_by_two(rt.alloc())?;
    assert!(rt;
        changed
            == [
                Some(1002),
                Some(1060),
                Some(1032),
                None,
                None,
                Some(1032),
                None,
                Some(1002),
                Some(1004),
                Some(1034),
            ]
    );
    assert!(rt; unchanged == 25);
    Ok(())
}

/// One of the 39 keys came late.
#[test]
fn entries_are_listed_in_rising_key(rt: HostRuntime) -> Result<(), Fail> {
    assert!(rt; count_listed(rt.alloc())? == Some(39));
    Ok(())
}

#[test]
fn values_come_into_rows_that_were_set_aside(rt: HostRuntime) -> Result<(), Fail> {
    assert!(rt; fill(rt.alloc(), 34)? == [100, 100, 100, 0]);
    let heap = FailAt::new(rt.alloc());
    let mut runs = 0;
    for n in heap.each_growth(80) {
        assert!(rt; fill(&heap, 34)? == [100, 100, 100, 0], "growth {n}");
        runs = n;
    }
    assert_between(&rt, runs, 4, 80);
    Ok(())
}

#[test]
fn each_growth_of_a_table_refused(rt: HostRuntime) -> Result<(), Fail> {
    let heap = FailAt::new(rt.alloc());
    let mut runs = 0;
    for n in heap.each_growth(80) {
        assert!(rt; fill(&heap, 0)? == [100, 100, 100, 0], "growth {n}");
        runs = n;
    }
    assert_between(&rt, runs, 4, 80);
    Ok(())
}
