//! Bytes fed to a cutter.

use fw_link::{Cutter, Damage};
use std::alloc::{AllocError, Global};
use std::test::Fail;

/// The envelope of LOOKUP `a` in the root under unique 4: 51 bytes.
pub(super) const REQUEST: [u8; 51] = [
    0, 0, 0, 0, 0, 0, 0, 0, 0, 42, 0, 0, 0, 1, 0, 0, 0, 4, 0, 0, 0, 0, 0, 0, 0, 1, 0, 0, 0, 0, 0,
    0, 0, 0, 0, 0, 0, 0, 0, 0, 0, 0, 0, 0, 0, 0, 0, 0, 0, 97, 0,
];

/// The same, and the first bytes of another.
const AND_MORE: [u8; 60] = [
    0, 0, 0, 0, 0, 0, 0, 0, 0, 42, 0, 0, 0, 1, 0, 0, 0, 4, 0, 0, 0, 0, 0, 0, 0, 1, 0, 0, 0, 0, 0,
    0, 0, 0, 0, 0, 0, 0, 0, 0, 0, 0, 0, 0, 0, 0, 0, 0, 0, 97, 0, 0, 0, 0, 0, 0, 0, 0, 0, 0,
];

/// Bytes fed at once to a new cutter, what it answers, and whether an envelope stands then.
struct Row {
    fed: &'static [u8],
    answer: Result<usize, Damage>,
    stands: bool,
}

static ROWS: [Row; 9] = [
    Row {
        fed: &REQUEST,
        answer: Ok(51),
        stands: true,
    },
    Row {
        fed: &AND_MORE,
        answer: Ok(51),
        stands: true,
    },
    Row {
        fed: &[],
        answer: Ok(0),
        stands: false,
    },
    Row {
        fed: &[3],
        answer: Err(Damage),
        stands: false,
    },
    // A reply of copy 1 whose frame would be of 15 bytes, and one of 16.
    Row {
        fed: &[1, 1, 0, 0, 0, 0, 0, 0, 0, 15, 0, 0, 0],
        answer: Err(Damage),
        stands: false,
    },
    Row {
        fed: &[1, 1, 0, 0, 0, 0, 0, 0, 0, 16, 0, 0, 0],
        answer: Ok(13),
        stands: false,
    },
    // Requests whose frames would be of 4,176 and of 4,177 bytes.
    Row {
        fed: &[0, 0, 0, 0, 0, 0, 0, 0, 0, 80, 16, 0, 0],
        answer: Ok(13),
        stands: false,
    },
    Row {
        fed: &[0, 0, 0, 0, 0, 0, 0, 0, 0, 81, 16, 0, 0],
        answer: Err(Damage),
        stands: false,
    },
    // Of twelve bytes the kind alone is judged.
    Row {
        fed: &[2, 0, 0, 0, 0, 0, 0, 0, 0, 255, 255, 255],
        answer: Ok(12),
        stands: false,
    },
];

/// Whether a cutter answers so, and an envelope stands then or does not; and whether it takes no more while one stands,
/// and nothing for good once it is damaged.
fn answers(alloc: Global, row: &Row) -> Result<bool, AllocError> {
    let mut cutter = Cutter::new(alloc)?;
    let is_answered = cutter.feed(row.fed) == row.answer
        && cutter.envelope().is_some() == row.stands;
    if row.stands {
        return Ok(is_answered && cutter.feed(&REQUEST) == Ok(0));
    }
    if row.answer.is_err() {
        cutter.done();
        return Ok(is_answered && cutter.feed(&REQUEST) == Err(Damage));
    }
    Ok(is_answered)
}

#[test]
fn fed_at_once(rt: HostRuntime) -> Result<(), Fail> {
    for (place, row) in ROWS.iter().enumerate() {
        assert!(rt; answers(rt.alloc(), row)?, "row {place}");
    }
    Ok(())
}

/// Whether a cutter takes the request's bytes one at a time, twice, with an envelope after the last alone.
fn takes_each_byte(alloc: Global) -> Result<bool, AllocError> {
    let mut cutter = Cutter::new(alloc)?;
    let mut is_right = true;
    for _ in 0..2u8 {
        for byte in &REQUEST {
            is_right = is_right && cutter.envelope().is_none() && cutter.feed(&[*byte]) == Ok(1);
        }
        let is_whole = match cutter.envelope() {
            Some(whole) => whole.kind == 0 && whole.copy == 0 && whole.frame == &REQUEST[9..],
            None => false,
        };
        is_right = is_right && is_whole;
        cutter.done();
    }
    Ok(is_right)
}

#[test]
fn fed_one_byte_at_a_time(rt: HostRuntime) -> Result<(), Fail> {
    assert!(rt; takes_each_byte(rt.alloc())?);
    Ok(())
}
