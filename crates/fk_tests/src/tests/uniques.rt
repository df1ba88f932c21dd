//! Request numbers: each call once.

use fk_unique::{Uniques, interrupt_of, original_of};
use std::test::Fail;

/// Whether the first numbers of a mount are allocated.
fn allocates(uniques: &mut Uniques) -> bool {
    uniques.numbers_left() == 0x1fff_ffff_ffff_ffff
        && uniques.next() == Some(2)
        && uniques.next() == Some(4)
        && uniques.coming() == 6
        && uniques.numbers_left() == 0x1fff_ffff_ffff_fffd
}

#[test]
fn numbers_rise_from_2(rt: HostRuntime) -> Result<(), Fail> {
    assert!(rt; allocates(&mut Uniques::new()));
    assert!(rt; interrupt_of(4) == 5 && original_of(5) == 4 && original_of(4) == 4);
    Ok(())
}
