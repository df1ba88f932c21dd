//! Rows on a world over plain lists.

use super::rows::{Row, lists};
use fw_script::run_lists;
use std::alloc::Global;
use std::process::Abort;
use std::test::Fail;

/// Whether a row prints on a world over plain lists what it must.
fn is_printed(alloc: Global, row: &Row, out: &mut Vec<u8>, faults: &mut Vec<u8>) -> bool {
    out.clear();
    let mut input = row.script.as_bytes();
    let hex = row.name.ends_with("-in-hex");
    let status = run_lists(alloc, "-", hex, &mut input, out, faults);
    status == 0 && faults.is_empty() && out.as_slice() == row.output.as_bytes()
}

fn check_printed(rt: &impl Abort, alloc: Global, rows: &[Row]) {
    let mut out = Vec::new(alloc);
    let mut faults = Vec::new(alloc);
    for row in rows {
        assert!(rt;
            is_printed(alloc, row, &mut out, &mut faults),
            "{}",
            row.name
        );
    }
}

#[test]
fn each_row_over_lists(rt: HostRuntime) -> Result<(), Fail> {
    for rows in lists() {
        check_printed(&rt, rt.alloc(), rows);
    }
    Ok(())
}
