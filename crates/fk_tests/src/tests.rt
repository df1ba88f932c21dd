//! What no clause says: values from outside, that calls succeed, and refused growths.
//! What is large goes by a call of `drop`: at the end of a scope each way out would prove the drop of all its parts anew.

mod counts;
mod digits;
mod kernel;
mod listings;
mod names;
mod pins;
mod queues;
mod records;
mod uniques;
mod wire;

use fail_at::WrongRow;
use fuse_spec::NodeCount;
use std::process::Abort;

/// Asserts that each row came to what it must.
fn assert_right(rt: &impl Abort, wrong: Option<WrongRow>, name: &str) {
    let Some(WrongRow { list, row, growth }) = wrong else {
        return;
    };
    assert!(rt;
        wrong.is_none(),
        "{name}: row {row} of list {list}, with growth {growth} refused"
    );
}

/// Asserts that a run had more growths than the first number, and fewer than the second, which were tried at most.
fn assert_between(rt: &impl Abort, runs: u64, least: u64, most: u64) {
    assert!(rt; least < runs && runs < most, "{runs}");
}

/// Whether nodes are listed as these: their ids, generations and lookup counts.
fn are_nodes(given: &[NodeCount], wanted: &[(u64, u64, u64)]) -> bool {
    if given.len() != wanted.len() {
        return false;
    }
    for (node, wanted) in given.iter().zip(wanted) {
        if (node.nodeid, node.generation, node.count) != *wanted {
            return false;
        }
    }
    true
}
