//! Each growth of the server's memory is refused in turn.

use crate::tests::serve::session::{lent, serve_device, session};
use crate::tests::serve::told::{Told, told_by};
use fail_at::FailAt;
use fuse_device::ListDevice;
use fuse_spec::NodeCount;
use std::alloc::{AllocError, Global};
use std::test::Fail;

/// ENOMEM, as a reply has it.
const ENOMEM: i32 = -12;

/// How many replies say that memory runs out.
fn refusals(told: &Told) -> usize {
    told.errors
        .iter()
        .filter(|(error, _)| *error == ENOMEM)
        .count()
}

/// Whether each of the seven requests was answered, and each node counted as often as it was given.
fn are_counted(nodes: &[NodeCount], told: &Told) -> bool {
    let mut counts = 0u64;
    for node in nodes {
        if node.count != told.count(node.nodeid) {
            return false;
        }
        counts = counts.wrapping_add(node.count);
    }
    told.errors.len() == 7 && counts == told.nodes.len() as u64
}

/// How many requests are replied ENOMEM, with the nodes that are left; or 1 where serving itself is refused memory, and
/// no nodes are known. `None` where the nodes are not counted so, or a request is replied ENOMEM beside that.
fn refused_of(nodes: Option<&[NodeCount]>, told: &Told) -> Option<u64> {
    let refused = refusals(told) as u64;
    match nodes {
        Some(nodes) if are_counted(nodes, told) => Some(refused),
        None if refused == 0 => Some(1),
        _ => None,
    }
}

/// Serves the session in a turn: how many requests are replied ENOMEM, or 1 where serving itself is refused memory;
/// `None` where it went wrong.
fn refused_in(
    heap: &FailAt<Global>,
    alloc: Global,
    slices: &[&[u8]],
) -> Result<Option<u64>, AllocError> {
    let mut device = ListDevice::new(alloc, slices);
    let served = serve_device(heap, &mut device);
    let told = told_by(alloc, device.sent());
    drop(device);
    let Some(told) = told? else {
        return Ok(None);
    };
    Ok(match served {
        Ok((_end, nodes)) => refused_of(Some(&nodes), &told),
        Err(AllocError) => refused_of(None, &told),
    })
}

/// In each turn but the last one growth is refused: before the first frame or in the list of nodes, or one request is
/// replied ENOMEM, and the others are served.
#[test]
fn each_growth_is_refused(rt: HostRuntime) -> Result<(), Fail> {
    let frames = session(rt.alloc())?;
    let slices = lent(rt.alloc(), &frames)?;
    let heap = FailAt::new(rt.alloc());
    let mut turns = 0;
    let mut refused = 0u64;
    for turn in heap.each_growth(200) {
        let more = refused_in(&heap, rt.alloc(), &slices)?;
        assert!(rt; more.is_some(), "turn {turn}");
        refused = refused.wrapping_add(more.unwrap_or(0));
        turns = turn;
    }
    assert!(rt; turns < 200);
    assert!(rt; refused.wrapping_add(1) == turns, "{refused} {turns}");
    Ok(())
}
