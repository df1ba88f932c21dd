//! BATCH_FORGET of more than the 64 pairs that one has here.

use crate::tests::serve::session::{frames_of, lent, serve_device};
use fk_wire::RequestBody;
use fuse_device::ListDevice;
use fuse_spec::NodeCount;
use std::alloc::{AllocError, Global};
use std::test::Fail;

/// Puts a number in four bytes, the lowest first.
fn put(frame: &mut Vec<u8>, number: u32) -> Result<(), AllocError> {
    frame.extend_from_slice(&number.to_le_bytes())
}

/// The BATCH_FORGET of this many pairs, each of one lookup of node 2, that says that it has `count`.
fn batch_forget(alloc: Global, pairs: u32, count: u32) -> Result<Vec<u8>, AllocError> {
    let mut frame = Vec::new(alloc);
    let len = pairs.saturating_mul(16).saturating_add(48);
    for number in [len, 42, 1000, 0, 0, 0, 0, 0, 0, 0, count, 0] {
        put(&mut frame, number)?;
    }
    for _pair in 0..pairs {
        for number in [2, 0, 1, 0] {
            put(&mut frame, number)?;
        }
    }
    Ok(frame)
}

/// The nodes that are left after node 2 was looked up so often, and then forgotten by this frame.
fn left_after(alloc: Global, told: usize, batch: Vec<u8>) -> Result<Vec<NodeCount>, Fail> {
    let mut requests = vec![in alloc; (1, RequestBody::Lookup { name: b"a" }); told]?;
    if let Some(first) = requests.first_mut() {
        *first = (1, RequestBody::Mkdir { name: b"a" });
    }
    let mut frames = frames_of(alloc, &requests)?;
    frames.push(batch)?;
    let slices = lent(alloc, &frames)?;
    let mut device = ListDevice::new(alloc, &slices);
    let (_end, nodes) = serve_device(alloc, &mut device)?;
    Ok(nodes)
}

/// 64 pairs are one frame, 65 two, and 200 four. Of a batch that counts other pairs than it has, nothing is forgotten.
#[test]
fn long_batches_are_forgotten(rt: HostRuntime) -> Result<(), Fail> {
    let alloc = rt.alloc();
    for (told, pairs, count, left) in [
        (64, 64, 64, 0),
        (65, 65, 65, 0),
        (200, 200, 200, 0),
        (201, 200, 200, 1),
        (130, 128, 128, 2),
        (200, 200, 199, 200),
        (200, 200, 64, 200),
    ] {
        let nodes = left_after(alloc, told, batch_forget(alloc, pairs, count)?)?;
        let counted = nodes.first().map_or(0, |node| node.count);
        assert_eq!(rt; counted, left, "{pairs} pairs");
    }
    Ok(())
}
