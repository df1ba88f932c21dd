//! Frames that are refused, with an error reply and without, and INIT of a later kernel.

use crate::tests::frames::unhex;
use crate::tests::serve::session::{lent, serve_device};
use fuse_device::{DeviceEnd, ListDevice};
use std::alloc::{AllocError, Global};
use std::test::Fail;

/// Frames in digits, and what is sent to each: a reply, or nothing. They were laid out by the structs of linux/fuse.h.
static FRAMES: [(&str, &str); 13] = [
    // INIT of 104 bytes, of a kernel that speaks 7.45.
    (
        "680000001a00000002000000.......070000002d00000000000200fbffff73............",
        "50000000.02000000.070000001f000000.01200400.0010000001000000.........",
    ),
    // MKDIR.
    (
        "320000000900000004000000.01000000.....ed010000.6100",
        "90000000.04000000.02000000.01000000.01000000.....02000000..............ed41000001000000...00100000.",
    ),
    // a header that is cut off.
    ("380000000300000006000000.02000000....000000", ""),
    // another length than it says.
    ("390000000300000006000000.02000000.........", ""),
    // FLUSH, which is not served.
    (
        "400000001900000006000000.02000000...........",
        "10000000daffffff06000000.",
    ),
    // a body that is too short: GETATTR.
    (
        "370000000300000008000000.02000000........000000",
        "10000000fbffffff08000000.",
    ),
    // a name with a slash.
    (
        "2c000000010000000a000000.01000000.....612f6200",
        "10000000fbffffff0a000000.",
    ),
    // a node that is not held.
    (
        "38000000030000000c000000.09000000.........",
        "10000000fbffffff0c000000.",
    ),
    // FORGET of more lookups than were given.
    ("30000000020000000e000000.02000000.....02000000.", ""),
    // FORGET of a body that is too short.
    ("2c0000000200000010000000.02000000......", ""),
    // BATCH_FORGET of another count than it has.
    (
        "400000002a00000012000000.......02000000.02000000.01000000.",
        "",
    ),
    // INTERRUPT of a request that is not known: EAGAIN.
    (
        "300000002400000015000000.......14000000.",
        "10000000f5ffffff15000000.",
    ),
    // FORGET.
    ("300000000200000016000000.02000000.....01000000.", ""),
];

/// The frames and replies. Only here they are named: each function that names them costs what their texts cost.
fn frames() -> &'static [(&'static str, &'static str)] {
    &FRAMES
}

/// The frames in bytes.
fn frames_in_bytes(alloc: Global) -> Result<Vec<Vec<u8>>, AllocError> {
    let mut in_bytes = Vec::new(alloc);
    for (frame, _reply) in frames() {
        in_bytes.push(unhex(alloc, frame)?)?;
    }
    Ok(in_bytes)
}

/// The bytes of all that is sent.
fn replies_in_bytes(alloc: Global) -> Result<Vec<u8>, AllocError> {
    let mut replies = Vec::new(alloc);
    for (_frame, reply) in frames() {
        let reply = unhex(alloc, reply)?;
        replies.extend_from_slice(reply.as_slice())?;
    }
    Ok(replies)
}

/// Whether serving frames ends with their end, after these replies and with no node: the directory that MKDIR gave is
/// forgotten.
fn are_replied(alloc: Global, frames: &[&[u8]], replies: &[u8]) -> Result<bool, AllocError> {
    let mut device = ListDevice::new(alloc, frames);
    let served = serve_device(alloc, &mut device);
    let is_sent = device.sent() == replies;
    drop(device);
    let (end, nodes) = served?;
    Ok(is_sent && end == Some(DeviceEnd::Ended) && nodes.is_empty())
}

#[test]
fn faulty_frames_are_replied_or_not(rt: HostRuntime) -> Result<(), Fail> {
    let frames = frames_in_bytes(rt.alloc())?;
    let slices = lent(rt.alloc(), &frames)?;
    let replies = replies_in_bytes(rt.alloc())?;
    assert!(rt; are_replied(rt.alloc(), &slices, &replies)?);
    Ok(())
}
