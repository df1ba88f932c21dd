//! What the devices of `fw_judged` write of small sessions, and what they do where memory runs out.

use fail_at::FailAt;
use fuse_device::{Device, DeviceEnd, ListDevice};
use fw_judged::{FaultCounts, JudgedDevice, JudgedServer};
use std::alloc::{Allocator, Global};
use std::test::Fail;

/// INIT 2 offers 7.31 with flag 1.
static INIT: [u8; 56] =
    *b"\x38\0\0\0\x1a\0\0\0\x02\0\0\0\0\0\0\0\0\0\0\0\0\0\0\0\0\0\0\0\0\0\0\0\0\0\0\0\0\0\0\0\
\x07\0\0\0\x1f\0\0\0\0\0\0\0\x01\0\0\0";

/// INIT is answered with 7.31, no flag, and a max_write of 4,096.
static ANSWER: [u8; 80] = *b"\x50\0\0\0\0\0\0\0\x02\0\0\0\0\0\0\0\
\x07\0\0\0\x1f\0\0\0\0\0\0\0\0\0\0\0\0\0\0\0\0\x10\0\0\x01\0\0\0\0\0\0\0\0\0\0\0\0\0\0\0\0\0\0\0\0\0\0\0\0\0\0\0\0\0\0\0\0\0\0\0\0\0\0\0";

/// FORGET 4 of one lookup of node 9, which nobody gave.
static FORGET: [u8; 48] =
    *b"\x30\0\0\0\x02\0\0\0\x04\0\0\0\0\0\0\0\x09\0\0\0\0\0\0\0\0\0\0\0\0\0\0\0\0\0\0\0\0\0\0\0\
\x01\0\0\0\0\0\0\0";

/// What is written of a kernel that forgets what it was not given.
const FORGOTTEN: &[u8] = b"frame 3: kernel: forget of more than is counted: node 9 lookups 1\n";

/// What is written of a server that answers twice.
const TWICE: &[u8] = b"frame 3: server: second reply: unique 2\n";

const NO_MEMORY: &[u8] = b"not judged from here on: no memory\n";

/// Whether INIT, its reply and the FORGET go over a device.
fn goes_over<D: Device>(judged: &mut D) -> bool {
    let mut room = [0; 128];
    let first = judged.receive(&mut room).unwrap_or(0);
    let sent = judged.send(&ANSWER).is_ok();
    let second = judged.receive(&mut room).unwrap_or(0);
    let has_ended = judged.receive(&mut room) == Err(DeviceEnd::Ended);
    first == 56 && sent && second == 48 && has_ended
}

/// The counts after these frames, and whether each went over the device inside.
fn judge_kernel<A: Allocator + Copy>(
    alloc: A,
    outer: Global,
    out: &mut Vec<u8>,
) -> (FaultCounts, bool) {
    let frames = [INIT.as_slice(), FORGET.as_slice()];
    let mut judged = JudgedDevice::new(alloc, ListDevice::new(outer, &frames), out);
    let went_over = goes_over(&mut judged);
    (judged.faults(), went_over)
}

/// INIT is sent, and two replies received.
fn ask_once<D: Device>(judged: &mut D) {
    let mut room = [0; 128];
    let _sent = judged.send(&INIT);
    let _first = judged.receive(&mut room);
    let _second = judged.receive(&mut room);
}

/// The counts after INIT and two replies.
fn judge_server<A: Allocator + Copy>(alloc: A, outer: Global, out: &mut Vec<u8>) -> FaultCounts {
    let frames = [ANSWER.as_slice(), ANSWER.as_slice()];
    let mut judged = JudgedServer::new(alloc, ListDevice::new(outer, &frames), out);
    ask_once(&mut judged);
    judged.faults()
}

#[test]
fn a_kernel_is_accused(rt: HostRuntime) -> Result<(), Fail> {
    let mut out = Vec::new(rt.alloc());
    let (faults, went_over) = judge_kernel(rt.alloc(), rt.alloc(), &mut out);
    assert!(rt; went_over);
    assert_eq!(rt; out.as_slice(), FORGOTTEN);
    assert!(rt; faults.has_fault() && faults.kernel == 1 && faults.server == 0);
    Ok(())
}

#[test]
fn a_server_is_accused(rt: HostRuntime) -> Result<(), Fail> {
    let mut out = Vec::new(rt.alloc());
    let faults = judge_server(rt.alloc(), rt.alloc(), &mut out);
    assert_eq!(rt; out.as_slice(), TWICE);
    assert!(rt;
        faults.has_fault() && faults.server == 1 && faults.kernel == 0 && faults.device == 0
    );
    Ok(())
}

#[test]
fn each_growth_refused(rt: HostRuntime) -> Result<(), Fail> {
    let alloc = rt.alloc();
    let heap = FailAt::new(alloc);
    let mut runs = 0;
    for n in heap.each_growth(200) {
        let mut out = Vec::new(alloc);
        let (faults, went_over) = judge_kernel(&heap, alloc, &mut out);
        let wanted = if heap.left() == 0 {
            NO_MEMORY
        } else {
            FORGOTTEN
        };
        assert!(rt; went_over && out.as_slice() == wanted);
        assert!(rt; faults.has_fault() == (heap.left() != 0));
        runs = n;
    }
    assert!(rt; 5 < runs && runs < 200, "{runs}");
    Ok(())
}
