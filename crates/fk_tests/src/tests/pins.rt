//! Pins of nodes: of a table alone, and of the RELEASEs among the kernel's queues.

use fk_queues::{IntrEffect, KernelQueues, NoMemory, QueueTable, Queues};
use fuse_spec::{Opened, Purpose};
use fuse_tables::Tally;
use std::alloc::{AllocError, Allocator};
use std::process::Abort;
use std::test::Fail;

/// Two pins of a node, which go one after the other: whether it is pinned before, between and after.
fn pins_of_two<A: Allocator + Copy>(pins: &mut Tally<A>) -> Result<[bool; 4], AllocError> {
    pins.clear();
    pins.reserve(2)?;
    let before = pins.has(5);
    pins.add(5);
    pins.add(5);
    pins.take(5);
    let between = pins.has(5);
    let other = pins.has(6);
    pins.take(5);
    Ok([before, between, other, pins.has(5)])
}

#[test]
fn a_node_is_pinned_until_its_last_pin_goes(rt: HostRuntime) -> Result<(), Fail> {
    let mut pins = Tally::new(rt.alloc());
    assert!(rt; pins_of_two(&mut pins)? == [false, true, false, false]);
    Ok(())
}

/// Makes room and queues a request, as a kernel does.
fn queue<Q: QueueTable<Purpose>>(queues: &mut Q, kept: Purpose) -> Result<u64, NoMemory> {
    queues.reserve(1, 0)?;
    if queues.numbers_left() == 0 {
        return Err(NoMemory);
    }
    Ok(queues.enqueue(kept))
}

/// The RELEASE of an open file of node 5.
fn release(fh: u64) -> Purpose {
    Purpose::Release(Opened { nodeid: 5, fh })
}

/// A RELEASE, the request of call 7 and another RELEASE are queued, under 2, 4 and 6.
fn queue_three<Q: QueueTable<Purpose>>(queues: &mut Q) -> Result<[u64; 3], NoMemory> {
    let first = queue(queues, release(1))?;
    let call = queue(queues, Purpose::Call(7))?;
    let second = queue(queues, release(2))?;
    Ok([first, call, second])
}

/// Reads the oldest request and ends it: its number.
fn end_oldest<Q: QueueTable<Purpose>>(queues: &mut Q) -> Option<u64> {
    let unique = queues.read_pending(0)?;
    let _kept = queues.answer(unique)?;
    Some(unique)
}

/// Whether new queues say so of two RELEASEs of node 5 and of call 7, while none of them is ended.
fn pins_both<Q: QueueTable<Purpose>>(queues: &mut KernelQueues<Q>) -> bool {
    queue_three(queues) == Ok([2, 4, 6])
        && queues.is_releasing(5)
        && !queues.is_releasing(7)
        && queues.request_for(7) == Some(4)
        && queues.request_for(5).is_none()
}

/// Whether they say so up to the end of the last of them.
fn pins_until_the_last<Q: QueueTable<Purpose>>(queues: &mut KernelQueues<Q>) -> bool {
    end_oldest(queues) == Some(2)
        && queues.is_releasing(5)
        && queues.interrupt(4, true) == IntrEffect::Dequeued
        && queues.request_for(7).is_none()
        && end_oldest(queues) == Some(6)
        && !queues.is_releasing(5)
}

/// The same over any table of requests.
fn check_over<Q: QueueTable<Purpose> + Drop>(rt: &impl Abort, heap: Q::Heap) {
    let mut queues: KernelQueues<Q> = KernelQueues::new(heap);
    assert!(rt; pins_both(&mut queues), "both");
    assert!(rt; pins_until_the_last(&mut queues), "until the last");
}

#[test]
fn a_release_pins_its_node_until_it_is_answered(rt: HostRuntime) -> Result<(), Fail> {
    check_over::<Queues<Purpose, _>>(&rt, rt.alloc());
    Ok(())
}
