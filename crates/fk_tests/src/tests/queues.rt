//! The kernel's queues over each representation: each call once, and refused growths.

use crate::tests::assert_right;
use fail_at::{FailAt, Outcome, Tried, first_wrong, judged};
use fk_queues::{Forgets, IntrEffect, ListQueues, NoMemory, QueueTable, Queues};
use std::alloc::{Allocator, Global};
use std::process::Abort;
use std::test::Fail;

/// The forgets of a frame: its number, how many there are, the first and the last.
type Frame = (u64, usize, (u64, u64), (u64, u64));

/// A call, and what it must give. What is kept of a request is a number.
#[derive(Clone, Copy)]
enum Row {
    /// Room for this many requests and forgets is made.
    Reserve(usize, usize),
    NumbersLeft(u64),
    /// Room is made and a request queued, of which this is kept: its number.
    Queue(u64, u64),
    /// The pending request at a place: its number, and what is kept.
    Pending(usize, Option<(u64, u64)>),
    ReadPending(usize, Option<u64>),
    /// What is kept of the request under a number, read or not.
    Kept(u64, Option<u64>),
    /// What is kept of the request that was read under a number.
    Waiting(u64, Option<u64>),
    Answer(u64, Option<u64>),
    /// A signal to the request under a number, fatal or not.
    Interrupt(u64, bool, IntrEffect),
    FirstInterrupt(Option<u64>),
    ReadInterrupt(Option<u64>),
    Again(u64),
    NoInterrupts,
    /// Room is made and this many lookups of a node are to be forgotten.
    Forget(u64, u64),
    /// The same of each node from the first up to an end, each with lookups of its own.
    ForgetEach(u64, u64),
    /// This many forgets make no frame, looked at or read.
    NoForgets(usize),
    /// The frame is looked at, and then read.
    Forgets(Frame),
    /// The same of a frame with a number, of each node from the first up to an end.
    ForgetsOfEach(u64, u64, u64),
    Abort,
}

/// Makes room and queues a request, as a kernel does.
fn queue<Q: QueueTable<u64>>(queues: &mut Q, kept: u64) -> Result<u64, NoMemory> {
    queues.reserve(1, 0)?;
    if queues.numbers_left() == 0 {
        return Err(NoMemory);
    }
    Ok(queues.enqueue(kept))
}

/// Makes room and queues a forget.
fn queue_forget<Q: QueueTable<u64>>(queues: &mut Q, node: u64, count: u64) -> Result<(), NoMemory> {
    queues.reserve(0, 1)?;
    queues.forget(node, count);
    Ok(())
}

/// The lookups of one node among many.
fn lookups_of(node: u64) -> u64 {
    node.wrapping_mul(3)
}

/// Queues a forget of each node from the first up to an end, for which there is room.
fn queue_each<Q: QueueTable<u64>>(queues: &mut Q, first: u64, end: u64) -> Result<(), NoMemory> {
    for node in first..end {
        queue_forget(queues, node, lookups_of(node))?;
    }
    Ok(())
}

/// Whether these are the forgets of the frame.
fn is_frame(read: Option<(u64, Forgets)>, frame: Frame) -> bool {
    let Some((unique, forgets)) = read else {
        return false;
    };
    let pairs = forgets.as_slice();
    (unique, pairs.len()) == (frame.0, frame.1)
        && pairs.first().copied() == Some(frame.2)
        && pairs.last().copied() == Some(frame.3)
}

/// Looks at forgets and reads them: whether both give the frame.
fn reads_forgets<Q: QueueTable<u64>>(queues: &mut Q, frame: Frame) -> bool {
    if queues.numbers_left() == 0 {
        return false;
    }
    is_frame(queues.first_forgets(frame.1), frame) && is_frame(queues.read_forgets(frame.1), frame)
}

/// Whether these are the forgets of each node from the first up to an end, under the number.
fn is_of_each(read: Option<(u64, Forgets)>, unique: u64, first: u64, end: u64) -> bool {
    let Some((allocated, forgets)) = read else {
        return false;
    };
    let mut node = first;
    let mut is_right = allocated == unique;
    for pair in forgets.as_slice() {
        is_right = is_right && *pair == (node, lookups_of(node));
        node = node.wrapping_add(1);
    }
    is_right && node == end
}

/// Looks at forgets and reads them: whether both give those of each node from the first up to an end.
fn reads_of_each<Q: QueueTable<u64>>(queues: &mut Q, unique: u64, first: u64, end: u64) -> bool {
    let count = end.wrapping_sub(first) as usize;
    queues.numbers_left() != 0
        && is_of_each(queues.first_forgets(count), unique, first, end)
        && is_of_each(queues.read_forgets(count), unique, first, end)
}

/// Looks at forgets and reads them: whether neither gives any.
fn reads_none<Q: QueueTable<u64>>(queues: &mut Q, count: usize) -> bool {
    queues.numbers_left() != 0
        && queues.first_forgets(count).is_none()
        && queues.read_forgets(count).is_none()
}

/// A number and what is kept, by value.
fn by_value(found: Option<(u64, &u64)>) -> Option<(u64, u64)> {
    let (unique, kept) = found?;
    Some((unique, *kept))
}

/// What making room results in.
fn reserved(outcome: Result<(), NoMemory>) -> Outcome {
    match outcome {
        Ok(()) => Outcome::Right,
        Err(NoMemory) => Outcome::NoMemory,
    }
}

/// A call that changes the queues, and takes no memory.
fn changes<Q: QueueTable<u64>>(queues: &mut Q, row: Row) -> bool {
    match row {
        Row::ReadPending(place, unique) => queues.read_pending(place) == unique,
        Row::Answer(unique, kept) => queues.answer(unique) == kept,
        Row::Interrupt(unique, fatal, effect) => queues.interrupt(unique, fatal) == effect,
        Row::ReadInterrupt(unique) => queues.read_interrupt() == unique,
        Row::NoForgets(count) => reads_none(queues, count),
        Row::Forgets(frame) => reads_forgets(queues, frame),
        Row::ForgetsOfEach(unique, first, end) => reads_of_each(queues, unique, first, end),
        Row::Again(unique) => {
            queues.again(unique);
            true
        }
        Row::NoInterrupts => {
            queues.no_interrupts();
            true
        }
        Row::Abort => {
            queues.abort();
            true
        }
        _ => sees(queues, row),
    }
}

/// Whether a look gives what it must.
fn sees<Q: QueueTable<u64>>(queues: &Q, row: Row) -> bool {
    match row {
        Row::NumbersLeft(left) => queues.numbers_left() == left,
        Row::Pending(place, request) => by_value(queues.pending(place)) == request,
        Row::Kept(unique, kept) => queues.kept(unique).copied() == kept,
        Row::Waiting(unique, kept) => queues.waiting(unique).copied() == kept,
        Row::FirstInterrupt(unique) => queues.first_interrupt() == unique,
        _ => false,
    }
}

fn tried<Q: QueueTable<u64>>(queues: &mut Q, row: Row) -> Outcome {
    match row {
        Row::Reserve(requests, forgets) => reserved(queues.reserve(requests, forgets)),
        Row::Queue(kept, unique) => match queue(queues, kept) {
            Ok(given) => judged(given == unique),
            Err(NoMemory) => Outcome::NoMemory,
        },
        Row::Forget(node, count) => reserved(queue_forget(queues, node, count)),
        Row::ForgetEach(first, end) => reserved(queue_each(queues, first, end)),
        _ => judged(changes(queues, row)),
    }
}

/// Queues of any representation, on which the calls are tried.
struct Over<Q: QueueTable<u64>> {
    queues: Q,
}

impl<Q: QueueTable<u64>> Tried<Row, Q::Heap> for Over<Q> {
    fn attempt(&mut self, _heap: Q::Heap, _alloc: Global, row: Row) -> Outcome {
        tried(&mut self.queues, row)
    }
}

/// Requests are queued, read and looked at.
static REQUESTS: [Row; 13] = [
    Row::NumbersLeft(0x1fff_ffff_ffff_ffff),
    Row::Queue(70, 2),
    Row::Queue(71, 4),
    Row::Queue(72, 6),
    Row::Pending(1, Some((4, 71))),
    Row::ReadPending(1, Some(4)),
    Row::Pending(1, Some((6, 72))),
    Row::ReadPending(2, None),
    Row::Kept(2, Some(70)),
    Row::Kept(4, Some(71)),
    Row::Kept(8, None),
    Row::Waiting(4, Some(71)),
    Row::Waiting(2, None),
];

/// They are interrupted, answered and taken away.
static INTERRUPTED: [Row; 15] = [
    Row::Interrupt(4, false, IntrEffect::Queued),
    Row::Interrupt(6, false, IntrEffect::Flagged),
    Row::ReadPending(1, Some(6)),
    Row::FirstInterrupt(Some(4)),
    Row::ReadInterrupt(Some(4)),
    Row::Again(4),
    Row::ReadInterrupt(Some(6)),
    // its INTERRUPT leaves with the request
    Row::Answer(4, Some(71)),
    Row::Answer(4, None),
    Row::ReadInterrupt(None),
    Row::Again(6),
    Row::NoInterrupts,
    Row::FirstInterrupt(None),
    Row::Interrupt(2, true, IntrEffect::Dequeued),
    Row::Kept(2, None),
];

/// Forgets are queued and read.
static FORGETS: [Row; 10] = [
    Row::Reserve(100, 100),
    Row::Forget(9, 3),
    Row::Forget(8, 1),
    Row::Forget(7, 2),
    Row::NoForgets(0),
    Row::NoForgets(4),
    Row::NoForgets(65),
    Row::Forgets((8, 2, (9, 3), (8, 1))),
    Row::Forgets((10, 1, (7, 2), (7, 2))),
    Row::NumbersLeft(0x1fff_ffff_ffff_fffa),
];

/// Of 65 forgets 64 at most are read at once.
static MANY_FORGETS: [Row; 10] = [
    Row::Reserve(0, 65),
    Row::ForgetEach(11, 76),
    Row::NoForgets(0),
    Row::NoForgets(65),
    Row::NoForgets(66),
    Row::NumbersLeft(0x1fff_ffff_ffff_fffa),
    Row::ForgetsOfEach(12, 11, 75),
    Row::NoForgets(2),
    Row::ForgetsOfEach(14, 75, 76),
    Row::NumbersLeft(0x1fff_ffff_ffff_fff8),
];

/// After an abort all is as in a new mount.
static ABORTED: [Row; 8] = [
    Row::Abort,
    Row::Pending(0, None),
    Row::Waiting(6, None),
    Row::Kept(6, None),
    Row::NoForgets(1),
    Row::Queue(73, 2),
    Row::Interrupt(2, false, IntrEffect::Flagged),
    Row::Reserve(1000, 1000),
];

/// The calls, one list after another on the same queues.
fn calls() -> [&'static [Row]; 5] {
    [&REQUESTS, &INTERRUPTED, &FORGETS, &MANY_FORGETS, &ABORTED]
}

/// The calls on new queues of a representation.
fn run_calls<Q: QueueTable<u64> + Drop>(
    rt: &impl Abort,
    heap: Q::Heap,
    refusing: &FailAt<Global>,
    alloc: Global,
) {
    let mut over: Over<Q> = Over {
        queues: Q::new(heap),
    };
    let wrong = first_wrong(&mut over, heap, refusing, alloc, &calls());
    let Over { queues } = over;
    drop(queues);
    assert_right(rt, wrong, "calls");
}

/// The calls with each growth refused in turn: how many runs that took.
fn runs<Q: QueueTable<u64> + Drop>(
    rt: &impl Abort,
    heap: Q::Heap,
    refusing: &FailAt<Global>,
    alloc: Global,
) -> u64 {
    let mut runs = 0;
    for n in refusing.each_growth(60) {
        run_calls::<Q>(rt, heap, refusing, alloc);
        runs = n;
    }
    runs
}

/// Of each representation.
fn runs_of_each<A: Allocator + Copy>(
    rt: &impl Abort,
    heap: A,
    refusing: &FailAt<Global>,
    alloc: Global,
) -> [u64; 2] {
    let of_queues = runs::<Queues<u64, A>>(rt, heap, refusing, alloc);
    let of_lists = runs::<ListQueues<u64, A>>(rt, heap, refusing, alloc);
    [of_queues, of_lists]
}

#[test]
fn calls_with_each_growth_refused(rt: HostRuntime) -> Result<(), Fail> {
    let heap = FailAt::new(rt.alloc());
    let [of_queues, of_lists] = runs_of_each(&rt, &heap, &heap, rt.alloc());
    assert!(rt; 3 < of_queues && of_queues < 60, "queues");
    assert!(rt; 3 < of_lists && of_lists < 60, "lists");
    Ok(())
}
