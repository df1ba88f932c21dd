//! Steps of a kernel over any tables, and what each must give: a method that is called of a kernel over maps
//! takes some six seconds more to check.

use crate::tests::digits::{spells, unhex};
use crate::tests::listings::{Listed, are_names};
use crate::tests::{are_nodes, assert_right};
use fail_at::{FailAt, Outcome, Tried, first_wrong, judged};
use fk_kernel::{Answer, Call, KernelOf, Pick};
use fk_lookup_count::{CountTable, KernelNodes};
use fk_queues::{QueueTable, Queues};
use fk_wire::Opcode;
use fuse_frames::RequestFrame;
use fuse_spec::{Attributes, Dentry, IntrEffect, Kind, Purpose, Refusal, WriteResult};
use std::alloc::{AllocError, Allocator, Global};
use std::process::Abort;

mod aborts;
mod beginnings;
mod bytes;
mod init_replies;
mod listplus;
mod open_files;
mod operations;
mod paths;
mod signals;

/// The queues of a kernel's requests, over which a step is generic.
trait RequestQueues: QueueTable<Purpose> + Drop {}

impl<Q: QueueTable<Purpose> + Drop> RequestQueues for Q {}

/// A kernel's table of lookup counts.
trait LookupCounts: CountTable + Drop {}

impl<C: CountTable + Drop> LookupCounts for C {}

/// What a call is answered.
#[derive(Clone, Copy)]
enum Expected {
    Done,
    Errno(u32),
    Attributes(Attributes),
    Names(&'static [Listed]),
    /// This many names.
    NamesLength(usize),
    Bytes(&'static str),
    Written(u32),
}

/// What a read gives: a frame, one of which the unique and the opcode are known, or none.
#[derive(Clone, Copy)]
enum Reads {
    Frame(&'static str),
    Head(u64, Opcode),
    Refused(Refusal),
}

/// Bytes that are written. Frames are in hexadecimal digits, and a dot is four bytes of zeros; spaces are for reading
/// alone.
#[derive(Clone, Copy)]
enum Written {
    Whole(&'static str),
    /// A head, and a record this many times.
    Repeated(&'static str, &'static str, usize),
    /// This many bytes of a frame that has a byte more behind it, with their number as `len` or with the frame's own.
    Cut(&'static str, usize, bool),
}

/// A step, and what it must give.
#[derive(Clone, Copy)]
enum Row {
    Mount(Result<(), Refusal>),
    Abort(Result<(), Refusal>),
    /// A call begins, under a number.
    Begin(Call<'static>, Result<u64, Refusal>),
    /// The pending request at a place is read.
    Read(u64, Reads),
    /// The oldest INTERRUPT is read.
    Interrupt(Reads),
    /// This many forgets are read as one frame.
    Forget(u64, Reads),
    /// Bytes are written: what the writer gets.
    Write(Written, WriteResult),
    /// The time after this many milliseconds.
    Tick(u64, Result<u64, Refusal>),
    DropName(u64, &'static str, Result<(), Refusal>),
    /// A node is evicted: how many lookups are to be forgotten.
    Evict(u64, Result<u64, Refusal>),
    /// A signal to a call, fatal or not, and its effect.
    Signal(u64, bool, Result<IntrEffect, Refusal>),
    /// The lowest answered call, and its answer.
    Answered(u64, Expected),
    /// No call is answered, and this many are not.
    Unanswered(usize),
    /// The counted nodes in rising id, each with its generation and its count.
    Nodes(&'static [(u64, u64, u64)]),
    /// What a name is cached as.
    Cached(u64, &'static str, Option<Dentry>),
    /// The first cached name and its directory, if there is one.
    FirstCached(Option<(u64, &'static str)>),
    /// The number of the request that serves a call, if one does.
    Serves(u64, Option<u64>),
}

/// Mounts, and answers INIT.
static START: [Row; 4] = [
    Row::Mount(Ok(())),
    Row::Read(
        0,
        Reads::Frame("38000000 1a000000 02000000. ...... 07000000 1f000000 . 01200400"),
    ),
    Row::Begin(Call::Stat { path: b"/" }, Err(Refusal::NotReady)),
    Row::Write(
        Written::Whole(
            "50000000 . 02000000. 07000000 1f000000 . 01200400 0000 0000 00100000 01000000 0000 0000 ........",
        ),
        WriteResult::Accepted,
    ),
];

/// What a step results in that gives a number, or nothing.
fn gives<T: Copy + PartialEq>(given: Result<T, Refusal>, wanted: Result<T, Refusal>) -> Outcome {
    match (given, wanted) {
        (Ok(given), Ok(wanted)) => judged(given == wanted),
        (Err(Refusal::NoMemory), _) => Outcome::NoMemory,
        (Err(given), Err(wanted)) => judged(given == wanted),
        _ => Outcome::Wrong,
    }
}

fn is_frame<A: Allocator>(alloc: Global, frame: &RequestFrame<A>, wanted: Reads) -> bool {
    match wanted {
        Reads::Frame(text) => spells(alloc, frame.bytes(), text),
        Reads::Head(unique, opcode) => frame.head() == (unique, opcode),
        Reads::Refused(_) => false,
    }
}

fn is_refused(given: Refusal, wanted: Reads) -> bool {
    matches!(wanted, Reads::Refused(refusal) if refusal == given)
}

fn mounts<Q: RequestQueues, C: LookupCounts<Heap = Q::Heap>>(
    kernel: &mut KernelOf<Q, C>,
    wanted: Result<(), Refusal>,
) -> Outcome {
    gives(kernel.mount(), wanted)
}

fn aborts_as<Q: RequestQueues, C: LookupCounts<Heap = Q::Heap>>(
    kernel: &mut KernelOf<Q, C>,
    wanted: Result<(), Refusal>,
) -> Outcome {
    gives(kernel.abort(), wanted)
}

fn begins<Q: RequestQueues, C: LookupCounts<Heap = Q::Heap>>(
    kernel: &mut KernelOf<Q, C>,
    call: Call<'_>,
    wanted: Result<u64, Refusal>,
) -> Outcome {
    gives(kernel.begin(&call), wanted)
}

/// What a read comes to. Its frame is given back, so that the next one is written into its memory.
fn reads_as<Q: RequestQueues, C: LookupCounts<Heap = Q::Heap>>(
    kernel: &mut KernelOf<Q, C>,
    alloc: Global,
    pick: Pick,
    wanted: Reads,
) -> Outcome {
    match kernel.read(pick) {
        Ok(frame) => {
            let is_right = is_frame(alloc, &frame, wanted);
            kernel.reuse(frame);
            judged(is_right)
        }
        Err(Refusal::NoMemory) => Outcome::NoMemory,
        Err(refusal) => judged(is_refused(refusal, wanted)),
    }
}

/// A head, and a record this many times.
fn repeated(alloc: Global, head: &str, record: &str, count: usize) -> Result<Vec<u8>, AllocError> {
    let mut bytes = unhex(alloc, head)?;
    let record = unhex(alloc, record)?;
    for _record in 0..count {
        bytes.extend_from_slice(&record)?;
    }
    Ok(bytes)
}

/// This many bytes of a frame with a byte behind it, with their number as `len` or with the frame's own.
fn cut(alloc: Global, text: &str, len: usize, is_own: bool) -> Result<Vec<u8>, AllocError> {
    let mut frame = unhex(alloc, text)?;
    frame.push(0)?;
    let first = frame.get(..len).unwrap_or(&[]);
    if !is_own {
        return first.to_vec(alloc);
    }
    let mut bytes = Vec::new(alloc);
    bytes.extend_from_slice(&(len as u64).to_le_bytes()[..4])?;
    bytes.extend_from_slice(first.get(4..).unwrap_or(&[]))?;
    Ok(bytes)
}

fn bytes_of(alloc: Global, written: Written) -> Result<Vec<u8>, AllocError> {
    match written {
        Written::Whole(text) => unhex(alloc, text),
        Written::Repeated(head, record, count) => repeated(alloc, head, record, count),
        Written::Cut(text, len, is_own) => cut(alloc, text, len, is_own),
    }
}

fn writes<Q: RequestQueues, C: LookupCounts<Heap = Q::Heap>>(
    kernel: &mut KernelOf<Q, C>,
    bytes: &[u8],
    wanted: WriteResult,
) -> Outcome {
    gives(kernel.write(bytes), Ok(wanted))
}

fn writes_row<Q: RequestQueues, C: LookupCounts<Heap = Q::Heap>>(
    kernel: &mut KernelOf<Q, C>,
    alloc: Global,
    written: Written,
    wanted: WriteResult,
) -> Outcome {
    match bytes_of(alloc, written) {
        Ok(bytes) => writes(kernel, &bytes, wanted),
        Err(AllocError) => Outcome::Wrong,
    }
}

fn ticks<Q: RequestQueues, C: LookupCounts<Heap = Q::Heap>>(
    kernel: &mut KernelOf<Q, C>,
    milliseconds: u64,
    wanted: Result<u64, Refusal>,
) -> Outcome {
    gives(kernel.tick(milliseconds), wanted)
}

fn drops<Q: RequestQueues, C: LookupCounts<Heap = Q::Heap>>(
    kernel: &mut KernelOf<Q, C>,
    directory: u64,
    name: &str,
    wanted: Result<(), Refusal>,
) -> Outcome {
    gives(kernel.drop_binding(directory, name.as_bytes()), wanted)
}

fn evicts<Q: RequestQueues, C: LookupCounts<Heap = Q::Heap>>(
    kernel: &mut KernelOf<Q, C>,
    node: u64,
    wanted: Result<u64, Refusal>,
) -> Outcome {
    gives(kernel.evict(node), wanted)
}

fn interrupts<Q: RequestQueues, C: LookupCounts<Heap = Q::Heap>>(
    kernel: &mut KernelOf<Q, C>,
    call: u64,
    fatal: bool,
    wanted: Result<IntrEffect, Refusal>,
) -> Outcome {
    gives(kernel.interrupt(call, fatal), wanted)
}

fn is_answer<A: Allocator>(answer: &Answer<A>, expected: Expected) -> bool {
    match (answer, expected) {
        (Answer::Done, Expected::Done) => true,
        (Answer::Failed { errno: given }, Expected::Errno(errno)) => *given == errno,
        (Answer::Attributes(given), Expected::Attributes(attributes)) => *given == attributes,
        (Answer::Listing(given), Expected::Names(names)) => are_names(given, names),
        (Answer::Listing(given), Expected::NamesLength(count)) => given.len() == count,
        (Answer::Content(given), Expected::Bytes(text)) => given.as_slice() == text.as_bytes(),
        (Answer::Written { size: given }, Expected::Written(size)) => *given == size,
        _ => false,
    }
}

/// Whether the lowest answered call has this number and this answer.
fn answers<Q: RequestQueues, C: LookupCounts<Heap = Q::Heap>>(
    kernel: &mut KernelOf<Q, C>,
    number: u64,
    expected: Expected,
) -> bool {
    match kernel.collect() {
        Some((given, answer)) => given == number && is_answer(&answer, expected),
        None => false,
    }
}

fn are_unanswered<Q: RequestQueues, C: LookupCounts<Heap = Q::Heap>>(
    kernel: &KernelOf<Q, C>,
    calls: usize,
) -> bool {
    kernel.answered() == 0 && kernel.unanswered() == calls
}

fn lists<Q: RequestQueues, C: LookupCounts<Heap = Q::Heap>>(
    kernel: &KernelOf<Q, C>,
    heap: Q::Heap,
    nodes: &[(u64, u64, u64)],
) -> Outcome {
    match kernel.nodes(heap) {
        Ok(given) => judged(are_nodes(&given, nodes)),
        Err(AllocError) => Outcome::NoMemory,
    }
}

fn is_first_cached<Q: RequestQueues, C: LookupCounts<Heap = Q::Heap>>(
    kernel: &KernelOf<Q, C>,
    wanted: Option<(u64, &str)>,
) -> bool {
    match (kernel.first_cached_name(), wanted) {
        (Some((directory, name)), Some(wanted)) => {
            directory == wanted.0 && name == wanted.1.as_bytes()
        }
        (None, None) => true,
        _ => false,
    }
}

/// Whether a look gives what it must.
fn sees<Q: RequestQueues, C: LookupCounts<Heap = Q::Heap>>(
    kernel: &KernelOf<Q, C>,
    row: Row,
) -> bool {
    match row {
        Row::Unanswered(calls) => are_unanswered(kernel, calls),
        Row::Cached(directory, name, wanted) => {
            kernel.cached_name(directory, name.as_bytes()) == wanted
        }
        Row::FirstCached(wanted) => is_first_cached(kernel, wanted),
        Row::Serves(call, wanted) => kernel.request_for(call) == wanted,
        _ => false,
    }
}

/// What a step that gives a number, nothing or an answer comes to.
fn steps<Q: RequestQueues, C: LookupCounts<Heap = Q::Heap>>(
    kernel: &mut KernelOf<Q, C>,
    row: Row,
) -> Outcome {
    match row {
        Row::Mount(wanted) => mounts(kernel, wanted),
        Row::Abort(wanted) => aborts_as(kernel, wanted),
        Row::Begin(call, wanted) => begins(kernel, call, wanted),
        Row::Tick(milliseconds, wanted) => ticks(kernel, milliseconds, wanted),
        Row::DropName(directory, name, wanted) => drops(kernel, directory, name, wanted),
        Row::Evict(node, wanted) => evicts(kernel, node, wanted),
        Row::Signal(call, fatal, wanted) => interrupts(kernel, call, fatal, wanted),
        Row::Answered(number, expected) => judged(answers(kernel, number, expected)),
        _ => judged(sees(kernel, row)),
    }
}

impl<Q: RequestQueues, C: LookupCounts<Heap = Q::Heap>> Tried<Row, Q::Heap> for KernelOf<Q, C> {
    fn attempt(&mut self, heap: Q::Heap, alloc: Global, row: Row) -> Outcome {
        match row {
            Row::Read(place, wanted) => reads_as(self, alloc, Pick::Pending(place), wanted),
            Row::Interrupt(wanted) => reads_as(self, alloc, Pick::Interrupt, wanted),
            Row::Forget(count, wanted) => reads_as(self, alloc, Pick::Forgets(count), wanted),
            Row::Write(written, wanted) => writes_row(self, alloc, written, wanted),
            Row::Nodes(nodes) => lists(self, heap, nodes),
            _ => steps(self, row),
        }
    }
}

/// Tries the rows of some lists on a new kernel over any tables.
fn run_over<Q: RequestQueues, C: LookupCounts<Heap = Q::Heap>>(
    rt: &impl Abort,
    heap: Q::Heap,
    refusing: &FailAt<Global>,
    alloc: Global,
    lists: &[&[Row]],
    name: &str,
) {
    let mut kernel: KernelOf<Q, C> = KernelOf::new(heap);
    let wrong = first_wrong(&mut kernel, heap, refusing, alloc, lists);
    kernel.end();
    assert_right(rt, wrong, name);
}

/// Tries the rows of some lists on a new kernel over maps, which takes its memory from a heap.
fn run_on<A: Allocator + Copy>(
    rt: &impl Abort,
    heap: A,
    refusing: &FailAt<Global>,
    alloc: Global,
    lists: &[&[Row]],
    name: &str,
) {
    run_over::<Queues<Purpose, A>, KernelNodes<A>>(rt, heap, refusing, alloc, lists, name);
}

/// Tries the rows of some lists on a new kernel, and refuses no growth.
fn run_lists(rt: &impl Abort, alloc: Global, lists: &[&[Row]], name: &str) {
    let refusing = FailAt::new(alloc);
    run_on(rt, alloc, &refusing, alloc, lists, name);
}

/// The same of three lists.
fn run_three<'a>(
    rt: &impl Abort,
    alloc: Global,
    first: &'a [Row],
    second: &'a [Row],
    third: &'a [Row],
    name: &str,
) {
    run_lists(rt, alloc, &[first, second, third], name);
}

/// The same of two lists.
fn run_on_new(rt: &impl Abort, alloc: Global, first: &[Row], rows: &[Row], name: &str) {
    run_lists(rt, alloc, &[first, rows], name);
}

/// The same of the rows of one list on a kernel whose INIT is answered.
fn run_mounted(rt: &impl Abort, alloc: Global, rows: &[Row], name: &str) {
    run_on_new(rt, alloc, &START, rows, name);
}
