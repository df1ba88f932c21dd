//! Steps of a server over frames, and what each must give.

use crate::tests::{are_nodes, assert_between, assert_right};
use fail_at::{FailAt, Outcome, Tried, first_wrong, judged};
use fk_wire::{Request, RequestBody, write_request};
use fs_nodes::{ListNodes, NodeStore, NodeTable};
use fs_server::{ServerFault, ServerOf};
use fuse_frames::Sent;
use fuse_spec::limits::MAX_VALIDITY;
use fuse_spec::{Minor, Refusal, Taken, WriteResult};
use std::alloc::{AllocError, Allocator, Global};
use std::process::Abort;

/// What a request asks, with names and bytes as text.
#[derive(Clone, Copy)]
pub enum Asks {
    Lookup(&'static str),
    Getattr,
    Mkdir(&'static str),
    Create(&'static str),
    Unlink(&'static str),
    Rmdir(&'static str),
    /// The old name, the new directory and the new name.
    Rename(&'static str, u64, &'static str),
    /// The node that gets the name.
    Link(u64, &'static str),
    Open,
    /// The file handle, the offset and the size.
    Read(u64, u64, u32),
    Write(u64, u64, &'static str),
    Release(u64),
    /// The offset and the size.
    Readdir(u64, u32),
    Readdirplus(u64, u32),
}

/// A step, and what it must give. Frames are in hexadecimal digits, and a dot is four bytes of
/// zeros; spaces are for reading alone.
#[derive(Clone, Copy)]
pub enum Row {
    /// A mount: how long found and missing names are valid, in milliseconds.
    Mount(u64, u64),
    /// A mount of a server that speaks minor 15.
    Mount15(u64, u64),
    Abort,
    /// A request is held: its unique, its node and what it asks.
    Holds(u64, u64, Asks),
    /// A frame is taken: what became of it.
    Takes(&'static str, Taken),
    /// A frame is answered at once: by this frame.
    Answers(&'static str, &'static str),
    /// A frame is refused: the fault, and the error reply, if there is one.
    Refuses(&'static str, ServerFault, Option<&'static str>),
    /// A held request is performed: its unique, the error number and the reply's frame.
    Performs(u64, u32, &'static str),
    /// A held request is performed after an abort: its unique and the error number.
    Lost(u64, u32),
    /// No request is held under a unique.
    Unheld(u64),
    /// One more copy of a kept reply is sent: its frame.
    Again(u64, &'static str),
    /// No copy is sent under a unique.
    NoCopy(u64),
    /// A copy, by its number, is settled with a result.
    Settles(u64, WriteResult),
    /// A copy is not there to be settled.
    NoSettle(u64),
    /// The nodes in rising nodeid, each with its generation and its count.
    Nodes(&'static [(u64, u64, u64)]),
}

/// The body of a request.
fn body_of(asks: Asks) -> RequestBody<'static> {
    match asks {
        Asks::Lookup(name) => RequestBody::Lookup {
            name: name.as_bytes(),
        },
        Asks::Getattr => RequestBody::Getattr,
        Asks::Mkdir(name) => RequestBody::Mkdir {
            name: name.as_bytes(),
        },
        Asks::Create(name) => RequestBody::Create {
            name: name.as_bytes(),
        },
        Asks::Unlink(name) => RequestBody::Unlink {
            name: name.as_bytes(),
        },
        Asks::Rmdir(name) => RequestBody::Rmdir {
            name: name.as_bytes(),
        },
        Asks::Rename(old, newdir, new) => RequestBody::Rename {
            newdir,
            old: old.as_bytes(),
            new: new.as_bytes(),
        },
        Asks::Link(oldnodeid, name) => RequestBody::Link {
            oldnodeid,
            name: name.as_bytes(),
        },
        Asks::Open => RequestBody::Open,
        Asks::Read(fh, offset, size) => RequestBody::Read { fh, offset, size },
        Asks::Write(fh, offset, text) => RequestBody::Write {
            fh,
            offset,
            bytes: text.as_bytes(),
        },
        Asks::Release(fh) => RequestBody::Release { fh },
        Asks::Readdir(offset, size) => RequestBody::Readdir { offset, size },
        Asks::Readdirplus(offset, size) => RequestBody::Readdirplus { offset, size },
    }
}

/// The bytes of a text: hexadecimal digits and dots, each of which is four bytes of zeros. What is neither is for reading
/// alone.
pub fn unhex(alloc: Global, text: &str) -> Result<Vec<u8>, AllocError> {
    let mut digits = Vec::new(alloc);
    for byte in text.as_bytes() {
        if *byte == b'.' {
            digits.extend_from_slice(b"00000000")?;
        } else if byte.is_ascii_hexdigit() {
            digits.push(*byte)?;
        }
    }
    match hex::decode(alloc, digits.as_slice()) {
        Ok(bytes) => Ok(bytes),
        Err(_) => Err(AllocError),
    }
}

/// Whether bytes are those of a text.
pub fn spells(alloc: Global, bytes: &[u8], text: &str) -> bool {
    match unhex(alloc, text) {
        Ok(wanted) => wanted.as_slice() == bytes,
        Err(_) => false,
    }
}

/// What a copy results in, of which the frame is given.
fn copied<A: Allocator>(alloc: Global, sent: Option<&Sent<A>>, text: &str) -> Outcome {
    match sent {
        Some(sent) => judged(spells(alloc, sent.bytes(), text)),
        None => Outcome::Wrong,
    }
}

fn takes<S: NodeStore>(server: &mut ServerOf<S>, frame: &[u8], word: Taken) -> Outcome {
    match server.take(frame) {
        Ok(taken) => judged(taken.word == word && taken.sent.is_none()),
        Err(ServerFault::Memory) => Outcome::NoMemory,
        Err(_) => Outcome::Wrong,
    }
}

fn holds<S: NodeStore>(
    server: &mut ServerOf<S>,
    alloc: Global,
    unique: u64,
    nodeid: u64,
    asks: Asks,
) -> Outcome {
    let body = body_of(asks);
    let request = Request {
        unique,
        nodeid,
        body,
    };
    let mut frame = Vec::new(alloc);
    match write_request(&mut frame, &request) {
        Ok(()) => takes(server, &frame, Taken::Held),
        Err(_) => Outcome::Wrong,
    }
}

fn answers<S: NodeStore>(
    server: &mut ServerOf<S>,
    alloc: Global,
    frame: &[u8],
    text: &str,
) -> Outcome {
    match server.take(frame) {
        Ok(taken) if taken.word == Taken::Again => copied(alloc, taken.sent.as_ref(), text),
        Err(ServerFault::Memory) => Outcome::NoMemory,
        _ => Outcome::Wrong,
    }
}

/// Whether a server's error reply to a faulty frame is this one, or there is none.
pub fn is_fault_reply<S: NodeStore>(
    server: &ServerOf<S>,
    alloc: Global,
    frame: &[u8],
    fault: ServerFault,
    text: Option<&str>,
) -> bool {
    match (server.fault_reply(frame, fault), text) {
        (Some(reply), Some(text)) => spells(alloc, &reply, text),
        (None, None) => true,
        _ => false,
    }
}

fn refuses<S: NodeStore>(
    server: &mut ServerOf<S>,
    alloc: Global,
    frame: &[u8],
    fault: ServerFault,
    text: Option<&str>,
) -> Outcome {
    match server.take(frame) {
        Ok(_) => Outcome::Wrong,
        Err(given) => {
            judged(given == fault && is_fault_reply(server, alloc, frame, fault, text))
        }
    }
}

fn performs<S: NodeStore>(
    server: &mut ServerOf<S>,
    alloc: Global,
    unique: u64,
    errno: u32,
    text: &str,
) -> Outcome {
    match server.perform(unique) {
        Ok(done) if done.errno == errno => copied(alloc, done.sent.as_ref(), text),
        Err(Refusal::NoMemory) => Outcome::NoMemory,
        _ => Outcome::Wrong,
    }
}

fn is_lost<S: NodeStore>(server: &mut ServerOf<S>, unique: u64, errno: u32) -> Outcome {
    match server.perform(unique) {
        Ok(done) => judged(done.errno == errno && done.sent.is_none()),
        Err(Refusal::NoMemory) => Outcome::NoMemory,
        Err(_) => Outcome::Wrong,
    }
}

/// What a further copy comes to. It is given back, so that the next reply is written into its memory.
fn copies_again<S: NodeStore>(
    server: &mut ServerOf<S>,
    alloc: Global,
    unique: u64,
    text: &str,
) -> Outcome {
    match server.again(unique) {
        Ok(sent) => {
            let is_right = spells(alloc, sent.bytes(), text);
            server.reuse(sent);
            judged(is_right)
        }
        Err(Refusal::NoMemory) => Outcome::NoMemory,
        Err(_) => Outcome::Wrong,
    }
}

fn lists<S: NodeStore>(server: &ServerOf<S>, heap: S::Heap, nodes: &[(u64, u64, u64)]) -> Outcome {
    server.lemma_sound();
    match server.nodes(heap) {
        Ok(given) => judged(are_nodes(&given, nodes)),
        Err(AllocError) => Outcome::NoMemory,
    }
}

fn mounts<S: NodeStore>(
    server: &mut ServerOf<S>,
    found_ms: u64,
    missing_ms: u64,
    minor: Minor,
) -> bool {
    if found_ms > MAX_VALIDITY || missing_ms > MAX_VALIDITY {
        return false;
    }
    server.remount(found_ms, missing_ms, minor);
    !server.is_aborted() && server.minor() == minor
}

fn aborts<S: NodeStore>(server: &mut ServerOf<S>) -> bool {
    server.connection_lost();
    server.is_aborted()
}

/// Whether the server says of a frame, before it is taken, what a row has of it: why it is refused, and whether it is
/// answered.
fn is_foretold<S: NodeStore>(server: &ServerOf<S>, frame: &[u8], row: Row) -> bool {
    let refusal = server.take_refusal(frame);
    let is_answered = server.take_answers(frame);
    match row {
        Row::Takes(_, _) => refusal.is_none() && !is_answered,
        Row::Answers(_, _) => refusal.is_none() && is_answered,
        Row::Refuses(_, fault, _) => refusal == Some(fault) && !is_answered,
        _ => false,
    }
}

/// The step of a row that takes a frame.
fn take_row<S: NodeStore>(
    server: &mut ServerOf<S>,
    alloc: Global,
    frame: &[u8],
    row: Row,
) -> Outcome {
    if !is_foretold(server, frame, row) {
        return Outcome::Wrong;
    }
    match row {
        Row::Takes(_, word) => takes(server, frame, word),
        Row::Answers(_, text) => answers(server, alloc, frame, text),
        Row::Refuses(_, fault, text) => refuses(server, alloc, frame, fault, text),
        _ => Outcome::Wrong,
    }
}

/// The same, of which the frame is given in digits.
fn take_digits<S: NodeStore>(
    server: &mut ServerOf<S>,
    alloc: Global,
    digits: &str,
    row: Row,
) -> Outcome {
    match unhex(alloc, digits) {
        Ok(frame) => take_row(server, alloc, &frame, row),
        Err(_) => Outcome::Wrong,
    }
}

/// Whether nothing is held under a unique.
fn is_unheld<S: NodeStore>(server: &mut ServerOf<S>, unique: u64) -> bool {
    server.perform(unique).err() == Some(Refusal::NoSuch)
}

/// Whether no copy is sent under a unique.
fn has_no_copy<S: NodeStore>(server: &mut ServerOf<S>, unique: u64) -> bool {
    server.again(unique).err() == Some(Refusal::NoCopy)
}

fn settles<S: NodeStore>(
    server: &mut ServerOf<S>,
    copy: u64,
    settled: WriteResult,
    wanted: Result<(), Refusal>,
) -> bool {
    server.settle(copy, settled) == wanted
}

/// A step that is done or not.
fn is_done<S: NodeStore>(server: &mut ServerOf<S>, row: Row) -> bool {
    match row {
        Row::Mount(found_ms, missing_ms) => mounts(server, found_ms, missing_ms, Minor::M31),
        Row::Mount15(found_ms, missing_ms) => mounts(server, found_ms, missing_ms, Minor::M15),
        Row::Abort => aborts(server),
        Row::Unheld(unique) => is_unheld(server, unique),
        Row::NoCopy(unique) => has_no_copy(server, unique),
        Row::Settles(copy, result) => settles(server, copy, result, Ok(())),
        Row::NoSettle(copy) => {
            settles(server, copy, WriteResult::Accepted, Err(Refusal::NoSuch))
        }
        _ => false,
    }
}

impl<S: NodeStore> Tried<Row, S::Heap> for ServerOf<S> {
    fn attempt(&mut self, heap: S::Heap, alloc: Global, row: Row) -> Outcome {
        match row {
            Row::Holds(unique, nodeid, asks) => holds(self, alloc, unique, nodeid, asks),
            Row::Takes(digits, _) | Row::Answers(digits, _) | Row::Refuses(digits, _, _) => {
                take_digits(self, alloc, digits, row)
            }
            Row::Performs(unique, errno, text) => performs(self, alloc, unique, errno, text),
            Row::Lost(unique, errno) => is_lost(self, unique, errno),
            Row::Again(unique, text) => copies_again(self, alloc, unique, text),
            Row::Nodes(nodes) => lists(self, heap, nodes),
            _ => judged(is_done(self, row)),
        }
    }
}

/// A server, which is made again where a growth of it was refused.
fn made<S: NodeStore>(heap: S::Heap) -> Result<ServerOf<S>, AllocError> {
    match ServerOf::new(heap) {
        Ok(server) => Ok(server),
        Err(AllocError) => ServerOf::new(heap),
    }
}

/// Tries the rows of two lists on a new server, whose heap may refuse a growth.
fn run_made<S: NodeStore + Drop>(
    rt: &impl Abort,
    heap: S::Heap,
    refusing: &FailAt<Global>,
    alloc: Global,
    first: &[Row],
    rows: &[Row],
    name: &str,
) -> Result<(), AllocError> {
    let mut server = made::<S>(heap)?;
    let wrong = first_wrong(&mut server, heap, refusing, alloc, &[first, rows]);
    server.end();
    assert_right(rt, wrong, name);
    Ok(())
}

/// The same over the table of nodes. Only here and below is it over one type: each such call is checked anew.
fn run_table<A: Allocator + Copy>(
    rt: &impl Abort,
    heap: A,
    refusing: &FailAt<Global>,
    alloc: Global,
    first: &[Row],
    rows: &[Row],
    name: &str,
) -> Result<(), AllocError> {
    run_made::<NodeTable<A>>(rt, heap, refusing, alloc, first, rows, name)
}

/// The same over the list of nodes.
fn run_list<A: Allocator + Copy>(
    rt: &impl Abort,
    heap: A,
    refusing: &FailAt<Global>,
    alloc: Global,
    first: &[Row],
    rows: &[Row],
    name: &str,
) -> Result<(), AllocError> {
    run_made::<ListNodes<A>>(rt, heap, refusing, alloc, first, rows, name)
}

/// Tries the rows of two lists on new servers with each growth refused in turn, over the table of nodes: how many runs
/// that took.
fn runs_of_table<A: Allocator + Copy>(
    rt: &impl Abort,
    heap: A,
    refusing: &FailAt<Global>,
    alloc: Global,
    first: &[Row],
    rows: &[Row],
    name: &str,
) -> Result<u64, AllocError> {
    let mut runs = 0;
    for n in refusing.each_growth(400) {
        run_table(rt, heap, refusing, alloc, first, rows, name)?;
        runs = n;
    }
    Ok(runs)
}

/// The same over the list of nodes.
fn runs_of_list<A: Allocator + Copy>(
    rt: &impl Abort,
    heap: A,
    refusing: &FailAt<Global>,
    alloc: Global,
    first: &[Row],
    rows: &[Row],
    name: &str,
) -> Result<u64, AllocError> {
    let mut runs = 0;
    for n in refusing.each_growth(400) {
        run_list(rt, heap, refusing, alloc, first, rows, name)?;
        runs = n;
    }
    Ok(runs)
}

/// Tries the rows of two lists on new servers with each growth refused in turn, over the table of nodes and over the
/// list. Each takes more runs than this number, and fewer than 400.
pub fn check_refused(
    rt: &impl Abort,
    alloc: Global,
    first: &[Row],
    rows: &[Row],
    name: &str,
    least: u64,
) -> Result<(), AllocError> {
    let heap = FailAt::new(alloc);
    let of_table = runs_of_table(rt, &heap, &heap, alloc, first, rows, name)?;
    let of_list = runs_of_list(rt, &heap, &heap, alloc, first, rows, name)?;
    assert_between(rt, of_table, least, 400);
    assert_between(rt, of_list, least, 400);
    Ok(())
}

/// Tries the rows of two lists on a new server over the table of nodes, and on one over the list, and refuses no growth.
pub fn run_on_new(rt: &impl Abort, alloc: Global, first: &[Row], rows: &[Row], name: &str) {
    let refusing = FailAt::new(alloc);
    let of_table = run_table(rt, alloc, &refusing, alloc, first, rows, name);
    let of_list = run_list(rt, alloc, &refusing, alloc, first, rows, name);
    assert!(rt; of_table.is_ok() && of_list.is_ok(), "{name}: no memory");
}
