//! Lists of random events, each run on a world over maps and slabs and on one over plain lists.

use super::machine::{Machine, MachineTest, try_on_list_world, try_on_world};
use fuse_text::write_nodes;
use fw_script::write_record;
use fw_world::{Call, Event, Minor, Outcome, Pick, Record};
use std::alloc::{AllocError, Allocator, Global};
use std::test::Fail;

/// How many lists there are, and how many events each has.
const LISTS: u64 = 2_000;

const EVENTS: u64 = 200;

/// At least this many of all their events are to be accepted, so that the lists lead somewhere.
const ACCEPTED: u64 = 150_000;

/// A mount, and INIT with its reply.
static START: [Event<'static>; 6] = [
    Event::Mount {
        found_ms: 1000,
        missing_ms: 500,
        minor: Minor::M31,
    },
    Event::Read(Pick::Pending(0)),
    Event::Take(0),
    Event::Do(2),
    Event::Write(0),
    Event::Settle(0),
];

static PATHS: [&[u8]; 10] = [
    b"/", b"/a", b"/b", b"/cc", b"/a/b", b"/a/a", b"/b/a", b"/a/b/cc", b"/a/b/a", b"/a//b",
];

static NAMES: [&[u8]; 3] = [b"a", b"b", b"cc"];

/// Numbers that look random, the same ones in each run of the tests (splitmix64).
#[derive(Drop)]
struct Drawn {
    state: u64,
}

impl Drawn {
    /// A number below an end under 2^32.
    fn below(&mut self, end: u64) -> u64 {
        self.state = self.state.wrapping_add(0x9e37_79b9_7f4a_7c15);
        let mut word = self.state;
        word = (word ^ (word >> 30)).wrapping_mul(0xbf58_476d_1ce4_e5b9);
        word = (word ^ (word >> 27)).wrapping_mul(0x94d0_49bb_1331_11eb);
        ((word ^ (word >> 31)) >> 32).wrapping_mul(end) >> 32
    }

    fn is_one_in(&mut self, end: u64) -> bool {
        self.below(end) == 0
    }

    fn path(&mut self) -> &'static [u8] {
        let place = self.below(10) as usize;
        PATHS.get(place).copied().unwrap_or(b"/")
    }

    fn name(&mut self) -> &'static [u8] {
        let place = self.below(3) as usize;
        NAMES.get(place).copied().unwrap_or(b"a")
    }
}

/// What a list has come to, so that random events name what may be there.
#[derive(Drop)]
struct Seen {
    /// The number of the last request that was read.
    unique: u64,
    /// The number of the last call.
    call: u64,
    accepted: u64,
}

impl Seen {
    fn note<A: Allocator>(&mut self, record: &Record<A>) {
        let Record::Outcome(outcome) = record else {
            return;
        };
        self.accepted = self.accepted.wrapping_add(1);
        match outcome {
            Outcome::Read { unique, .. } => self.unique = *unique,
            Outcome::Begun { call } => self.call = *call,
            _ => {}
        }
    }

    /// One of the last few requests that were read.
    fn request(&self, drawn: &mut Drawn) -> u64 {
        self.unique.wrapping_sub(drawn.below(4).wrapping_mul(2))
    }

    /// One of the last few calls.
    fn call(&self, drawn: &mut Drawn) -> u64 {
        self.call.wrapping_sub(drawn.below(5))
    }
}

fn call_on_an_open_file(drawn: &mut Drawn, seen: &Seen) -> Call<'static> {
    let open_call = seen.call(drawn);
    match drawn.below(3) {
        0 => Call::Read {
            open_call,
            offset: drawn.below(4),
            size: drawn.below(12),
        },
        1 => Call::Write {
            open_call,
            offset: drawn.below(4),
            bytes: b"some bytes",
        },
        _ => Call::Close { open_call },
    }
}

fn call(drawn: &mut Drawn, seen: &Seen) -> Call<'static> {
    let path = drawn.path();
    match drawn.below(18) {
        0 | 1 => Call::Stat { path },
        2 => Call::List {
            path,
            after: drawn.below(3),
        },
        3 => Call::ListPlus {
            path,
            after: drawn.below(3),
        },
        4 => Call::Open { path },
        5 | 6 => Call::Mkdir { path },
        7 | 8 => Call::Create { path },
        9 => Call::Unlink { path },
        10 => Call::Rmdir { path },
        11 => Call::Rename {
            old: path,
            new: drawn.path(),
        },
        12 => Call::Link {
            old: path,
            new: drawn.path(),
        },
        _ => call_on_an_open_file(drawn, seen),
    }
}

/// An event that is rare.
fn seldom(drawn: &mut Drawn, seen: &Seen) -> Event<'static> {
    match drawn.below(14) {
        0 => Event::Mount {
            found_ms: 1000,
            missing_ms: 500,
            minor: if drawn.is_one_in(2) {
                Minor::M15
            } else {
                Minor::M31
            },
        },
        1 if drawn.is_one_in(4) => Event::Abort,
        2 | 3 => Event::Tick(700),
        4 | 5 => Event::DropName {
            directory: drawn.below(3).wrapping_add(1),
            name: drawn.name(),
        },
        6 | 7 => Event::Evict(drawn.below(4).wrapping_add(2)),
        8 | 9 => Event::Interrupt {
            call: seen.call(drawn),
            fatal: drawn.is_one_in(2),
        },
        10 | 11 => Event::Read(Pick::Forgets(drawn.below(3).wrapping_add(1))),
        12 => Event::Read(Pick::Interrupt),
        _ => Event::Again(seen.request(drawn)),
    }
}

fn event(drawn: &mut Drawn, seen: &Seen) -> Event<'static> {
    match drawn.below(32) {
        0..=5 => Event::Call(call(drawn, seen)),
        6..=11 => Event::Read(Pick::Pending(drawn.below(2))),
        12..=16 => Event::Take(drawn.below(2)),
        17..=21 => Event::Do(seen.request(drawn)),
        22..=25 => Event::Write(drawn.below(2)),
        26..=28 => Event::Settle(drawn.below(2)),
        _ => seldom(drawn, seen),
    }
}

/// Runs an event, and prints its records.
fn print_event<W: Machine<Global>>(
    world: &mut W,
    event: &Event<'_>,
    records: &mut Vec<Record<Global>>,
    out: &mut Vec<u8>,
) -> bool {
    records.clear();
    if world.run(std::slice::from_ref(event), records).is_err() {
        return false;
    }
    for record in records.as_slice() {
        if write_record(out, record).is_err() {
            return false;
        }
    }
    true
}

/// Prints the nodes of both sides.
fn print_nodes<W: Machine<Global>>(world: &W, out: &mut Vec<u8>) -> bool {
    let (Ok(counted), Ok(held)) = (world.kernel_nodes(), world.server_nodes()) else {
        return false;
    };
    write_nodes(out, b"kernel", &counted).is_ok() && write_nodes(out, b"server", &held).is_ok()
}

/// Runs one list on a world, and prints its records and the nodes with which it ends.
fn print_list<W: Machine<Global>>(
    alloc: Global,
    world: &mut W,
    drawn: &mut Drawn,
    seen: &mut Seen,
    out: &mut Vec<u8>,
) -> bool {
    let mut records = Vec::new(alloc);
    for place in 0..EVENTS {
        let event = match START.get(place as usize) {
            Some(event) => *event,
            None => event(drawn, seen),
        };
        if !print_event(world, &event, &mut records, out) {
            return false;
        }
        if let Some(record) = records.first() {
            seen.note(record);
        }
    }
    print_nodes(world, out)
}

/// A list on a new world.
#[derive(Drop)]
struct List<'a> {
    drawn: &'a mut Drawn,
    accepted: &'a mut u64,
    out: &'a mut Vec<u8>,
    is_printed: bool,
}

impl MachineTest<Global> for List<'_> {
    fn try_on<W: Machine<Global>>(&mut self, alloc: Global) -> Result<(), AllocError> {
        let mut seen = Seen {
            unique: 2,
            call: 0,
            accepted: *self.accepted,
        };
        let mut world = W::new(alloc).ok_or(AllocError)?;
        self.is_printed = print_list(alloc, &mut world, self.drawn, &mut seen, self.out);
        world.end();
        *self.accepted = seen.accepted;
        Ok(())
    }
}

/// Whether a list is printed on a new world over maps and slabs.
fn is_printed_over_maps(
    alloc: Global,
    drawn: &mut Drawn,
    accepted: &mut u64,
    out: &mut Vec<u8>,
) -> bool {
    let is_printed = false;
    let mut list = List {
        drawn,
        accepted,
        out,
        is_printed,
    };
    try_on_world(&mut list, alloc).is_ok() && list.is_printed
}

/// The same over plain lists.
fn is_printed_over_lists(
    alloc: Global,
    drawn: &mut Drawn,
    accepted: &mut u64,
    out: &mut Vec<u8>,
) -> bool {
    let is_printed = false;
    let mut list = List {
        drawn,
        accepted,
        out,
        is_printed,
    };
    try_on_list_world(&mut list, alloc).is_ok() && list.is_printed
}

/// Makes a random list, and says whether it prints the same on a new world of each kind. It is made for each from the
/// same state, and so of the same events as long as both record the same.
fn is_alike(alloc: Global, drawn: &mut Drawn, accepted: &mut u64) -> bool {
    let mut again = Drawn { state: drawn.state };
    let mut accepted_again = 0;
    let mut out = Vec::new(alloc);
    let mut other = Vec::new(alloc);
    is_printed_over_maps(alloc, drawn, accepted, &mut out)
        && is_printed_over_lists(alloc, &mut again, &mut accepted_again, &mut other)
        && out.as_slice() == other.as_slice()
}

#[test]
fn drawn_lists_run_alike_over_maps_and_over_lists(rt: HostRuntime) -> Result<(), Fail> {
    let mut drawn = Drawn { state: 0 };
    let mut accepted = 0;
    for list in 0..LISTS {
        assert!(rt; is_alike(rt.alloc(), &mut drawn, &mut accepted), "{list}");
    }
    assert!(rt; accepted >= ACCEPTED, "{accepted}");
    Ok(())
}
