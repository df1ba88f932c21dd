//! Each growth of each row, refused in turn, of a world and of a session: those of its events, and those of the list of
//! records of a whole run.

use super::machine::{Machine, MachineTest, try_on_list_world, try_on_session, try_on_world};
use super::rows::{Row, lists};
use fail_at::FailAt;
use fuse_text::{OutputRefused, read_hex, write_hex, write_nodes};
use fw_script::{Line, read_line, write_record};
use fw_world::{Call, Event, Outcome, Record, Refusal};
use std::alloc::{AllocError, Allocator, Global};
use std::io;
use std::io::{ErrorKind, Write};
use std::process::Abort;
use std::test::Fail;

/// More growths than a row has.
const MOST: u64 = 1_000_000;

/// The most answers that an event may give: as many calls may be unanswered.
const MOST_ANSWERS: u64 = 64;

/// The bytes that the calls of a script put into files, one after another.
fn bytes_of_writes(alloc: Global, script: &str) -> Result<Vec<u8>, AllocError> {
    let mut bytes = Vec::new(alloc);
    for line in script.lines() {
        if let Ok(Line::CallWrite { hex, .. }) = read_line(line.as_bytes())
            && let Ok(put) = read_hex(alloc, hex)
        {
            bytes.extend_from_slice(put.as_slice())?;
        }
    }
    Ok(bytes)
}

/// The events of a script, and `None` where it shows the nodes.
fn steps_of<'a>(
    alloc: Global,
    script: &'a str,
    bytes: &'a [u8],
) -> Result<Vec<Option<Event<'a>>>, AllocError> {
    let mut steps = Vec::new(alloc);
    let mut rest = bytes;
    for line in script.lines() {
        match read_line(line.as_bytes()) {
            Ok(Line::Event(event)) => steps.push(Some(event))?,
            Ok(
                Line::CallWrite {
                    open_call,
                    offset,
                    hex,
                },
            ) => {
                let len = hex.len() / 2;
                let bytes = rest.get(..len).unwrap_or(&[]);
                rest = rest.get(len..).unwrap_or(&[]);
                steps.push(Some(Event::Call(Call::Write {
                    open_call,
                    offset,
                    bytes,
                })))?;
            }
            Ok(Line::Show) => steps.push(None)?,
            Err(_) => {}
        }
    }
    Ok(steps)
}

/// Whether an event takes no memory.
fn takes_no_memory(event: &Event<'_>) -> bool {
    matches!(
        event,
        Event::Settle(_)
            | Event::Interrupt { .. }
            | Event::Tick(_)
            | Event::DropName { .. }
            | Event::Evict(_)
            | Event::Abort
    )
}

/// Steps. Where a growth was refused, the step must be refused, and where memory is out it is tried again; where none
/// was, memory does not run out. Else it is `NoMemory`, which no row has.
fn step<A: Allocator + Copy, W: Machine<A>>(
    heap: &FailAt<Global>,
    world: &mut W,
    event: &Event<'_>,
) -> Result<Outcome, Refusal> {
    let before = heap.left();
    let stepped = world.step(event);
    if before == 0 || heap.left() != 0 {
        return stepped;
    }
    match stepped {
        Err(Refusal::NoMemory) if !takes_no_memory(event) => world.step(event),
        Err(refusal) => Err(refusal),
        Ok(_) => Err(Refusal::NoMemory),
    }
}

/// The error of a text that cannot grow.
fn no_room(_: OutputRefused) -> io::Error {
    io::Error::from(ErrorKind::OutOfMemory)
}

/// Prints the nodes of both sides. No growth is refused meanwhile.
fn write_both<A: Allocator + Copy, W: Machine<A>>(
    heap: &FailAt<Global>,
    world: &W,
    out: &mut Vec<u8>,
) -> io::Result<()> {
    let left = heap.left();
    heap.refuse(0);
    if let Ok(nodes) = world.kernel_nodes() {
        write_nodes(out, b"kernel", &nodes).map_err(no_room)?;
    }
    if let Ok(nodes) = world.server_nodes() {
        write_nodes(out, b"server", &nodes).map_err(no_room)?;
    }
    heap.refuse(left);
    Ok(())
}

/// Prints the frame that the last event put.
fn write_frame(out: &mut Vec<u8>, frame: Option<&[u8]>) -> io::Result<()> {
    if let Some(frame) = frame {
        write!(out, "frame ")?;
        write_hex(out, frame).map_err(no_room)?;
        writeln!(out)?;
    }
    Ok(())
}

/// Runs an event, and prints what it came to and what it answered.
fn write_event<A: Allocator + Copy, W: Machine<A>>(
    heap: &FailAt<Global>,
    world: &mut W,
    event: &Event<'_>,
    hex: bool,
    out: &mut Vec<u8>,
) -> io::Result<()> {
    let record: Record<A> = match step(heap, world, event) {
        Ok(outcome) => Record::Outcome(outcome),
        Err(refusal) => Record::Refused(refusal),
    };
    write_record(out, &record).map_err(no_room)?;
    if hex {
        write_frame(out, world.last_put())?;
    }
    for _ in 0..MOST_ANSWERS {
        let Some((call, answer)) = world.collect() else {
            break;
        };
        let record = Record::Answered { call, answer };
        write_record(out, &record).map_err(no_room)?;
    }
    Ok(())
}

/// Runs the steps of a row, and prints what they come to.
fn write_steps<A: Allocator + Copy, W: Machine<A>>(
    heap: &FailAt<Global>,
    world: &mut W,
    steps: &[Option<Event<'_>>],
    hex: bool,
    out: &mut Vec<u8>,
) -> io::Result<()> {
    for step in steps {
        match step {
            Some(event) => write_event(heap, world, event, hex, out)?,
            None => write_both(heap, world, out)?,
        }
    }
    Ok(())
}

/// What takes events, which is made again where a growth of it was refused.
fn made_at_last<A: Allocator + Copy, W: Machine<A>>(alloc: A) -> Option<W> {
    match W::new(alloc) {
        Some(world) => Some(world),
        None => W::new(alloc),
    }
}

/// Whether the steps of a row print on a new world what they must.
fn prints_the_row<A: Allocator + Copy, W: Machine<A>>(
    alloc: A,
    heap: &FailAt<Global>,
    row: &Row,
    steps: &[Option<Event<'_>>],
    out: &mut Vec<u8>,
) -> bool {
    out.clear();
    let Some(mut world) = made_at_last::<A, W>(alloc) else {
        return false;
    };
    let is_printed = write_steps(heap, &mut world, steps, row.name.ends_with("-in-hex"), out);
    world.end();
    is_printed.is_ok() && out.as_slice() == row.output.as_bytes()
}

/// Runs the steps of a row with each growth refused in turn.
fn check_steps<A: Allocator + Copy, W: Machine<A>>(
    rt: &impl Abort,
    alloc: A,
    heap: &FailAt<Global>,
    row: &Row,
    steps: &[Option<Event<'_>>],
    out: &mut Vec<u8>,
) {
    let mut turns = 0;
    for turn in heap.each_growth(MOST) {
        assert!(rt;
            prints_the_row::<A, W>(alloc, heap, row, steps, out),
            "{} {turn}",
            row.name
        );
        turns = turn;
    }
    assert!(rt; 1 < turns && turns < MOST, "{} {turns}", row.name);
}

/// How many events these are the records of.
fn events_of<A: Allocator>(records: &[Record<A>]) -> usize {
    let mut events = 0usize;
    for record in records {
        if !matches!(record, Record::Answered { .. }) {
            events = events.saturating_add(1);
        }
    }
    events
}

/// Runs a list of events. Where a growth of the records was refused, and nowhere else, it ends before an event, with
/// the records of those before; then it goes on from there.
fn runs_all<A: Allocator + Copy, W: Machine<A>>(
    heap: &FailAt<Global>,
    world: &mut W,
    events: &[Event<'_>],
    records: &mut Vec<Record<A>, A>,
) -> bool {
    let Err(k) = world.run(events, records) else {
        return heap.left() != 0;
    };
    heap.left() == 0
        && events_of(records.as_slice()) == k
        && world.run(events.get(k..).unwrap_or(&[]), records).is_ok()
}

/// Prints records.
fn write_records<A: Allocator>(records: &[Record<A>], out: &mut Vec<u8>) -> io::Result<()> {
    for record in records {
        write_record(out, record).map_err(no_room)?;
    }
    Ok(())
}

/// Whether a run of all events on a new world gives the records that it must. The list of records has a heap of its
/// own.
fn gives_the_records<A: Allocator + Copy, W: Machine<A>>(
    alloc: A,
    of_records: A,
    heap: &FailAt<Global>,
    events: &[Event<'_>],
    wanted: &[u8],
    out: &mut Vec<u8>,
) -> bool {
    out.clear();
    let mut records = Vec::new(of_records);
    let Some(mut world) = W::new(alloc) else {
        return false;
    };
    let is_run = runs_all(heap, &mut world, events, &mut records);
    world.end();
    is_run && write_records(records.as_slice(), out).is_ok() && out.as_slice() == wanted
}

/// Runs all events of a row with each growth of the list of records refused in turn.
fn check_run<A: Allocator + Copy, W: Machine<A>>(
    rt: &impl Abort,
    alloc: A,
    of_records: A,
    heap: &FailAt<Global>,
    name: &str,
    events: &[Event<'_>],
    wanted: &[u8],
    out: &mut Vec<u8>,
) {
    let mut turns = 0;
    for turn in heap.each_growth(MOST) {
        assert!(rt;
            gives_the_records::<A, W>(alloc, of_records, heap, events, wanted, out),
            "{name} {turn}"
        );
        turns = turn;
    }
    assert!(rt;
        turns < MOST && (events.is_empty() || 1 < turns),
        "{name} {turns}"
    );
}

/// The events among the steps of a script.
fn events_among<'a>(
    alloc: Global,
    steps: &[Option<Event<'a>>],
) -> Result<Vec<Event<'a>>, AllocError> {
    let mut events = Vec::new(alloc);
    for event in steps.iter().flatten() {
        events.push(*event)?;
    }
    Ok(events)
}

/// What a row prints, but for the lines that are no records.
fn lines_of_records(alloc: Global, output: &str) -> Result<Vec<u8>, AllocError> {
    let mut lines = Vec::new(alloc);
    for line in output.lines() {
        let is_record = !["kernel", "server", "frame"]
            .iter()
            .any(|word| line.starts_with(*word));
        if is_record {
            lines.extend_from_slice(line.as_bytes())?;
            lines.push(b'\n')?;
        }
    }
    Ok(lines)
}

/// Each growth of the events of a row, refused in turn.
fn check_row<A: Allocator + Copy, W: Machine<A>>(
    rt: &impl Abort,
    alloc: A,
    heap: &FailAt<Global>,
    outer: Global,
    row: &Row,
) -> Result<(), AllocError> {
    let bytes = bytes_of_writes(outer, row.script)?;
    let steps = steps_of(outer, row.script, &bytes)?;
    check_steps::<A, W>(rt, alloc, heap, row, &steps, &mut Vec::new(outer));
    Ok(())
}

/// Each growth of the records of a row, refused in turn.
fn check_records<A: Allocator + Copy, W: Machine<A>>(
    rt: &impl Abort,
    alloc: A,
    of_records: A,
    heap: &FailAt<Global>,
    outer: Global,
    row: &Row,
) -> Result<(), AllocError> {
    let bytes = bytes_of_writes(outer, row.script)?;
    let steps = steps_of(outer, row.script, &bytes)?;
    let events = events_among(outer, &steps)?;
    let wanted = lines_of_records(outer, row.output)?;
    let mut out = Vec::new(outer);
    check_run::<A, W>(
        rt, alloc, of_records, heap, row.name, &events, &wanted, &mut out,
    );
    Ok(())
}

/// Both of each row. What runs and the list of records have a heap each.
fn check_rows<A: Allocator + Copy, W: Machine<A>>(
    rt: &impl Abort,
    alloc: A,
    of_records: A,
    heap: &FailAt<Global>,
    of_refused_records: &FailAt<Global>,
    outer: Global,
    rows: &[Row],
) -> Result<(), AllocError> {
    for row in rows {
        check_row::<A, W>(rt, alloc, heap, outer, row)?;
        check_records::<A, W>(rt, alloc, of_records, of_refused_records, outer, row)?;
    }
    Ok(())
}

/// The same of what is visited. The list of records has a heap of its own.
#[derive(Drop)]
struct Refused<'a, A: Allocator + Copy, R: Abort> {
    rt: &'a R,
    of_records: A,
    heap: &'a FailAt<Global>,
    of_refused_records: &'a FailAt<Global>,
    outer: Global,
    rows: &'static [Row],
}

impl<A: Allocator + Copy, R: Abort> MachineTest<A> for Refused<'_, A, R> {
    fn try_on<W: Machine<A>>(&mut self, alloc: A) -> Result<(), AllocError> {
        check_rows::<A, W>(
            self.rt,
            alloc,
            self.of_records,
            self.heap,
            self.of_refused_records,
            self.outer,
            self.rows,
        )
    }
}

#[test]
fn each_growth_of_each_row_refused(rt: HostRuntime) -> Result<(), Fail> {
    let heap = FailAt::new(rt.alloc());
    let of_records = FailAt::new(rt.alloc());
    for rows in lists() {
        try_on_world(
            &mut Refused {
                rt: &rt,
                of_records: &of_records,
                heap: &heap,
                of_refused_records: &of_records,
                outer: rt.alloc(),
                rows,
            },
            &heap,
        )?;
    }
    Ok(())
}

#[test]
fn each_growth_of_each_row_over_lists_refused(rt: HostRuntime) -> Result<(), Fail> {
    let heap = FailAt::new(rt.alloc());
    let of_records = FailAt::new(rt.alloc());
    for rows in lists() {
        try_on_list_world(
            &mut Refused {
                rt: &rt,
                of_records: &of_records,
                heap: &heap,
                of_refused_records: &of_records,
                outer: rt.alloc(),
                rows,
            },
            &heap,
        )?;
    }
    Ok(())
}

#[test]
fn each_growth_of_each_row_over_a_link_refused(rt: HostRuntime) -> Result<(), Fail> {
    let heap = FailAt::new(rt.alloc());
    let of_records = FailAt::new(rt.alloc());
    for rows in lists() {
        try_on_session(
            &mut Refused {
                rt: &rt,
                of_records: &of_records,
                heap: &heap,
                of_refused_records: &of_records,
                outer: rt.alloc(),
                rows,
            },
            &heap,
        )?;
    }
    Ok(())
}
