//! The frame that each event of a mount put, of a world and of a session.

use super::machine::{Machine, MachineTest, try_on_session, try_on_world};
use fw_world::{Event, Minor, Pick};
use std::alloc::{AllocError, Global};
use std::process::Abort;
use std::test::Fail;

/// INIT under unique 2: major 7, minor 31, and the flags ASYNC_READ, DO_READDIRPLUS and PARALLEL_DIROPS.
const INIT: [u8; 56] = [
    56, 0, 0, 0, 26, 0, 0, 0, 2, 0, 0, 0, 0, 0, 0, 0, 0, 0, 0, 0, 0, 0, 0, 0, 0, 0, 0, 0, 0, 0, 0,
    0, 0, 0, 0, 0, 0, 0, 0, 0, 7, 0, 0, 0, 31, 0, 0, 0, 0, 0, 0, 0, 1, 32, 4, 0,
];

/// Its reply, with the same version and flags, writes of 4,096 bytes and times of one nanosecond.
const REPLY: [u8; 80] = [
    80, 0, 0, 0, 0, 0, 0, 0, 2, 0, 0, 0, 0, 0, 0, 0, 7, 0, 0, 0, 31, 0, 0, 0, 0, 0, 0, 0, 1, 32, 4,
    0, 0, 0, 0, 0, 0, 16, 0, 0, 1, 0, 0, 0, 0, 0, 0, 0, 0, 0, 0, 0, 0, 0, 0, 0, 0, 0, 0, 0, 0, 0,
    0, 0, 0, 0, 0, 0, 0, 0, 0, 0, 0, 0, 0, 0, 0, 0, 0, 0,
];

/// An event, and the frame that it put, if any.
struct Row {
    event: Event<'static>,
    frame: Option<&'static [u8]>,
}

static ROWS: [Row; 6] = [
    Row {
        event: Event::Mount {
            found_ms: 1000,
            missing_ms: 0,
            minor: Minor::M31,
        },
        frame: None,
    },
    Row {
        event: Event::Read(Pick::Pending(0)),
        frame: Some(&INIT),
    },
    Row {
        event: Event::Take(0),
        frame: None,
    },
    Row {
        event: Event::Do(2),
        frame: Some(&REPLY),
    },
    Row {
        event: Event::Again(2),
        frame: Some(&REPLY),
    },
    Row {
        event: Event::Write(0),
        frame: None,
    },
];

/// Whether a row's event puts its frame.
fn puts_frame<W: Machine<Global>>(framed: &mut W, row: &Row) -> bool {
    match framed.step(&row.event) {
        Ok(outcome) => framed.frame_of(&outcome) == row.frame,
        Err(_) => false,
    }
}

/// The rows on a new one.
#[derive(Drop)]
struct Frames<'a, R: Abort> {
    rt: &'a R,
    name: &'static str,
}

impl<R: Abort> MachineTest<Global> for Frames<'_, R> {
    fn try_on<W: Machine<Global>>(&mut self, alloc: Global) -> Result<(), AllocError> {
        let mut framed = W::new(alloc).ok_or(AllocError)?;
        let name = self.name;
        for (place, row) in ROWS.iter().enumerate() {
            assert!(self.rt; puts_frame(&mut framed, row), "{name} row {place}");
        }
        framed.end();
        Ok(())
    }
}

#[test]
fn frame_of_each_event_of_a_mount(rt: HostRuntime) -> Result<(), Fail> {
    let mut of_world = Frames {
        rt: &rt,
        name: "world",
    };
    try_on_world(&mut of_world, rt.alloc())?;
    let mut of_session = Frames {
        rt: &rt,
        name: "session",
    };
    try_on_session(&mut of_session, rt.alloc())?;
    Ok(())
}
