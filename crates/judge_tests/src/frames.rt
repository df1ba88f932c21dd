//! What no clause says: that frames are read to the end of a session, with their faults where FUSE's rules have them.

ghost use Rattle.std.specs.Prelude.{◌<◌};

use fuse_judge::SessionJudge;
use fuse_sessions::{Act, Fault, Taken, Transfer};
use std::alloc::{AllocError, Global};
use std::process::Abort;
use std::test::Fail;

/// A frame of a session: a request, or what a server wrote and how the device took it.
#[derive(Clone, Copy)]
enum Frame {
    Request { opcode: u32, nodeid: u64 },
    Written { error: u32, taken: Taken },
}

/// What follows the head of a frame.
#[derive(Clone, Copy)]
enum Body {
    Bytes(&'static [u8]),
    /// `struct fuse_init_out` of 64 bytes, of 7.31 with these flags.
    Init(u8),
    /// `struct fuse_entry_out` of a regular file.
    Entry { nodeid: u8, ino: u8 },
}

/// One frame of the session, and its faults in order.
#[derive(Clone, Copy)]
struct Step {
    frame: Frame,
    unique: u64,
    body: Body,
    faults: &'static [Fault],
}

static STEPS: [Step; 11] = [
    // INIT offers 7.31 with flag 1, and is answered with flags 1 and 2.
    Step {
        frame: Frame::Request {
            opcode: 26,
            nodeid: 0,
        },
        unique: 2,
        body: Body::Bytes(&[7, 0, 0, 0, 31, 0, 0, 0, 0, 0, 0, 0, 1, 0, 0, 0]),
        faults: &[],
    },
    Step {
        frame: Frame::Written {
            error: 0,
            taken: Taken::Accepted,
        },
        unique: 2,
        body: Body::Init(3),
        faults: &[Fault::FlagsThatWereNotOffered],
    },
    // LOOKUP of "a": once its name is not ended, and once its reply is OPEN's.
    Step {
        frame: Frame::Request {
            opcode: 1,
            nodeid: 1,
        },
        unique: 4,
        body: Body::Bytes(b"a"),
        faults: &[Fault::MalformedRequest],
    },
    Step {
        frame: Frame::Request {
            opcode: 1,
            nodeid: 1,
        },
        unique: 6,
        body: Body::Bytes(b"a\0"),
        faults: &[],
    },
    Step {
        frame: Frame::Written {
            error: 0,
            taken: Taken::Invalid,
        },
        unique: 6,
        body: Body::Bytes(&[0; 8]),
        faults: &[Fault::BodyOfAnotherRequest],
    },
    // Another one gives node 5, and is answered once more.
    Step {
        frame: Frame::Request {
            opcode: 1,
            nodeid: 1,
        },
        unique: 8,
        body: Body::Bytes(b"a\0"),
        faults: &[],
    },
    Step {
        frame: Frame::Written {
            error: 0,
            taken: Taken::Accepted,
        },
        unique: 8,
        body: Body::Entry { nodeid: 5, ino: 7 },
        faults: &[],
    },
    Step {
        frame: Frame::Written {
            error: 0,
            taken: Taken::NoEntry,
        },
        unique: 8,
        body: Body::Entry { nodeid: 5, ino: 7 },
        faults: &[Fault::SecondReply],
    },
    // Node 5 was given once: so it is not counted after a FORGET of one.
    Step {
        frame: Frame::Request {
            opcode: 2,
            nodeid: 5,
        },
        unique: 10,
        body: Body::Bytes(&[1, 0, 0, 0, 0, 0, 0, 0]),
        faults: &[],
    },
    Step {
        frame: Frame::Request {
            opcode: 2,
            nodeid: 5,
        },
        unique: 10,
        body: Body::Bytes(&[1, 0, 0, 0, 0, 0, 0, 0]),
        faults: &[Fault::NumberUsedTwice, Fault::ForgetOfMoreThanIsCounted],
    },
    // A notification of no code.
    Step {
        frame: Frame::Written {
            error: 99,
            taken: Taken::Invalid,
        },
        unique: 0,
        body: Body::Bytes(&[]),
        faults: &[Fault::MalformedNotification],
    },
];

/// Appends what follows the head.
fn put_body(frame: &mut Vec<u8>, body: Body) -> Result<(), AllocError> {
    match body {
        Body::Bytes(bytes) => frame.extend_from_slice(bytes),
        Body::Init(flags) => {
            let mut bytes = [0; 64];
            bytes[0] = 7;
            bytes[4] = 31;
            bytes[12] = flags;
            frame.extend_from_slice(&bytes)
        }
        Body::Entry { nodeid, ino } => {
            let mut bytes = [0; 128];
            bytes[0] = nodeid;
            bytes[40] = ino;
            bytes[101] = 0x80;
            frame.extend_from_slice(&bytes)
        }
    }
}

/// How many bytes follow the head: fewer than a page in each step.
fn body_len(body: Body) -> u32
    ensures { result < 4096 }
{
    match body {
        Body::Bytes(bytes) => (bytes.len() % 4096) as u32,
        Body::Init(_) => 64,
        Body::Entry { .. } => 128,
    }
}

/// The frame of a step: `struct fuse_in_header` or `struct fuse_out_header`, and what follows it.
fn put_frame(frame: &mut Vec<u8>, step: &Step) -> Result<(), AllocError> {
    frame.clear();
    match step.frame {
        Frame::Request { opcode, nodeid } => {
            frame.extend_from_slice(&(body_len(step.body) + 40).to_le_bytes())?;
            frame.extend_from_slice(&opcode.to_le_bytes())?;
            frame.extend_from_slice(&step.unique.to_le_bytes())?;
            frame.extend_from_slice(&nodeid.to_le_bytes())?;
            frame.extend_from_slice(&[0; 16])?;
        }
        Frame::Written { error, .. } => {
            frame.extend_from_slice(&(body_len(step.body) + 16).to_le_bytes())?;
            frame.extend_from_slice(&error.to_le_bytes())?;
            frame.extend_from_slice(&step.unique.to_le_bytes())?;
        }
    }
    put_body(frame, step.body)
}

/// What the judge makes of a frame, and the frame.
#[derive(Drop)]
struct Room {
    acts: Vec<Act>,
    verdicts: Vec<Option<Fault>>,
    frame: Vec<u8>,
}

/// Whether these are the faults, in order.
fn are_faults(verdicts: &[Option<Fault>], faults: &[Fault]) -> bool {
    let mut found = 0;
    for verdict in verdicts {
        if let Some(fault) = verdict {
            if found >= faults.len() || faults[found] != *fault {
                return false;
            }
            found += 1;
        }
    }
    found == faults.len()
}

/// Whether a step has its faults.
fn has_faults(judge: &mut SessionJudge, room: &mut Room, step: &Step) -> Result<bool, AllocError> {
    put_frame(&mut room.frame, step)?;
    let transfer = match step.frame {
        Frame::Request { .. } => Transfer::Request(&room.frame),
        Frame::Written { taken, .. } => Transfer::Written(&room.frame, taken),
    };
    judge.see(transfer, &mut room.acts, &mut room.verdicts)?;
    Ok(are_faults(room.verdicts.as_slice(), step.faults))
}

/// Whether half a head has its fault, and the end none.
fn ends(judge: &mut SessionJudge, room: &mut Room) -> Result<bool, AllocError> {
    let head = Transfer::Written(&[16, 0, 0, 0], Taken::Invalid);
    judge.see(head, &mut room.acts, &mut room.verdicts)?;
    let half = are_faults(room.verdicts.as_slice(), &[Fault::MalformedReply]);
    judge.see(Transfer::Ended, &mut room.acts, &mut room.verdicts)?;
    Ok(half && are_faults(room.verdicts.as_slice(), &[]))
}

/// The judge and its room are the caller's, so that no way out drops them.
fn check(rt: &impl Abort, judge: &mut SessionJudge, room: &mut Room) -> Result<(), Fail> {
    for step in &STEPS {
        let met = has_faults(judge, room, step)?;
        assert!(rt; met, "{} {}", step.unique, step.faults.len());
    }
    assert!(rt; ends(judge, room)?, "end");
    Ok(())
}

#[test]
fn one_session(rt: HostRuntime) -> Result<(), Fail> {
    let mut judge = SessionJudge::new(rt.alloc());
    let mut room = Room {
        acts: Vec::new(rt.alloc()),
        verdicts: Vec::new(rt.alloc()),
        frame: Vec::new(rt.alloc()),
    };
    check(&rt, &mut judge, &mut room)
}
