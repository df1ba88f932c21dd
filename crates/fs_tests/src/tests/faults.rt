//! The error reply to a frame that a server of minor 31 refused, as each is before its first mount, or that there is
//! none.

use crate::tests::frames::{is_fault_reply, unhex};
use fs_nodes::NodeStore;
use fs_server::{Server, ServerFault, ServerOf};
use std::alloc::{AllocError, Global};
use std::test::Fail;

/// A frame in digits, the fault for which it was refused, and the reply, if there is one.
struct Row {
    frame: &'static str,
    fault: ServerFault,
    reply: Option<&'static str>,
}

/// Frames that somebody waits for, under a unique of eight different bytes: ENOSYS or EIO.
static REPLIED: [Row; 8] = [
    // opcodes that are not known: 99, 0 and 43
    Row {
        frame: "28000000 63000000 0807060504030201 01000000. ....",
        fault: ServerFault::Wire,
        reply: Some("10000000 daffffff 0807060504030201"),
    },
    Row {
        frame: "28000000 . 0807060504030201 01000000. ....",
        fault: ServerFault::Wire,
        reply: Some("10000000 daffffff 0807060504030201"),
    },
    Row {
        frame: "28000000 2b000000 0807060504030201 01000000. ....",
        fault: ServerFault::Wire,
        reply: Some("10000000 daffffff 0807060504030201"),
    },
    // a GETATTR without its body, a LOOKUP of no name, and a READDIRPLUS, which this minor knows, without its body
    Row {
        frame: "28000000 03000000 0807060504030201 01000000. ....",
        fault: ServerFault::Wire,
        reply: Some("10000000 fbffffff 0807060504030201"),
    },
    Row {
        frame: "29000000 01000000 0807060504030201 01000000. .... 00",
        fault: ServerFault::Wire,
        reply: Some("10000000 fbffffff 0807060504030201"),
    },
    Row {
        frame: "28000000 2c000000 0807060504030201 01000000. ....",
        fault: ServerFault::Wire,
        reply: Some("10000000 fbffffff 0807060504030201"),
    },
    // whole frames, refused for the nodes that they name
    Row {
        frame: "2a000000 01000000 0807060504030201 09000000. .... 6100",
        fault: ServerFault::UnknownNode,
        reply: Some("10000000 fbffffff 0807060504030201"),
    },
    Row {
        frame: "2a000000 01000000 0807060504030201 01000000. .... 6100",
        fault: ServerFault::TooManyForgets,
        reply: Some("10000000 fbffffff 0807060504030201"),
    },
];

/// Frames that nobody waits for, or whose fault is not theirs.
static UNREPLIED: [Row; 12] = [
    // FORGET, INTERRUPT and BATCH_FORGET: without their bodies, and whole
    Row {
        frame: "28000000 02000000 64000000. 02000000. ....",
        fault: ServerFault::Wire,
        reply: None,
    },
    Row {
        frame: "28000000 24000000 65000000. ......",
        fault: ServerFault::Wire,
        reply: None,
    },
    Row {
        frame: "28000000 2a000000 64000000. ......",
        fault: ServerFault::Wire,
        reply: None,
    },
    Row {
        frame: "30000000 02000000 64000000. 09000000. .... 01000000.",
        fault: ServerFault::UnknownNode,
        reply: None,
    },
    Row {
        frame: "40000000 2a000000 64000000. ...... 01000000 . 02000000. 02000000.",
        fault: ServerFault::TooManyForgets,
        reply: None,
    },
    // no bytes, 39 bytes of a LOOKUP, and 40 bytes that say 39 and 41
    Row {
        frame: "",
        fault: ServerFault::Wire,
        reply: None,
    },
    Row {
        frame: "27000000 01000000 64000000. 01000000. ... 000000",
        fault: ServerFault::Wire,
        reply: None,
    },
    Row {
        frame: "27000000 63000000 64000000. 01000000. ....",
        fault: ServerFault::Wire,
        reply: None,
    },
    Row {
        frame: "29000000 63000000 64000000. 01000000. ....",
        fault: ServerFault::Wire,
        reply: None,
    },
    // a repeated unique, a counter at its end and out of memory
    Row {
        frame: "2a000000 01000000 64000000. 01000000. .... 6100",
        fault: ServerFault::RepeatedUnique,
        reply: None,
    },
    Row {
        frame: "2a000000 01000000 64000000. 01000000. .... 6100",
        fault: ServerFault::Exhausted,
        reply: None,
    },
    Row {
        frame: "2a000000 01000000 64000000. 01000000. .... 6100",
        fault: ServerFault::Memory,
        reply: None,
    },
];

/// The place of the first row to which a server replies otherwise.
fn first_other<S: NodeStore>(
    server: &ServerOf<S>,
    alloc: Global,
    rows: &[Row],
) -> Result<Option<usize>, AllocError> {
    for (place, row) in rows.iter().enumerate() {
        let frame = unhex(alloc, row.frame)?;
        if !is_fault_reply(server, alloc, &frame, row.fault, row.reply) {
            return Ok(Some(place));
        }
    }
    Ok(None)
}

/// The places of the first rows of the two lists to which a server replies otherwise.
fn first_others(
    server: &Server,
    alloc: Global,
) -> Result<(Option<usize>, Option<usize>), AllocError> {
    Ok((
        first_other(server, alloc, &REPLIED)?,
        first_other(server, alloc, &UNREPLIED)?,
    ))
}

/// The same of a new server.
fn first_others_of_new(alloc: Global) -> Result<(Option<usize>, Option<usize>), AllocError> {
    let server: Server = ServerOf::new(alloc)?;
    let others = first_others(&server, alloc);
    server.end();
    others
}

#[test]
fn replies_to_faulty_frames(rt: HostRuntime) -> Result<(), Fail> {
    let (replied, unreplied) = first_others_of_new(rt.alloc())?;
    assert_eq!(rt; replied, None, "replied");
    assert_eq!(rt; unreplied, None, "unreplied");
    Ok(())
}
