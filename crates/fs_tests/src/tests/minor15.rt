//! A server that speaks minor 15 (linux/fuse.h, FUSE_KERNEL_MINOR_VERSION).

use crate::tests::frames::{Row, run_on_new};
use fs_server::ServerFault;
use fuse_spec::{Taken, WriteResult};
use std::test::Fail;

/// INIT is answered 7.15, in 24 bytes of body, with ASYNC_READ alone of what is offered. READDIRPLUS and BATCH_FORGET are no
/// requests, a FORGET is one.
static SPOKEN: [Row; 7] = [
    Row::Mount15(1000, 0),
    Row::Takes(
        "38000000 1a000000 02000000. ...... 07000000 1f000000 . 01200400",
        Taken::Held,
    ),
    Row::Performs(
        2,
        0,
        "28000000 . 02000000. 07000000 0f000000 . 01000000 0000 0000 00100000",
    ),
    Row::Settles(1, WriteResult::Accepted),
    Row::Refuses(
        "50000000 2c000000 04000000. 01000000. ........ 00100000 .....",
        ServerFault::Wire,
        Some("10000000 daffffff 04000000."),
    ),
    Row::Refuses(
        "40000000 2a000000 06000000. ...... 01000000 . 02000000. 01000000.",
        ServerFault::Wire,
        None,
    ),
    Row::Refuses(
        "30000000 02000000 08000000. 02000000. .... 01000000.",
        ServerFault::UnknownNode,
        None,
    ),
];

/// The next mount speaks 31 again.
static SPOKEN_NO_LONGER: [Row; 3] = [
    Row::Mount(1000, 0),
    Row::Takes(
        "50000000 2c000000 04000000. 01000000. ........ 00100000 .....",
        Taken::Held,
    ),
    Row::Refuses(
        "40000000 2a000000 06000000. ...... 01000000 . 02000000. 01000000.",
        ServerFault::UnknownNode,
        None,
    ),
];

#[test]
fn minor_15_is_spoken_until_the_next_mount(rt: HostRuntime) -> Result<(), Fail> {
    run_on_new(&rt, rt.alloc(), &SPOKEN, &SPOKEN_NO_LONGER, "minor 15");
    Ok(())
}
