//! Path faults, judged alike for each call.

use super::{Expected, Row, run_mounted};
use fk_kernel::Call;
use std::test::Fail;

/// The first fault from the left answers the call at once.
static PATHS: [Row; 73] = [
    Row::Begin(Call::Stat { path: b"" }, Ok(1)),
    Row::Answered(1, Expected::Errno(22)),
    Row::Begin(Call::Stat { path: b"a" }, Ok(2)),
    Row::Answered(2, Expected::Errno(22)),
    Row::Begin(Call::Stat { path: b"a//b" }, Ok(3)),
    Row::Answered(3, Expected::Errno(22)),
    Row::Begin(Call::Stat { path: b"//" }, Ok(4)),
    Row::Answered(4, Expected::Errno(22)),
    Row::Begin(Call::Stat { path: b"/a//b" }, Ok(5)),
    Row::Answered(5, Expected::Errno(22)),
    Row::Begin(Call::Stat { path: b"/a/" }, Ok(6)),
    Row::Answered(6, Expected::Errno(22)),
    Row::Begin(Call::Stat { path: b"/." }, Ok(7)),
    Row::Answered(7, Expected::Errno(22)),
    Row::Begin(Call::Stat { path: b"/.." }, Ok(8)),
    Row::Answered(8, Expected::Errno(22)),
    Row::Begin(Call::Stat { path: b"/a/../b" }, Ok(9)),
    Row::Answered(9, Expected::Errno(22)),
    Row::Begin(Call::Stat { path: b"/a/." }, Ok(10)),
    Row::Answered(10, Expected::Errno(22)),
    Row::Begin(Call::Stat { path: b"/a\0b" }, Ok(11)),
    Row::Answered(11, Expected::Errno(22)),
    Row::Begin(Call::Stat { path: b"\0" }, Ok(12)),
    Row::Answered(12, Expected::Errno(22)),
    // these are names like any other
    Row::Begin(Call::Stat { path: b"/..." }, Ok(13)),
    Row::Begin(Call::Stat { path: b"/.a" }, Ok(14)),
    Row::Begin(Call::Stat { path: b"/a." }, Ok(15)),
    Row::Begin(Call::Stat { path: b"/..a/ " }, Ok(16)),
    Row::Begin(Call::Stat { path: b"/\xff\\" }, Ok(17)),
    // words of 255 and 256 bytes
    Row::Begin(
        Call::Stat {
            path: b"/nnnnnnnnnnnnnnnnnnnnnnnnnnnnnnnnnnnnnnnnnnnnnnnnnnnnnnnnnnnnnnnnnnnnnnnnnnnnnnnnnnnnnnnnnnnnnnnnnnnnnnnnnnnnnnnnnnnnnnnnnnnnnnnnnnnnnnnnnnnnnnnnnnnnnnnnnnnnnnnnnnnnnnnnnnnnnnnnnnnnnnnnnnnnnnnnnnnnnnnnnnnnnnnnnnnnnnnnnnnnnnnnnnnnnnnnnnnnnnnnnnnnnnnnnnnnnnn",
        },
        Ok(18),
    ),
    Row::Begin(
        Call::Stat {
            path: b"/nnnnnnnnnnnnnnnnnnnnnnnnnnnnnnnnnnnnnnnnnnnnnnnnnnnnnnnnnnnnnnnnnnnnnnnnnnnnnnnnnnnnnnnnnnnnnnnnnnnnnnnnnnnnnnnnnnnnnnnnnnnnnnnnnnnnnnnnnnnnnnnnnnnnnnnnnnnnnnnnnnnnnnnnnnnnnnnnnnnnnnnnnnnnnnnnnnnnnnnnnnnnnnnnnnnnnnnnnnnnnnnnnnnnnnnnnnnnnnnnnnnnnnnnnnnnnnn/a",
        },
        Ok(19),
    ),
    Row::Begin(
        Call::Stat {
            path: b"/nnnnnnnnnnnnnnnnnnnnnnnnnnnnnnnnnnnnnnnnnnnnnnnnnnnnnnnnnnnnnnnnnnnnnnnnnnnnnnnnnnnnnnnnnnnnnnnnnnnnnnnnnnnnnnnnnnnnnnnnnnnnnnnnnnnnnnnnnnnnnnnnnnnnnnnnnnnnnnnnnnnnnnnnnnnnnnnnnnnnnnnnnnnnnnnnnnnnnnnnnnnnnnnnnnnnnnnnnnnnnnnnnnnnnnnnnnnnnnnnnnnnnnnnnnnnnnn/",
        },
        Ok(20),
    ),
    Row::Answered(20, Expected::Errno(22)),
    Row::Begin(
        Call::Stat {
            path: b"/nnnnnnnnnnnnnnnnnnnnnnnnnnnnnnnnnnnnnnnnnnnnnnnnnnnnnnnnnnnnnnnnnnnnnnnnnnnnnnnnnnnnnnnnnnnnnnnnnnnnnnnnnnnnnnnnnnnnnnnnnnnnnnnnnnnnnnnnnnnnnnnnnnnnnnnnnnnnnnnnnnnnnnnnnnnnnnnnnnnnnnnnnnnnnnnnnnnnnnnnnnnnnnnnnnnnnnnnnnnnnnnnnnnnnnnnnnnnnnnnnnnnnnnnnnnnnnnn",
        },
        Ok(21),
    ),
    Row::Answered(21, Expected::Errno(36)),
    Row::Begin(
        Call::Stat {
            path: b"/nnnnnnnnnnnnnnnnnnnnnnnnnnnnnnnnnnnnnnnnnnnnnnnnnnnnnnnnnnnnnnnnnnnnnnnnnnnnnnnnnnnnnnnnnnnnnnnnnnnnnnnnnnnnnnnnnnnnnnnnnnnnnnnnnnnnnnnnnnnnnnnnnnnnnnnnnnnnnnnnnnnnnnnnnnnnnnnnnnnnnnnnnnnnnnnnnnnnnnnnnnnnnnnnnnnnnnnnnnnnnnnnnnnnnnnnnnnnnnnnnnnnnnnnnnnnnnnn//",
        },
        Ok(22),
    ),
    Row::Answered(22, Expected::Errno(36)),
    Row::Begin(
        Call::Stat {
            path: b"/nnnnnnnnnnnnnnnnnnnnnnnnnnnnnnnnnnnnnnnnnnnnnnnnnnnnnnnnnnnnnnnnnnnnnnnnnnnnnnnnnnnnnnnnnnnnnnnnnnnnnnnnnnnnnnnnnnnnnnnnnnnnnnnnnnnnnnnnnnnnnnnnnnnnnnnnnnnnnnnnnnnnnnnnnnnnnnnnnnnnnnnnnnnnnnnnnnnnnnnnnnnnnnnnnnnnnnnnnnnnnnnnnnnnnnnnnnnnnnnnnnnnnnnnnnnnnnnn\0",
        },
        Ok(23),
    ),
    Row::Answered(23, Expected::Errno(22)),
    // 32 and 33 words: of the 33rd its place alone is judged
    Row::Begin(
        Call::Stat {
            path: b"/a/a/a/a/a/a/a/a/a/a/a/a/a/a/a/a/a/a/a/a/a/a/a/a/a/a/a/a/a/a/a/a",
        },
        Ok(24),
    ),
    Row::Begin(
        Call::Stat {
            path: b"/a/a/a/a/a/a/a/a/a/a/a/a/a/a/a/a/a/a/a/a/a/a/a/a/a/a/a/a/a/a/a/a/",
        },
        Ok(25),
    ),
    Row::Answered(25, Expected::Errno(36)),
    Row::Begin(
        Call::Stat {
            path: b"/a/a/a/a/a/a/a/a/a/a/a/a/a/a/a/a/a/a/a/a/a/a/a/a/a/a/a/a/a/a/a/a/.",
        },
        Ok(26),
    ),
    Row::Answered(26, Expected::Errno(36)),
    Row::Begin(
        Call::Stat {
            path: b"/a/a/a/a/a/a/a/a/a/a/a/a/a/a/a/a/a/a/a/a/a/a/a/a/a/a/a/a/a/a/a/a/\0",
        },
        Ok(27),
    ),
    Row::Answered(27, Expected::Errno(36)),
    Row::Begin(
        Call::Stat {
            path: b"/a/a/a/a/a/a/a/a/a/a/a/a/a/a/a/a/a/a/a/a/a/a/a/a/a/a/a/a/a/a/a/a/a",
        },
        Ok(28),
    ),
    Row::Answered(28, Expected::Errno(36)),
    Row::Begin(
        Call::Stat {
            path: b"/a/a/a/a/a/a/a/a/a/a/a/a/a/a/a/a/a/a/a/a/a/a/a/a/a/a/a/a/a/a/a/a/a/a",
        },
        Ok(29),
    ),
    Row::Answered(29, Expected::Errno(36)),
    Row::Begin(
        Call::Stat {
            path: b"/a/a/a/a/a/a/a/a/a/a/a/a/a/a/a/a/a/a/a/a/a/a/a/a/a/a/a/a/a/a/a/..",
        },
        Ok(30),
    ),
    Row::Answered(30, Expected::Errno(22)),
    Row::Begin(
        Call::Stat {
            path: b"/a/a/a/a/a/a/a/a/a/a/a/a/a/a/a/a/a/a/a/a/a/a/a/a/a/a/a/a/a/a/a//a",
        },
        Ok(31),
    ),
    Row::Answered(31, Expected::Errno(22)),
    // a last word is needed, and the first path is judged first
    Row::Begin(Call::Mkdir { path: b"/" }, Ok(32)),
    Row::Answered(32, Expected::Errno(22)),
    Row::Begin(Call::Create { path: b"/" }, Ok(33)),
    Row::Answered(33, Expected::Errno(22)),
    Row::Begin(Call::Unlink { path: b"/" }, Ok(34)),
    Row::Answered(34, Expected::Errno(22)),
    Row::Begin(Call::Rmdir { path: b"/" }, Ok(35)),
    Row::Answered(35, Expected::Errno(22)),
    Row::Begin(
        Call::Rename {
            old: b"/",
            new: b"/b",
        },
        Ok(36),
    ),
    Row::Answered(36, Expected::Errno(22)),
    Row::Begin(
        Call::Rename {
            old: b"/a",
            new: b"/",
        },
        Ok(37),
    ),
    Row::Answered(37, Expected::Errno(22)),
    Row::Begin(
        Call::Link {
            old: b"/a",
            new: b"/",
        },
        Ok(38),
    ),
    Row::Answered(38, Expected::Errno(22)),
    Row::Begin(
        Call::Rename {
            old: b"/a/",
            new: b"/nnnnnnnnnnnnnnnnnnnnnnnnnnnnnnnnnnnnnnnnnnnnnnnnnnnnnnnnnnnnnnnnnnnnnnnnnnnnnnnnnnnnnnnnnnnnnnnnnnnnnnnnnnnnnnnnnnnnnnnnnnnnnnnnnnnnnnnnnnnnnnnnnnnnnnnnnnnnnnnnnnnnnnnnnnnnnnnnnnnnnnnnnnnnnnnnnnnnnnnnnnnnnnnnnnnnnnnnnnnnnnnnnnnnnnnnnnnnnnnnnnnnnnnnnnnnnnnn",
        },
        Ok(39),
    ),
    Row::Answered(39, Expected::Errno(22)),
    Row::Begin(
        Call::Rename {
            old: b"/nnnnnnnnnnnnnnnnnnnnnnnnnnnnnnnnnnnnnnnnnnnnnnnnnnnnnnnnnnnnnnnnnnnnnnnnnnnnnnnnnnnnnnnnnnnnnnnnnnnnnnnnnnnnnnnnnnnnnnnnnnnnnnnnnnnnnnnnnnnnnnnnnnnnnnnnnnnnnnnnnnnnnnnnnnnnnnnnnnnnnnnnnnnnnnnnnnnnnnnnnnnnnnnnnnnnnnnnnnnnnnnnnnnnnnnnnnnnnnnnnnnnnnnnnnnnnnnn",
            new: b"/a/",
        },
        Ok(40),
    ),
    Row::Answered(40, Expected::Errno(36)),
    Row::Unanswered(8),
];

#[test]
fn the_first_fault_decides(rt: HostRuntime) -> Result<(), Fail> {
    run_mounted(&rt, rt.alloc(), &PATHS, "paths");
    Ok(())
}
