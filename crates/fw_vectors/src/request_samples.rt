//! A request of each opcode, whose numbers have another value in each byte.

use fk_wire::{InitFlags, Pairs, RequestBody};

/// The number of each sample.
pub(crate) const UNIQUE: u64 = 0x0102_0304_0506_0708;

/// The node of each sample that is about one.
pub(crate) const NODE: u64 = 0x1112_1314_1516_1718;

/// An open file.
pub(crate) const FILE_HANDLE: u64 = 0x2122_2324_2526_2728;

/// An offset in a file or a directory.
pub(crate) const OFFSET: u64 = 0x3132_3334_3536_3738;

/// A size in bytes.
pub(crate) const SIZE: u32 = 0x4142_4344;

/// A name.
pub(crate) const NAME: &[u8] = b"ab";

/// Another one.
pub(crate) const OTHER_NAME: &[u8] = b"cde";

/// Two pairs of a node id and a count, as they stand in a frame.
pub(crate) const PAIRS: [u8; 32] = [
    1, 2, 3, 4, 5, 6, 7, 8, 9, 10, 11, 12, 13, 14, 15, 16, 17, 18, 19, 20, 21, 22, 23, 24, 25, 26,
    27, 28, 29, 30, 31, 32,
];

/// The requests whose frames end with a name.
pub(crate) fn named_samples() -> [RequestBody<'static>; 7] {
    let name = NAME;
    let oldnodeid = OFFSET;
    [
        RequestBody::Lookup { name },
        RequestBody::Mkdir { name },
        RequestBody::Unlink { name },
        RequestBody::Rmdir { name },
        RequestBody::Rename {
            newdir: OFFSET,
            old: OTHER_NAME,
            new: name,
        },
        RequestBody::Link { oldnodeid, name },
        RequestBody::Create { name },
    ]
}

/// The other requests that are about a node.
pub(crate) fn node_samples() -> [RequestBody<'static>; 8] {
    let fh = FILE_HANDLE;
    let offset = OFFSET;
    let size = SIZE;
    [
        RequestBody::Forget { nlookup: OFFSET },
        RequestBody::Getattr,
        RequestBody::Open,
        RequestBody::Read { fh, offset, size },
        RequestBody::Write {
            fh,
            offset,
            bytes: b"data",
        },
        RequestBody::Release { fh },
        RequestBody::Readdir { offset, size },
        RequestBody::Readdirplus { offset, size },
    ]
}

/// The requests that are about no node.
pub(crate) fn session_samples(pairs: Pairs<'static>) -> [RequestBody<'static>; 4] {
    [
        RequestBody::Init {
            major: 7,
            minor: 31,
            flags: InitFlags::ASYNC_READ,
        },
        RequestBody::Init {
            major: 7,
            minor: 15,
            flags: InitFlags::PARALLEL_DIROPS,
        },
        RequestBody::Interrupt { unique: OFFSET },
        RequestBody::BatchForget { pairs },
    ]
}
