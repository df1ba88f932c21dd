//! The shortest and the longest reply to each opcode, and the same with a byte less and a byte more.

use crate::tests::frames::{framed, push_times};
use fuse_protocol::*;
use fuse_replies::*;
use std::alloc::{AllocError, Global};
use std::process::Abort;
use std::test::Fail;

/// Replies of an opcode: its number, how many bytes were asked for, and how many the body has at least and at most.
type Sizes = (u32, u32, usize, usize);

/// The sizes as the structs of linux/fuse.h have them. Records of zeros are cut short.
const SIZES: [Sizes; 50] = [
    (1, 0, 128, 128),
    (3, 0, 104, 104),
    (4, 0, 104, 104),
    (5, 0, 1, 4095),
    (6, 0, 128, 128),
    (8, 0, 128, 128),
    (9, 0, 128, 128),
    (10, 0, 0, 0),
    (11, 0, 0, 0),
    (12, 0, 0, 0),
    (13, 0, 128, 128),
    (14, 0, 16, 16),
    (15, 4096, 0, 4096),
    (16, 0, 8, 8),
    (17, 0, 80, 80),
    (18, 0, 0, 0),
    (20, 0, 0, 0),
    (21, 0, 0, 0),
    (22, 0, 8, 8),
    (22, 255, 0, 255),
    (23, 0, 8, 8),
    (23, 20, 0, 20),
    (24, 0, 0, 0),
    (25, 0, 0, 0),
    (26, 0, 24, 24),
    (27, 0, 16, 16),
    (28, 20, 0, 20),
    (29, 0, 0, 0),
    (30, 0, 0, 0),
    (31, 0, 24, 24),
    (32, 0, 0, 0),
    (33, 0, 0, 0),
    (34, 0, 0, 0),
    (35, 0, 144, 144),
    (36, 0, 0, 0),
    (37, 0, 8, 8),
    (38, 0, 0, 0),
    (40, 0, 8, 8),
    (43, 0, 0, 0),
    (44, 140, 0, 140),
    (45, 0, 0, 0),
    (46, 0, 8, 8),
    (47, 0, 8, 8),
    (48, 0, 0, 0),
    (49, 0, 0, 0),
    (50, 0, 0, 0),
    (51, 0, 144, 144),
    (52, 0, 288, 288),
    (53, 0, 8, 8),
    (26, 0, 64, 64),
];

/// What is wrong with a reply of so many zeros, if anything is.
fn fault_of(
    alloc: Global,
    code: u32,
    asked: u32,
    size: usize,
) -> Result<Option<ReplyFault>, AllocError> {
    let Some(opcode) = opcode_of_code(code) else {
        return Ok(Some(ReplyFault::Unwanted));
    };
    let request = RequestHead {
        opcode,
        unique: 0,
        nodeid: 1,
        asked,
    };
    let mut body = Vec::new(alloc);
    push_times(&mut body, size, 0)?;
    let frame = framed(alloc, 16, 0, body.as_slice())?;
    Ok(match read_reply(BEFORE_INIT, &request, frame.as_slice()) {
        Ok(_) => None,
        Err(fault) => Some(fault),
    })
}

/// Whether replies of these sizes have no fault, and one of a byte more or a byte less has another body.
fn has_its_size(alloc: Global, sizes: Sizes) -> Result<bool, AllocError> {
    let (code, asked, least, most) = sizes;
    let of_least = fault_of(alloc, code, asked, least)?;
    let of_most = fault_of(alloc, code, asked, most)?;
    let of_more = fault_of(alloc, code, asked, most.saturating_add(1))?;
    let of_less = fault_of(alloc, code, asked, least.saturating_sub(1))?;
    Ok(
        of_least.is_none()
            && of_most.is_none()
            && of_more == Some(ReplyFault::Body)
            && (least == 0 || of_less == Some(ReplyFault::Body)),
    )
}

#[test]
fn each_reply_has_its_size(rt: HostRuntime) -> Result<(), Fail> {
    for sizes in SIZES.iter() {
        assert!(rt; has_its_size(rt.alloc(), *sizes)?, "{}", sizes.0);
    }
    Ok(())
}

#[test]
fn forgets_have_no_replies(rt: HostRuntime) -> Result<(), Fail> {
    let alloc = rt.alloc();
    for code in [2, 41, 42] {
        assert!(rt;
            fault_of(alloc, code, 0, 0)? == Some(ReplyFault::Unwanted),
            "{code}"
        );
    }
    Ok(())
}
