//! What was agreed in real sessions of Linux 6.18, and why a session is not read.

use crate::tests::frames::unhex;
use fuse_protocol::*;
use fuse_replies::*;
use std::alloc::{AllocError, Global};
use std::process::Abort;
use std::test::Fail;

/// INIT as Linux 6.18 sends it: 7.45 and its flags.
const OFFERED: &str =
    "680000001a000000 0200000000000000 0000000000000000 00000000000000000000000000000000
    07000000 2d000000 00000200 fbffff73 fd050000 00000000000000000000000000000000000000000000000000000000
    00000000000000000000000000000000";

/// The reply of libfuse 3.14: 7.31, and among its flags EXPORT_SUPPORT and MAX_PAGES, for 256 pages.
const LIBFUSE: &str = "5000000000000000 0200000000000000 07000000 1f000000 00000200 39f04040
    00000000 00001000 01000000 0001 0000 00000000 00000000000000000000000000000000000000000000000000000000";

/// The reply of gocryptfs 2.3: 7.28, without either.
const GOCRYPTFS: &str = "5000000000000000 0200000000000000 07000000 1c000000 00000200 21300600
    00000000 00000200 00000000 0000 0000 00000000 00000000000000000000000000000000000000000000000000000000";

const INIT: RequestHead = RequestHead {
    opcode: Opcode::Init,
    unique: 2,
    nodeid: 0,
    asked: 0,
};

/// Whether this is what Linux 6.18 offers.
fn is_offered(offered: &InitRequest) -> bool {
    offered.minor == 45 && offered.max_readahead == 131_072 && offered.flags == 0x05fd_73ff_fffb
}

/// What was agreed by an offer and a reply.
fn agreed_by(offered: &InitRequest, reply: &[u8]) -> Option<Agreed> {
    let reply = read_reply(BEFORE_INIT, &INIT, reply).ok()?;
    match reply.answer {
        Answer::Init(taken) => Agreed::of_init(offered, &taken).ok(),
        _ => None,
    }
}

/// What a session of Linux 6.18 agreed on, by its reply to INIT.
fn agreed_in(alloc: Global, reply: &str) -> Result<Option<Agreed>, AllocError> {
    let request = unhex(alloc, OFFERED)?;
    let reply = unhex(alloc, reply)?;
    Ok(match read_init(request.as_slice()) {
        Ok(offered) if is_offered(&offered) => agreed_by(&offered, reply.as_slice()),
        _ => None,
    })
}

#[test]
fn real_sessions_agree(rt: HostRuntime) -> Result<(), Fail> {
    let libfuse = Agreed {
        minor: 31,
        has_long_setxattr: false,
        has_extensions: false,
        has_dot_names: true,
        max_name: 4095,
    };
    let gocryptfs = Agreed {
        minor: 28,
        has_long_setxattr: false,
        has_extensions: false,
        has_dot_names: false,
        max_name: 1024,
    };
    assert!(rt; agreed_in(rt.alloc(), LIBFUSE)? == Some(libfuse));
    assert!(rt; agreed_in(rt.alloc(), GOCRYPTFS)? == Some(gocryptfs));
    Ok(())
}

/// What a kernel and a server of these minor versions and these flags agree on.
fn agreed_of(kernel: u32, server: u32, flags: u64) -> Result<Agreed, Unjudged> {
    let offered = InitRequest {
        major: 7,
        minor: kernel,
        max_readahead: 0,
        flags,
    };
    let taken = InitReply {
        major: 7,
        minor: server,
        max_readahead: 0,
        flags,
        max_write: 4096,
        max_pages: 1,
    };
    Agreed::of_init(&offered, &taken)
}

#[test]
fn some_sessions_are_not_read(rt: HostRuntime) {
    let contexts = 1 << 32;
    let setxattr_ext = 1 << 29;
    assert!(rt; agreed_of(45, 8, 0) == Err(Unjudged::Old));
    assert!(rt; agreed_of(46, 46, 0) == Err(Unjudged::New));
    assert!(rt; agreed_of(37, 31, contexts) == Err(Unjudged::Contexts));
    assert!(rt; matches!(agreed_of(45, 31, contexts), Ok(agreed) if agreed.has_extensions));
    assert!(rt; matches!(agreed_of(45, 33, setxattr_ext), Ok(agreed) if agreed.has_long_setxattr));
}
