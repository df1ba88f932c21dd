//! What no clause says: that frames are judged to the end of a session.

use fuse_protocol::BEFORE_INIT;
use fuse_sessions::{Taken, Transfer};
use name_judge::NameJudge;
use std::process::Abort;
use std::test::Fail;

/// A frame of a request about the name `a` in the root.
fn request(opcode: u8, unique: u8) -> [u8; 42] {
    let mut frame = [0; 42];
    frame[0] = 42;
    frame[4] = opcode;
    frame[8] = unique;
    frame[16] = 1;
    frame[40] = b'a';
    frame
}

/// A frame of an entry of a node.
fn entry(unique: u8, nodeid: u8) -> [u8; 144] {
    let mut frame = [0; 144];
    frame[0] = 144;
    frame[8] = unique;
    frame[16] = nodeid;
    frame
}

/// A frame of a reply without a body.
fn reply(unique: u8) -> [u8; 16] {
    let mut frame = [0; 16];
    frame[0] = 16;
    frame[8] = unique;
    frame
}

const LOOKUP: u8 = 1;

const UNLINK: u8 = 10;

/// A judge sees names that are removed. It is the caller's, so that no way out drops it.
fn see_removals(rt: &impl Abort, judge: &mut NameJudge) -> Result<(), Fail> {
    let agreed = BEFORE_INIT;
    // The name is not given.
    let unknown = judge.see(agreed, Transfer::Request(&request(UNLINK, 4)))?;
    assert!(rt; unknown, "unknown");
    // It is a negative entry.
    let looks = judge.see(agreed, Transfer::Request(&request(LOOKUP, 6)))?;
    let negative = judge.see(agreed, Transfer::Written(&entry(6, 0), Taken::Accepted))?;
    let missing = judge.see(agreed, Transfer::Request(&request(UNLINK, 8)))?;
    assert!(rt; !looks && !negative && missing, "missing");
    // It is given.
    let looks = judge.see(agreed, Transfer::Request(&request(LOOKUP, 10)))?;
    let found = judge.see(agreed, Transfer::Written(&entry(10, 5), Taken::Accepted))?;
    let given = judge.see(agreed, Transfer::Request(&request(UNLINK, 12)))?;
    assert!(rt; !looks && !found && !given, "given");
    // It is removed.
    let removed = judge.see(agreed, Transfer::Written(&reply(12), Taken::Accepted))?;
    let twice = judge.see(agreed, Transfer::Request(&request(UNLINK, 14)))?;
    assert!(rt; !removed && twice, "twice");
    // Several threads use the device.
    let threads = judge.see(agreed, Transfer::SeveralReaders)?;
    let unsure = judge.see(agreed, Transfer::Request(&request(UNLINK, 16)))?;
    assert!(rt; !threads && !unsure, "unsure");
    Ok(())
}

#[test]
fn names_that_are_removed(rt: HostRuntime) -> Result<(), Fail> {
    let mut judge = NameJudge::new(rt.alloc());
    see_removals(&rt, &mut judge)
}

/// A judge sees a directory that is forgotten.
fn see_forgotten(rt: &impl Abort, judge: &mut NameJudge) -> Result<(), Fail> {
    let agreed = BEFORE_INIT;
    let looks = judge.see(agreed, Transfer::Request(&request(LOOKUP, 4)))?;
    let found = judge.see(agreed, Transfer::Written(&entry(4, 5), Taken::Accepted))?;
    judge.forget(1);
    let left = judge.see(agreed, Transfer::Request(&request(UNLINK, 6)))?;
    assert!(rt; !looks && !found && left, "left");
    Ok(())
}

#[test]
fn names_of_a_directory_that_is_forgotten(rt: HostRuntime) -> Result<(), Fail> {
    let mut judge = NameJudge::new(rt.alloc());
    see_forgotten(&rt, &mut judge)
}
