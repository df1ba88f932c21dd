//! What no clause says: that a session is seen to its end, with its faults where FUSE's rules have them.

use fuse_judge::Judge;
use fuse_protocol::Opcode;
use fuse_sessions::{Act, Asked, Fault, File, OpenFile, OpenKind, Taken};
use std::alloc::Global;
use std::process::Abort;
use std::test::Fail;

const FILE: File = File {
    generation: 1,
    kind: 0o100000,
    ino: 7,
};

const LINK: File = File {
    generation: 1,
    kind: 0o120000,
    ino: 7,
};

const HANDLE: OpenFile = OpenFile {
    kind: OpenKind::File,
    nodeid: 5,
    fh: 9,
};

/// A request that names a node and uses an open file or not.
fn asks(unique: u64, opcode: Opcode, nodeid: u64, uses: Option<OpenFile>) -> Act {
    let asked = Asked {
        opcode: Some(opcode),
        asked: 0,
        writes: 0,
        lists_from: 0,
        makes: 0,
        is_dots: false,
        nodeid,
        other: 0,
        uses,
        copies_to: None,
    };
    Act::Asks { unique, asked }
}

fn replies(unique: u64, taken: Taken) -> Act {
    Act::Replies { unique, taken }
}

fn gives(file: File) -> Act {
    Act::Gives {
        nodeid: 5,
        file,
        is_certain: true,
    }
}

/// Whether the judge names the fault, or none, of each act.
fn names(
    judge: &mut Judge,
    acts: &[Act],
    faults: &[Option<Fault>],
    verdicts: &mut Vec<Option<Fault>>,
) -> bool {
    judge.see(acts, verdicts).is_ok() && verdicts.as_slice() == faults
}

/// INIT is asked and answered.
fn begins(judge: &mut Judge, verdicts: &mut Vec<Option<Fault>>) -> bool {
    let acts = [
        Act::Arrives,
        Act::Begins(Opcode::Init),
        Act::Read {
            opcode: Some(Opcode::Init),
            unique: 2,
        },
        asks(2, Opcode::Init, 0, None),
        Act::Agrees(65536),
        replies(2, Taken::Accepted),
    ];
    names(judge, &acts, &[None; 6], verdicts)
}

/// A node of two kinds is given, and three numbers are wrong.
fn looks_up(judge: &mut Judge, verdicts: &mut Vec<Option<Fault>>) -> bool {
    let acts = [
        Act::Read {
            opcode: Some(Opcode::Lookup),
            unique: 4,
        },
        asks(4, Opcode::Lookup, 1, None),
        Act::Names(1),
        replies(4, Taken::Accepted),
        gives(FILE),
        gives(LINK),
        replies(4, Taken::NoEntry),
        replies(6, Taken::NoEntry),
        Act::Read {
            opcode: Some(Opcode::Getattr),
            unique: 4,
        },
    ];
    let faults = [
        None,
        None,
        None,
        None,
        None,
        Some(Fault::NodeOfTwoKinds),
        Some(Fault::SecondReply),
        Some(Fault::ReplyToNothing),
        Some(Fault::NumberUsedTwice),
    ];
    names(judge, &acts, &faults, verdicts)
}

/// An open file is used, released and released again, its node forgotten and named.
fn reads(judge: &mut Judge, verdicts: &mut Vec<Option<Fault>>) -> bool {
    let acts = [
        Act::Opens(HANDLE),
        asks(8, Opcode::Read, 5, Some(HANDLE)),
        Act::Uses(HANDLE),
        Act::Forgets(5, 2),
        Act::Releases(HANDLE),
        Act::Releases(HANDLE),
        Act::Interrupts {
            unique: 9,
            original: 8,
        },
        Act::Interrupts {
            unique: 9,
            original: 8,
        },
        Act::Names(5),
    ];
    let faults = [
        None,
        None,
        None,
        Some(Fault::ForgetOfANodeInUse),
        Some(Fault::ReleaseBesideAUse),
        Some(Fault::ReleaseOfWhatIsNotOpen),
        None,
        Some(Fault::InterruptTooOften),
        Some(Fault::NodeNotCounted),
    ];
    names(judge, &acts, &faults, verdicts)
}

/// A WRITE is too large, and a read comes after the end.
fn ends(judge: &mut Judge, verdicts: &mut Vec<Option<Fault>>) -> bool {
    let acts = [
        Act::Writes(65536),
        Act::Writes(65537),
        Act::Ends,
        Act::Arrives,
    ];
    let faults = [
        None,
        Some(Fault::WriteTooLarge),
        None,
        Some(Fault::ReadAfterTheEnd),
    ];
    names(judge, &acts, &faults, verdicts)
}

#[test]
fn one_session(rt: HostRuntime) -> Result<(), Fail> {
    let mut judge = Judge::new(rt.alloc());
    let mut verdicts = Vec::new(rt.alloc());
    assert!(rt; begins(&mut judge, &mut verdicts), "begins");
    assert!(rt; looks_up(&mut judge, &mut verdicts), "looks up");
    assert!(rt; reads(&mut judge, &mut verdicts), "reads");
    assert!(rt; ends(&mut judge, &mut verdicts), "ends");
    Ok(())
}
