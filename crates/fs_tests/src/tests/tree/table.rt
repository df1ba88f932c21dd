//! The operations' table, row by row.

use super::{Answer, Listed, Operation, Row};
use crate::tests::assert_right;
use fail_at::{FailAt, WrongRow, first_wrong};
use fs_tree::{Attributes, Kind, Tree, TreeError};
use std::alloc::{AllocError, Global};
use std::process::Abort;
use std::test::Fail;

/// Inodes and cookies stay below this.
const LEFT: u64 = 1 << 62;

/// The root has the directory 1 and the file 2; in 1 are the directory 3 and the file 4; 5 is a nameless directory and 6
/// a nameless file.
static START: [Row; 8] = [
    Row::Gives(Operation::Mkdir(0, "d"), Ok(Answer::File(1))),
    Row::Gives(Operation::Create(0, "f"), Ok(Answer::File(2))),
    Row::Gives(Operation::Mkdir(1, "e"), Ok(Answer::File(3))),
    Row::Gives(Operation::Create(1, "g"), Ok(Answer::File(4))),
    Row::Gives(Operation::Mkdir(0, "gone"), Ok(Answer::File(5))),
    Row::Gives(Operation::Rmdir(0, "gone"), Ok(Answer::Done)),
    Row::Gives(Operation::Create(0, "lost"), Ok(Answer::File(6))),
    Row::Gives(Operation::Unlink(0, "lost"), Ok(Answer::Done)),
];

/// Each refusal of a lookup, a mkdir and a create.
static LOOKUPS_AND_MAKES: [Row; 14] = [
    Row::Gives(Operation::Lookup(0, "d"), Ok(Answer::File(1))),
    Row::Gives(Operation::Lookup(1, "g"), Ok(Answer::File(4))),
    Row::Gives(Operation::Lookup(1, "d"), Ok(Answer::Missing)),
    Row::Gives(Operation::Lookup(5, "x"), Ok(Answer::Missing)),
    Row::Gives(Operation::Lookup(2, "x"), Err(TreeError::NotADirectory)),
    Row::Gives(Operation::Lookup(77, "x"), Err(TreeError::NotADirectory)),
    Row::Gives(Operation::Mkdir(2, "x"), Err(TreeError::NotADirectory)),
    // a nameless file that is no directory
    Row::Gives(Operation::Mkdir(6, "x"), Err(TreeError::NotADirectory)),
    Row::Gives(Operation::Create(6, "x"), Err(TreeError::NotADirectory)),
    Row::Gives(Operation::Mkdir(5, "x"), Err(TreeError::NotFound)),
    Row::Gives(Operation::Create(5, "x"), Err(TreeError::NotFound)),
    Row::Gives(Operation::Mkdir(0, "f"), Err(TreeError::AlreadyExists)),
    Row::Gives(Operation::Create(0, "d"), Err(TreeError::AlreadyExists)),
    Row::Numbers(7, LEFT - 7, LEFT - 7),
];

/// Names that are alike in their first eight bytes, and one that is all of these.
static ALIKE: [Row; 10] = [
    Row::Gives(Operation::Create(0, "long name"), Ok(Answer::File(1))),
    Row::Gives(Operation::Create(0, "long name 2"), Ok(Answer::File(2))),
    Row::Gives(Operation::Create(0, "long nam"), Ok(Answer::File(3))),
    Row::Gives(Operation::Lookup(0, "long name"), Ok(Answer::File(1))),
    Row::Gives(Operation::Lookup(0, "long name 2"), Ok(Answer::File(2))),
    Row::Gives(Operation::Lookup(0, "long nam"), Ok(Answer::File(3))),
    Row::Gives(Operation::Lookup(0, "long name 3"), Ok(Answer::Missing)),
    Row::Gives(Operation::Unlink(0, "long name"), Ok(Answer::Done)),
    Row::Gives(Operation::Lookup(0, "long name"), Ok(Answer::Missing)),
    Row::Gives(Operation::Lookup(0, "long nam"), Ok(Answer::File(3))),
];

/// Each refusal of an unlink and a rmdir.
static REMOVALS: [Row; 11] = [
    Row::Gives(Operation::Unlink(2, "x"), Err(TreeError::NotADirectory)),
    Row::Gives(Operation::Unlink(0, "x"), Err(TreeError::NotFound)),
    Row::Gives(Operation::Unlink(0, "d"), Err(TreeError::IsADirectory)),
    Row::Gives(Operation::Rmdir(2, "x"), Err(TreeError::NotADirectory)),
    Row::Gives(Operation::Rmdir(0, "x"), Err(TreeError::NotFound)),
    Row::Gives(Operation::Rmdir(0, "f"), Err(TreeError::NotADirectory)),
    Row::Gives(Operation::Rmdir(0, "d"), Err(TreeError::NotEmpty)),
    Row::Gives(Operation::Unlink(1, "g"), Ok(Answer::Done)),
    Row::Gives(Operation::Lookup(1, "g"), Ok(Answer::Missing)),
    Row::Gives(Operation::Rmdir(1, "e"), Ok(Answer::Done)),
    Row::Gives(Operation::Rmdir(0, "d"), Ok(Answer::Done)),
];

/// Each refusal of a link.
static LINKS: [Row; 13] = [
    Row::Gives(Operation::Link(2, 2, "x"), Err(TreeError::NotADirectory)),
    Row::Gives(Operation::Link(1, 2, "x"), Err(TreeError::NotADirectory)),
    Row::Gives(Operation::Link(2, 5, "x"), Err(TreeError::NotFound)),
    // a directory, into a nameless one
    Row::Gives(Operation::Link(1, 5, "x"), Err(TreeError::NotFound)),
    Row::Gives(Operation::Link(1, 0, "x"), Err(TreeError::NotPermitted)),
    // a directory, over a name; a nameless directory
    Row::Gives(Operation::Link(1, 0, "f"), Err(TreeError::NotPermitted)),
    Row::Gives(Operation::Link(5, 0, "x"), Err(TreeError::NotPermitted)),
    Row::Gives(Operation::Link(6, 0, "x"), Err(TreeError::NotFound)),
    // a nameless file, over a name
    Row::Gives(Operation::Link(6, 0, "f"), Err(TreeError::NotFound)),
    Row::Gives(Operation::Link(2, 0, "d"), Err(TreeError::AlreadyExists)),
    Row::Gives(Operation::Link(2, 1, "h"), Ok(Answer::Done)),
    Row::Gives(Operation::Lookup(1, "h"), Ok(Answer::File(2))),
    Row::Is(2, [false, true, false], 2),
];

/// Each refusal of a rename.
static REFUSED_RENAMES: [Row; 12] = [
    Row::Gives(
        Operation::Rename(2, "x", 0, "y"),
        Err(TreeError::NotADirectory),
    ),
    Row::Gives(
        Operation::Rename(0, "x", 2, "y"),
        Err(TreeError::NotADirectory),
    ),
    Row::Gives(Operation::Rename(0, "x", 0, "f"), Err(TreeError::NotFound)),
    Row::Gives(Operation::Rename(0, "f", 5, "y"), Err(TreeError::NotFound)),
    Row::Gives(Operation::Rename(0, "d", 1, "x"), Err(TreeError::Invalid)),
    Row::Gives(Operation::Rename(0, "d", 3, "x"), Err(TreeError::Invalid)),
    // into itself, over a file
    Row::Gives(Operation::Rename(0, "d", 1, "g"), Err(TreeError::Invalid)),
    Row::Gives(
        Operation::Rename(0, "d", 0, "f"),
        Err(TreeError::NotADirectory),
    ),
    Row::Gives(
        Operation::Rename(0, "f", 1, "e"),
        Err(TreeError::IsADirectory),
    ),
    // a file over a directory with names
    Row::Gives(
        Operation::Rename(0, "f", 0, "d"),
        Err(TreeError::IsADirectory),
    ),
    Row::Gives(Operation::Mkdir(0, "c"), Ok(Answer::File(7))),
    Row::Gives(Operation::Rename(0, "c", 0, "d"), Err(TreeError::NotEmpty)),
];

/// What a rename moves and replaces.
static RENAMES: [Row; 13] = [
    Row::Gives(Operation::Rename(0, "d", 0, "d"), Ok(Answer::Done)),
    Row::Gives(Operation::Lookup(0, "d"), Ok(Answer::File(1))),
    Row::Gives(Operation::Link(2, 1, "h"), Ok(Answer::Done)),
    // two names of one file: both stay
    Row::Gives(Operation::Rename(0, "f", 1, "h"), Ok(Answer::Done)),
    Row::Gives(Operation::Lookup(0, "f"), Ok(Answer::File(2))),
    Row::Gives(Operation::Lookup(1, "h"), Ok(Answer::File(2))),
    Row::Gives(Operation::Rename(1, "e", 0, "c"), Ok(Answer::Done)),
    Row::Gives(Operation::Lookup(1, "e"), Ok(Answer::Missing)),
    Row::Gives(Operation::Lookup(0, "c"), Ok(Answer::File(3))),
    Row::Gives(Operation::Rename(1, "g", 0, "f"), Ok(Answer::Done)),
    Row::Gives(Operation::Lookup(0, "f"), Ok(Answer::File(4))),
    Row::Gives(Operation::Lookup(1, "g"), Ok(Answer::Missing)),
    Row::Gives(Operation::Rename(0, "d", 3, "inner"), Ok(Answer::Done)),
];

/// It takes 40 bytes in a list, the others 32 each.
const NINEBYTES: Listed = (3, 3, Kind::Regular, "ninebytes");

const C: Listed = (4, 4, Kind::Regular, "c");

const LAST: Listed = (5, 1, Kind::Directory, "last");

/// Makes the root's names, in the order of their cookies.
static NAMES: [Row; 5] = [
    Row::Gives(Operation::Mkdir(0, "a"), Ok(Answer::File(1))),
    Row::Gives(Operation::Create(1, "deep"), Ok(Answer::File(2))),
    Row::Gives(Operation::Create(0, "ninebytes"), Ok(Answer::File(3))),
    Row::Gives(Operation::Create(0, "c"), Ok(Answer::File(4))),
    Row::Gives(Operation::Rename(0, "a", 0, "last"), Ok(Answer::Done)),
];

/// Lists from an offset, and in few bytes.
static LISTS: [Row; 9] = [
    Row::Readdir(0, 0, 4096, &[NINEBYTES, C, LAST]),
    Row::Readdir(0, 3, 4096, &[C, LAST]),
    Row::Readdir(0, 5, 4096, &[]),
    // a record has 24 bytes and the name, up to a multiple of 8
    Row::Readdir(0, 0, 104, &[NINEBYTES, C, LAST]),
    Row::Readdir(0, 0, 103, &[NINEBYTES, C]),
    Row::Readdir(0, 0, 71, &[NINEBYTES]),
    Row::Readdir(0, 0, 39, &[]),
    Row::Readdir(0, 3, 32, &[C]),
    Row::NoReaddir(3),
];

const FILE: Attributes = Attributes {
    kind: Kind::Regular,
    ino: 2,
    size: 7,
    nlink: 2,
};

const ROOT: Attributes = Attributes {
    kind: Kind::Directory,
    ino: 1,
    size: 0,
    nlink: 1,
};

/// Writes over, behind and past the end of a file of two names.
static BYTES: [Row; 16] = [
    Row::Gives(Operation::Create(0, "f"), Ok(Answer::File(1))),
    Row::Gives(Operation::Link(1, 0, "g"), Ok(Answer::Done)),
    Row::AreSame(0, "f", 0, "g", true),
    Row::AreSame(0, "f", 0, "h", false),
    Row::Gives(Operation::Open(0), Err(TreeError::IsADirectory)),
    Row::Gives(Operation::Open(1), Ok(Answer::Done)),
    Row::Gives(Operation::Write(1, 2, "abc"), Ok(Answer::Done)),
    Row::Gives(Operation::Write(1, 4, "xyz"), Ok(Answer::Done)),
    Row::Gives(Operation::Write(1, 0, "-"), Ok(Answer::Done)),
    Row::Gives(Operation::Write(1, 900, ""), Ok(Answer::Done)),
    Row::Read(1, 0, 100, "-\0abxyz"),
    Row::Read(1, 5, 100, "yz"),
    Row::Read(1, 1, 3, "\0ab"),
    Row::Read(1, 7, 100, ""),
    Row::Getattr(1, FILE),
    Row::Getattr(0, ROOT),
];

/// 65,536 bytes in a file, and 4,096 in a read.
static FULL_FILE: [Row; 6] = [
    Row::Gives(Operation::Write(1, 65_533, "end"), Ok(Answer::Done)),
    Row::Gives(Operation::Write(1, 65_536, ""), Ok(Answer::Done)),
    Row::Gives(
        Operation::Write(1, 65_534, "end"),
        Err(TreeError::FileTooLarge),
    ),
    Row::Gives(
        Operation::Write(1, 65_537, ""),
        Err(TreeError::FileTooLarge),
    ),
    Row::ReadLength(1, 0, 65_536, 4096),
    Row::Read(1, 65_532, 3, "\0en"),
];

/// 4,096 names in a tree.
static FULL_TREE: [Row; 9] = [
    Row::Gives(Operation::Create(0, "f"), Ok(Answer::File(1))),
    Row::LinkOften(1),
    Row::Is(1, [false, true, false], 4096),
    Row::Gives(Operation::Create(0, "g"), Err(TreeError::NoSpace)),
    Row::Gives(Operation::Link(1, 0, "g"), Err(TreeError::NoSpace)),
    // a name that is there comes first
    Row::Gives(Operation::Mkdir(0, "f"), Err(TreeError::AlreadyExists)),
    Row::Gives(Operation::Rename(0, "f", 0, "g"), Ok(Answer::Done)),
    Row::Gives(Operation::Unlink(0, "g"), Ok(Answer::Done)),
    Row::Gives(Operation::Create(0, "h"), Ok(Answer::File(2))),
];

/// A nameless file stays until it is discarded, and the root is never discarded.
static DISCARDED: [Row; 21] = [
    Row::Gives(Operation::Unlink(0, "f"), Ok(Answer::Done)),
    Row::Discard(1),
    Row::Is(1, [false, true, false], 1),
    Row::Gives(Operation::Unlink(0, "g"), Ok(Answer::Done)),
    Row::Is(1, [false, true, true], 0),
    Row::Read(1, 0, 3, "-\0a"),
    Row::Discard(1),
    Row::Is(1, [false, false, true], 0),
    Row::Gives(Operation::Mkdir(0, "d"), Ok(Answer::File(2))),
    Row::Gives(Operation::Create(2, "f"), Ok(Answer::File(3))),
    Row::Gives(Operation::Create(0, "replaced"), Ok(Answer::File(4))),
    Row::Gives(Operation::Rename(2, "f", 0, "replaced"), Ok(Answer::Done)),
    Row::Gives(Operation::Rmdir(0, "d"), Ok(Answer::Done)),
    Row::Discard(0),
    Row::Is(2, [true, false, true], 0),
    Row::Is(4, [false, true, true], 0),
    Row::DiscardNameless,
    Row::Is(2, [false, false, true], 0),
    Row::Is(4, [false, false, true], 0),
    Row::Is(0, [true, false, false], 0),
    Row::Is(3, [false, true, false], 1),
];

/// The first row of two lists that does not come to what it must on a new tree. No growth is refused.
fn wrong_on_new(
    alloc: Global,
    first: &[Row],
    rows: &[Row],
) -> Result<Option<WrongRow>, AllocError> {
    let refusing = FailAt::new(alloc);
    let mut tree = Tree::new(alloc)?;
    let wrong = first_wrong(&mut tree, alloc, &refusing, alloc, &[first, rows]);
    drop(tree);
    Ok(wrong)
}

/// Tries the rows of two lists on a new tree, and refuses no growth.
fn run_on_new(rt: &impl Abort, alloc: Global, first: &[Row], rows: &[Row], name: &str) {
    match wrong_on_new(alloc, first, rows) {
        Ok(wrong) => assert_right(rt, wrong, name),
        Err(AllocError) => assert!(rt; false, "{name}: no memory"),
    }
}

/// The same of the rows of one list, behind those that make the files.
fn run_started(rt: &impl Abort, alloc: Global, rows: &[Row], name: &str) {
    run_on_new(rt, alloc, &START, rows, name);
}

fn check_names(rt: &impl Abort, alloc: Global) {
    run_started(rt, alloc, &LOOKUPS_AND_MAKES, "lookups and makes");
    run_on_new(rt, alloc, &ALIKE, &[], "names alike");
    run_started(rt, alloc, &REMOVALS, "removals");
    run_started(rt, alloc, &LINKS, "links");
}

fn check_renames(rt: &impl Abort, alloc: Global) {
    run_started(rt, alloc, &REFUSED_RENAMES, "refused renames");
    run_started(rt, alloc, &RENAMES, "renames");
}

fn check_contents(rt: &impl Abort, alloc: Global) {
    run_on_new(rt, alloc, &NAMES, &LISTS, "lists");
    run_on_new(rt, alloc, &BYTES, &FULL_FILE, "full file");
    run_on_new(rt, alloc, &BYTES, &DISCARDED, "discarded");
    run_on_new(rt, alloc, &[], &FULL_TREE, "full tree");
}

#[test]
fn the_table(rt: HostRuntime) -> Result<(), Fail> {
    check_names(&rt, rt.alloc());
    check_renames(&rt, rt.alloc());
    check_contents(&rt, rt.alloc());
    Ok(())
}
