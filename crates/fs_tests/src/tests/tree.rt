//! The tree's operations: each call once, each refusal, also where two apply, the limits, and refused growths.

use fail_at::{Outcome, Tried, judged};
use fs_tree::{Attributes, Kind, Record, Tree, TreeError};
use std::alloc::{Allocator, Global};

mod growths;
mod table;

/// An operation, with the names as text. Files are named by their inodes.
#[derive(Clone, Copy)]
enum Operation {
    Lookup(u64, &'static str),
    Mkdir(u64, &'static str),
    Create(u64, &'static str),
    Unlink(u64, &'static str),
    Rmdir(u64, &'static str),
    /// The file, the directory and the name in it.
    Link(u64, u64, &'static str),
    Rename(u64, &'static str, u64, &'static str),
    Open(u64),
    Write(u64, u64, &'static str),
}

/// What an operation answers: a file, none, or nothing to say.
#[derive(Clone, Copy, PartialEq, Eq)]
enum Answer {
    File(u64),
    Missing,
    Done,
}

/// The cookie, the file, the kind and the bytes of a name that is listed.
type Listed = (u64, u64, Kind, &'static str);

#[derive(Clone, Copy)]
enum Row {
    /// An operation, and what it must give.
    Gives(Operation, Result<Answer, TreeError>),
    /// The bytes of a file from an offset, at most this many.
    Read(u64, u64, u32, &'static str),
    /// How many bytes a read gives.
    ReadLength(u64, u64, u32, usize),
    Getattr(u64, Attributes),
    /// The names of a directory from an offset, in this many bytes.
    Readdir(u64, u64, u32, &'static [Listed]),
    /// A file that is no directory lists nothing.
    NoReaddir(u64),
    /// What a file is: a directory, regular, nameless; and how many names lead to it.
    Is(u64, [bool; 3], usize),
    /// Whether two names lead to one file.
    AreSame(u64, &'static str, u64, &'static str, bool),
    /// The next inode, and how many inodes and cookies are left.
    Numbers(u64, u64, u64),
    Discard(u64),
    DiscardNameless,
    /// Gives a file all names but one that a tree can have.
    LinkOften(u64),
}

fn found(outcome: Result<Option<u64>, TreeError>) -> Result<Answer, TreeError> {
    match outcome {
        Ok(Some(file)) => Ok(Answer::File(file)),
        Ok(None) => Ok(Answer::Missing),
        Err(error) => Err(error),
    }
}

fn made(outcome: Result<u64, TreeError>) -> Result<Answer, TreeError> {
    match outcome {
        Ok(file) => Ok(Answer::File(file)),
        Err(error) => Err(error),
    }
}

fn done(outcome: Result<(), TreeError>) -> Result<Answer, TreeError> {
    match outcome {
        Ok(()) => Ok(Answer::Done),
        Err(error) => Err(error),
    }
}

/// Performs an operation. Where a counter is at its end, or a file to be written is not regular: Invalid.
fn perform<A: Allocator + Copy>(
    tree: &mut Tree<A>,
    operation: Operation,
) -> Result<Answer, TreeError> {
    if tree.inodes_left() == 0 || tree.cookies_left() == 0 {
        return Err(TreeError::Invalid);
    }
    match operation {
        Operation::Lookup(dir, name) => found(tree.lookup(dir, name.as_bytes())),
        Operation::Mkdir(dir, name) => made(tree.mkdir(dir, name.as_bytes())),
        Operation::Create(dir, name) => made(tree.create(dir, name.as_bytes())),
        Operation::Open(file) => done(tree.open(file)),
        Operation::Write(file, offset, text) => {
            if !tree.is_regular(file) {
                return Err(TreeError::Invalid);
            }
            done(tree.write(file, offset, text.as_bytes()))
        }
        _ => move_name(tree, operation),
    }
}

fn move_name<A: Allocator + Copy>(
    tree: &mut Tree<A>,
    operation: Operation,
) -> Result<Answer, TreeError> {
    if tree.cookies_left() == 0 {
        return Err(TreeError::Invalid);
    }
    match operation {
        Operation::Unlink(dir, name) => done(tree.unlink(dir, name.as_bytes())),
        Operation::Rmdir(dir, name) => done(tree.rmdir(dir, name.as_bytes())),
        Operation::Link(file, dir, name) => done(tree.link(file, dir, name.as_bytes())),
        Operation::Rename(dir, old, new_dir, new) => {
            done(tree.rename(dir, old.as_bytes(), new_dir, new.as_bytes()))
        }
        _ => Err(TreeError::Invalid),
    }
}

/// What an operation results in.
fn gives<A: Allocator + Copy>(
    tree: &mut Tree<A>,
    operation: Operation,
    wanted: Result<Answer, TreeError>,
) -> Outcome {
    match perform(tree, operation) {
        Err(TreeError::NoMemory) => Outcome::NoMemory,
        given => judged(given == wanted),
    }
}

fn is_name(record: &Record<'_>, name: &Listed) -> bool {
    record.cookie == name.0
        && record.file == name.1
        && record.kind == name.2
        && record.name == name.3.as_bytes()
}

fn are_names(records: &[Record<'_>], names: &[Listed]) -> bool {
    if records.len() != names.len() {
        return false;
    }
    for (record, name) in records.iter().zip(names) {
        if !is_name(record, name) {
            return false;
        }
    }
    true
}

fn lists<A: Allocator + Copy>(
    tree: &Tree<A>,
    directory: u64,
    offset: u64,
    size: u32,
    names: &[Listed],
) -> Outcome {
    match tree.readdir(directory, offset, size) {
        Ok(records) => judged(are_names(&records, names)),
        Err(TreeError::NoMemory) => Outcome::NoMemory,
        Err(_) => Outcome::Wrong,
    }
}

/// Whether no name is listed of a file, since it is no directory.
fn lists_none<A: Allocator + Copy>(tree: &Tree<A>, file: u64) -> bool {
    matches!(tree.readdir(file, 0, 4096), Err(TreeError::NotADirectory))
}

fn is<A: Allocator + Copy>(tree: &Tree<A>, file: u64, kind: [bool; 3], names: usize) -> bool {
    [
        tree.is_directory(file),
        tree.is_regular(file),
        tree.is_nameless(file),
    ] == kind
        && tree.names_of(file) == names
}

fn has_attributes<A: Allocator + Copy>(tree: &Tree<A>, file: u64, wanted: Attributes) -> bool {
    file < 1 << 62 && tree.getattr(file) == wanted
}

fn are_same<A: Allocator + Copy>(
    tree: &Tree<A>,
    directory: u64,
    name: &str,
    other_directory: u64,
    other: &str,
) -> bool {
    tree.are_same(
        directory,
        name.as_bytes(),
        other_directory,
        other.as_bytes(),
    )
}

/// Gives a file all names but one that a tree can have. Says whether none was refused.
fn links_often<A: Allocator + Copy>(tree: &mut Tree<A>, file: u64) -> bool {
    for n in 1..4096u32 {
        if tree.cookies_left() == 0 || tree.link(file, 0, &n.to_le_bytes()).is_err() {
            return false;
        }
    }
    true
}

impl<A: Allocator + Copy> Tried<Row, A> for Tree<A> {
    fn attempt(&mut self, _heap: A, _alloc: Global, row: Row) -> Outcome {
        match row {
            Row::Gives(operation, wanted) => return gives(self, operation, wanted),
            Row::Readdir(directory, offset, size, names) => {
                return lists(self, directory, offset, size, names);
            }
            Row::Discard(file) => self.discard(file),
            Row::DiscardNameless => self.discard_nameless(),
            Row::LinkOften(file) => return judged(links_often(self, file)),
            _ => return judged(sees(self, row)),
        }
        Outcome::Right
    }
}

/// Whether a look sees what it must.
fn sees<A: Allocator + Copy>(tree: &Tree<A>, row: Row) -> bool {
    match row {
        Row::Read(file, offset, size, text) => tree.read(file, offset, size) == text.as_bytes(),
        Row::ReadLength(file, offset, size, length) => {
            tree.read(file, offset, size).len() == length
        }
        Row::Getattr(file, wanted) => has_attributes(tree, file, wanted),
        Row::NoReaddir(file) => lists_none(tree, file),
        Row::Is(file, kind, names) => is(tree, file, kind, names),
        Row::AreSame(directory, name, other_directory, other, wanted) => {
            are_same(tree, directory, name, other_directory, other) == wanted
        }
        Row::Numbers(inode, inodes, cookies) => {
            tree.next_inode() == inode
                && tree.inodes_left() == inodes
                && tree.cookies_left() == cookies
        }
        _ => false,
    }
}
