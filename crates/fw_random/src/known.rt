//! What is known of a run by what it printed.

use crate::alike::is_done;
use crate::group::{Group, copied};
use crate::text::{number_of, put, split_line, split_word, word_at, words_behind};
use fw_drive::NoLine;
use std::alloc::Allocator;

/// Calls, open files, requests and nodes, as the lines that a run printed say.
#[derive(Drop)]
pub(crate) struct Known<A: Allocator> {
    /// The calls that wait for their answers.
    pub(crate) calls: Vec<u64, A>,
    /// The calls whose files are open.
    pub(crate) open: Vec<u64, A>,
    /// Those of them that are open for reading alone, and for writing alone.
    pub(crate) unwritable: Vec<u64, A>,
    pub(crate) unreadable: Vec<u64, A>,
    /// The requests whose replies are to come.
    pub(crate) sent: Vec<u64, A>,
    /// The nodes that the kernel counted when they were shown last.
    pub(crate) nodes: Vec<u64, A>,
    /// The calls since nothing was under way.
    pub(crate) group: Group<A>,
    /// The line that is run.
    pub(crate) line: Vec<u8, A>,
    /// How many lines were run.
    lines: u64,
    alloc: A,
    /// A listing that was sent by the line that is run.
    listing: u64,
}

/// Keeps a number behind others.
fn keep<A: Allocator>(numbers: &mut Vec<u64, A>, number: u64) -> Result<(), NoLine> {
    match numbers.push(number) {
        Ok(()) => Ok(()),
        Err(_) => Err(NoLine::NoMemory),
    }
}

/// Takes a number out, and says whether it was there.
pub(crate) fn take_out<A: Allocator>(numbers: &mut Vec<u64, A>, number: u64) -> bool {
    let found = numbers.as_slice().iter().position(|other| *other == number);
    match found {
        Some(place) if place < numbers.len() => {
            let _gone = numbers.swap_remove(place);
            true
        }
        _ => false,
    }
}

impl<A: Allocator + Copy> Known<A> {
    pub(crate) fn new(alloc: A) -> Self {
        Known {
            calls: Vec::new(alloc),
            open: Vec::new(alloc),
            unwritable: Vec::new(alloc),
            unreadable: Vec::new(alloc),
            sent: Vec::new(alloc),
            nodes: Vec::new(alloc),
            group: Group::new(alloc),
            line: Vec::new(alloc),
            lines: 0,
            alloc,
            listing: 0,
        }
    }

    /// A line is run.
    pub(crate) fn keep_line(&mut self, line: &[u8]) -> Result<(), NoLine> {
        self.lines = self.lines.saturating_add(1);
        self.line.clear();
        put(&mut self.line, line)
    }

    /// A call began.
    fn begun(&mut self, call: u64) -> Result<(), NoLine> {
        keep(&mut self.calls, call)?;
        self.group.begin(call, self.line.as_slice(), self.lines)
    }

    /// A file was opened by the words of a line.
    fn opened(&mut self, call: u64, flags: &[u8]) -> Result<(), NoLine> {
        match flags {
            b"r" => keep(&mut self.unwritable, call)?,
            b"w" => keep(&mut self.unreadable, call)?,
            _ => {}
        }
        keep(&mut self.open, call)
    }

    /// A call was answered. A listing whose directory could not be opened was not sent.
    fn answered(&mut self, call: u64, words: &[u8]) -> Result<(), NoLine> {
        let _waited = take_out(&mut self.calls, call);
        let _sent = take_out(&mut self.sent, self.listing);
        let line = copied(self.alloc, self.group.line_of(call))?;
        if is_done(words) && matches!(word_at(line.as_slice(), 1), b"open" | b"create") {
            self.opened(call, word_at(line.as_slice(), 3))?;
        }
        self.group.answer(call, words)
    }

    /// A request was sent.
    fn sent(&mut self, unique: u64, name: &[u8]) -> Result<(), NoLine> {
        match name {
            b"FORGET" | b"BATCH_FORGET" | b"INTERRUPT" => return Ok(()),
            b"READDIR" | b"READDIRPLUS" => self.listing = unique,
            _ => {}
        }
        keep(&mut self.sent, unique)
    }

    /// A reply was taken.
    fn written(&mut self, unique: u64) {
        let _waited = take_out(&mut self.sent, unique);
    }

    /// The nodes were shown.
    fn shown(&mut self, nodes: &[u8]) -> Result<(), NoLine> {
        self.nodes.clear();
        let mut rest = nodes;
        for _node in 0..nodes.len() {
            if rest.is_empty() {
                break;
            }
            let (node, more) = split_word(rest);
            keep(&mut self.nodes, number_of(node))?;
            rest = more;
        }
        Ok(())
    }

    /// A line was printed.
    fn note_line(&mut self, line: &[u8]) -> Result<(), NoLine> {
        let (what, rest) = split_word(line);
        let (first, rest_behind) = split_word(rest);
        let (second, _) = split_word(rest_behind);
        match what {
            b"call" => self.begun(number_of(first)),
            b"answer" => self.answered(number_of(first), words_behind(line, 2)),
            b"read" => self.sent(number_of(first), second),
            b"written" => {
                self.written(number_of(first));
                Ok(())
            }
            b"kernel" => self.shown(rest),
            _ => Ok(()),
        }
    }

    /// Lines were printed.
    pub(crate) fn note(&mut self, text: &[u8]) -> Result<(), NoLine> {
        self.listing = 0;
        let mut rest = text;
        for _line in 0..text.len() {
            if rest.is_empty() {
                break;
            }
            let (line, more) = split_line(rest);
            self.note_line(line)?;
            rest = more;
        }
        Ok(())
    }
}
