//! A world of this project's own, in which the calls of a run are made again.

use crate::text::{put, split_word, words_behind};
use fuse_text::{is_hex_or_none, read_hex_or_none};
use fw_drive::NoLine;
use fw_reference::Reference;
use fw_script::{Line, read_line, write_record};
use fw_world::{Answer, Call, Event, Maps, Record, Refusal, Tables};
use std::alloc::Allocator;

/// A world beside the server that is driven.
#[derive(Drop)]
pub(crate) struct Beside<A: Allocator + Copy> {
    alloc: A,
    reference: Reference<Maps<A>>,
}

/// Why there is no line, where an event of the world is refused.
fn of_refusal(refusal: Refusal) -> NoLine {
    match refusal {
        Refusal::NoMemory => NoLine::NoMemory,
        refusal => NoLine::Refused(refusal),
    }
}

/// Makes a call, which has this number there. Gives its answer here, if it was begun.
fn carry<T: Tables>(
    reference: &mut Reference<T>,
    number: u64,
    call: &Call<'_>,
) -> Result<Option<Answer<T::Heap>>, NoLine> {
    match reference.make(call, number) {
        Ok(Some(_here)) => Ok(reference.collect()),
        Ok(None) => Ok(None),
        Err(refusal) => Err(of_refusal(refusal)),
    }
}

impl<A: Allocator + Copy> Beside<A> {
    /// A world before its mount.
    pub(crate) fn new(alloc: A) -> Result<Self, NoLine> {
        match Reference::<Maps<A>>::new(alloc) {
            Ok(reference) => Ok(Beside { alloc, reference }),
            Err(_) => Err(NoLine::NoMemory),
        }
    }

    /// Ends the world.
    pub(crate) fn end(self) {
        self.reference.end();
    }

    /// The world mounts, and INIT is answered.
    pub(crate) fn mount(&mut self) -> Result<(), NoLine> {
        self.reference.mount().map_err(of_refusal)
    }

    /// Makes a call, and gives the words of its answer.
    fn answered(&mut self, number: u64, call: Call<'_>) -> Result<Vec<u8, A>, NoLine> {
        let mut words = Vec::new(self.alloc);
        let Some(answer) = carry(&mut self.reference, number, &call)? else {
            return Ok(words);
        };
        let mut record = Vec::new(self.alloc);
        let answered = Record::Answered {
            call: number,
            answer,
        };
        if write_record(&mut record, &answered).is_err() {
            return Err(NoLine::NoMemory);
        }
        put(&mut words, words_behind(record.as_slice(), 2))?;
        Ok(words)
    }

    /// The bytes of a word of hex digits, or of `-` for none. Any other word says no bytes.
    fn bytes_of(&self, hex: &[u8]) -> Result<Option<Vec<u8, A>>, NoLine> {
        let mut bytes = Vec::new(self.alloc);
        if !is_hex_or_none(hex) {
            return Ok(None);
        }
        match read_hex_or_none(&mut bytes, hex) {
            Ok(()) => Ok(Some(bytes)),
            Err(_) => Err(NoLine::NoMemory),
        }
    }

    /// Makes the call of a line, which has this number there. Gives the words of its answer: none, if the line has no call.
    pub(crate) fn make(&mut self, number: u64, line: &[u8]) -> Result<Vec<u8, A>, NoLine> {
        if let Some(opened) = line.strip_prefix(b"call open ") {
            // How a file is opened is said to the server alone.
            let (path, _flags) = split_word(opened);
            return self.answered(number, Call::Open { path });
        }
        match read_line(line) {
            Ok(Line::Event(Event::Call(call))) => self.answered(number, call),
            Ok(
                Line::CallWrite {
                    open_call,
                    offset,
                    hex,
                },
            ) => {
                let Some(bytes) = self.bytes_of(hex)? else {
                    return Ok(Vec::new(self.alloc));
                };
                let call = Call::Write {
                    open_call,
                    offset,
                    bytes: bytes.as_slice(),
                };
                self.answered(number, call)
            }
            _ => Ok(Vec::new(self.alloc)),
        }
    }
}
