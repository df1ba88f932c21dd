//! The calls that are under way at once, and what they are answered.

use crate::adopted::adopt;
use crate::alike::{
    are_alike, goes_on, is_done, is_interrupted, is_made_otherwise, is_refused_as_above,
};
use crate::beside::Beside;
use crate::plan::Plan;
use crate::text::{put, put_number, word_at, words_behind};
use frame_words::name_of_error;
use fuse_text::read_number;
use fw_drive::NoLine;
use std::alloc::Allocator;

/// A call.
#[derive(Drop)]
struct Called<A: Allocator> {
    number: u64,
    line: Vec<u8, A>,
    /// The number of that line.
    line_number: u64,
    /// The words of its answer, and none before it comes.
    answer: Vec<u8, A>,
    /// Whether its answer is right.
    is_right: bool,
}

/// Calls that run at once, one of which at most changes files. So they are in one of two orders for each other call: that
/// is made before the change, or behind it.
#[derive(Drop)]
pub(crate) struct Group<A: Allocator> {
    alloc: A,
    calls: Vec<Called<A>, A>,
    /// How many of them are answered.
    answered: usize,
    /// Whether one was signalled.
    pub(crate) is_signalled: bool,
    /// Whether a file was changed so far.
    has_changed: bool,
    /// The names of the last whole listing.
    listed: Vec<u8, A>,
}

/// Whether a call changes no file, and opens and closes none.
pub(crate) fn is_reader(line: &[u8]) -> bool {
    matches!(word_at(line, 1), b"stat" | b"list" | b"listplus" | b"read")
}

/// Whether a call changes the files that a server has.
fn is_change(line: &[u8]) -> bool {
    !is_reader(line) && !matches!(word_at(line, 1), b"open" | b"close")
}

/// Whether a call lists a directory from its beginning.
fn is_first_page(line: &[u8]) -> bool {
    word_at(line, 1) == b"list".as_slice() && word_at(line, 3) == b"0".as_slice()
}

/// Whether a call lists a directory from an offset on.
fn is_later_page(line: &[u8]) -> bool {
    word_at(line, 1) == b"list".as_slice() && word_at(line, 3) != b"0".as_slice()
}

/// Whether a call opens a file for reading alone.
fn is_open_to_read(line: &[u8]) -> bool {
    word_at(line, 1) == b"open".as_slice() && word_at(line, 3) == b"r".as_slice()
}

/// A text of its own.
pub(crate) fn copied<A: Allocator>(alloc: A, text: &[u8]) -> Result<Vec<u8, A>, NoLine> {
    let mut copy = Vec::new(alloc);
    put(&mut copy, text)?;
    Ok(copy)
}

/// Appends the words of an answer, behind the name of the error that it is, if it is one.
fn put_answer<A: Allocator>(line: &mut Vec<u8, A>, words: &[u8]) -> Result<(), NoLine> {
    let name = match read_number(words) {
        Some(number) => match u32::try_from(number) {
            Ok(errno) => name_of_error(errno),
            Err(_) => None,
        },
        None => None,
    };
    if let Some(name) = name {
        put(line, name.as_bytes())?;
        put(line, b" ")?;
    }
    put(line, words)
}

/// Appends that the answer to a call differs from that of the world beside.
fn put_difference<A: Allocator>(
    said: &mut Vec<u8, A>,
    called: &Called<A>,
    here: &[u8],
) -> Result<(), NoLine> {
    put(said, b"differs: answer ")?;
    put_number(said, called.number)?;
    put(said, b" (")?;
    put(said, called.line.as_slice())?;
    put(said, b", line ")?;
    put_number(said, called.line_number)?;
    put(said, b"): ")?;
    put_answer(said, called.answer.as_slice())?;
    put(said, b", here ")?;
    put_answer(said, here)?;
    put(said, b"\n")
}

impl<A: Allocator + Copy> Group<A> {
    pub(crate) fn new(alloc: A) -> Self {
        Group {
            alloc,
            calls: Vec::new(alloc),
            answered: 0,
            is_signalled: false,
            has_changed: false,
            listed: Vec::new(alloc),
        }
    }

    /// A call began by a line, which has this number.
    pub(crate) fn begin(
        &mut self,
        number: u64,
        line: &[u8],
        line_number: u64,
    ) -> Result<(), NoLine> {
        let called = Called {
            number,
            line: copied(self.alloc, line)?,
            line_number,
            answer: Vec::new(self.alloc),
            is_right: false,
        };
        match self.calls.push(called) {
            Ok(()) => Ok(()),
            Err(_) => Err(NoLine::NoMemory),
        }
    }

    /// A call was answered.
    pub(crate) fn answer(&mut self, number: u64, words: &[u8]) -> Result<(), NoLine> {
        for called in self.calls.iter_mut() {
            if called.number == number {
                put(&mut called.answer, words)?;
                self.answered = self.answered.saturating_add(1);
                if is_first_page(called.line.as_slice()) && is_done(words) {
                    self.listed.clear();
                    put(&mut self.listed, words_behind(words, 1))?;
                }
                break;
            }
        }
        Ok(())
    }

    /// The line of a call.
    pub(crate) fn line_of(&self, number: u64) -> &[u8] {
        for called in self.calls.as_slice() {
            if called.number == number {
                return called.line.as_slice();
            }
        }
        b""
    }

    /// Whether there are calls, and all are answered.
    pub(crate) fn is_over(&self) -> bool {
        self.answered > 0 && self.answered >= self.calls.len()
    }

    /// Whether there are several.
    pub(crate) fn is_many(&self) -> bool {
        self.calls.len() > 1
    }

    /// Whether one of the calls changes files.
    pub(crate) fn has_change(&self) -> bool {
        self.calls
            .as_slice()
            .iter()
            .any(|called| !is_reader(called.line.as_slice()))
    }

    /// The calls are over, and nothing is known of them any more.
    pub(crate) fn clear(&mut self) {
        self.calls.clear();
        self.answered = 0;
        self.is_signalled = false;
    }

    /// What each call brings about.
    pub(crate) fn follow(&self, plan: &mut Plan<A>) -> Result<(), NoLine> {
        for called in self.calls.as_slice() {
            plan.follow(
                called.number,
                called.line.as_slice(),
                called.answer.as_slice(),
            )?;
        }
        Ok(())
    }

    /// Makes the calls beside that change nothing, and notes which of the answers are right. Appends what is to be said of the
    /// others, where that is asked for.
    fn judge_readers(
        &mut self,
        beside: &mut Beside<A>,
        says: bool,
        said: &mut Vec<u8, A>,
    ) -> Result<(), NoLine> {
        let is_alone = !self.has_change();
        for called in self.calls.iter_mut() {
            let line = called.line.as_slice();
            let answer = called.answer.as_slice();
            if called.is_right || !is_reader(line) {
                continue;
            }
            let (is_right, here) = if is_later_page(line) {
                let listed = self.listed.as_slice();
                (
                    goes_on(listed, word_at(line, 3), answer),
                    copied(self.alloc, listed)?,
                )
            } else {
                let here = beside.make(called.number, line)?;
                (are_alike(line, answer, here.as_slice(), is_alone), here)
            };
            called.is_right = is_right || (self.is_signalled && is_interrupted(answer));
            if says && !called.is_right {
                put_difference(said, called, here.as_slice())?;
            }
        }
        Ok(())
    }

    /// Whether an answer is that of a server which has changed nothing so far: it may refuse each change.
    fn may_refuse(&self, line: &[u8], answer: &[u8]) -> bool {
        !self.has_changed && !is_done(answer) && !is_open_to_read(line)
    }

    /// Notes whether a file was changed.
    fn note_change(&mut self) {
        let made = self.calls.as_slice().iter().any(|called| {
            is_change(called.line.as_slice()) && is_done(called.answer.as_slice())
        });
        self.has_changed |= made;
    }

    /// Makes the calls beside that change files, and appends what is to be said of each answer that differs. What a signal ended
    /// changed nothing, and nor did what was refused.
    fn judge_changes(&self, beside: &mut Beside<A>, said: &mut Vec<u8, A>) -> Result<(), NoLine> {
        for called in self.calls.as_slice() {
            let line = called.line.as_slice();
            let answer = called.answer.as_slice();
            if is_reader(line)
                || (self.is_signalled && is_interrupted(answer))
                || self.may_refuse(line, answer)
            {
                continue;
            }
            let here = beside.make(called.number, line)?;
            if !is_right(
                self.alloc,
                beside,
                called.number,
                line,
                answer,
                here.as_slice(),
            )? {
                put_difference(said, called, here.as_slice())?;
            }
        }
        Ok(())
    }

    /// Takes over into the world beside what the answers show to be there.
    pub(crate) fn adopt(&self, beside: &mut Beside<A>) -> Result<(), NoLine> {
        for called in self.calls.as_slice() {
            adopt(
                self.alloc,
                beside,
                called.number,
                called.line.as_slice(),
                called.answer.as_slice(),
            )?;
        }
        Ok(())
    }

    /// Appends which calls have their answers in no order, where there are several.
    fn put_no_order(&self, said: &mut Vec<u8, A>) -> Result<(), NoLine> {
        let count = self.calls.len();
        if count < 2 {
            return Ok(());
        }
        put(said, b"differs: no order of calls ")?;
        for (place, called) in self.calls.as_slice().iter().enumerate() {
            if place + 1 == count {
                put(said, b" and ")?;
            } else if place > 0 {
                put(said, b", ")?;
            }
            put_number(said, called.number)?;
        }
        put(said, b" gives these answers\n")
    }

    /// Compares the answers with those of the world beside. Appends what is to be said of each that is in no order of the calls
    /// that one, and then of the calls.
    pub(crate) fn judge(
        &mut self,
        beside: &mut Beside<A>,
        said: &mut Vec<u8, A>,
    ) -> Result<(), NoLine> {
        let before = said.len();
        if self.has_change() {
            self.judge_readers(beside, false, said)?;
            self.note_change();
            self.judge_changes(beside, said)?;
        }
        self.judge_readers(beside, true, said)?;
        if said.len() > before {
            self.put_no_order(said)?;
        }
        Ok(())
    }
}

/// Whether an answer to a call that changes files is right beside the one here.
fn is_right<A: Allocator + Copy>(
    alloc: A,
    beside: &mut Beside<A>,
    number: u64,
    line: &[u8],
    answer: &[u8],
    here: &[u8],
) -> Result<bool, NoLine> {
    if are_alike(line, answer, here, true) || is_refused_as_above(line, answer, here) {
        return Ok(true);
    }
    if !is_made_otherwise(line, answer, here) {
        return Ok(false);
    }
    let mut open = copied(alloc, b"call open ")?;
    put(&mut open, word_at(line, 2))?;
    let opened = beside.make(number, open.as_slice())?;
    Ok(are_alike(open.as_slice(), answer, opened.as_slice(), true))
}
