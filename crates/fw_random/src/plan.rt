//! Lines that are to come.

use crate::alike::{is_done, next_name};
use crate::group::copied;
use crate::text::{put, put_number, split_at, split_word, word_at, words_behind};
use fw_drive::NoLine;
use std::alloc::Allocator;

/// How many lines a look over the tree adds at most.
const LOOK: u64 = 600;

/// How many paths are remembered.
const PATHS: usize = 24;

/// Lines that come next, and what is remembered for others.
#[derive(Drop)]
pub(crate) struct Plan<A: Allocator> {
    alloc: A,
    /// Lines that are to come, the last first.
    pub(crate) todo: Vec<Vec<u8, A>, A>,
    /// Calls that may begin while others are under way.
    pub(crate) round: Vec<Vec<u8, A>, A>,
    /// Paths under which something was once.
    pub(crate) paths: Vec<Vec<u8, A>, A>,
    /// How many lines the look over the tree may still add. None while there is no look.
    look: u64,
    /// Whether the look lists directories with READDIRPLUS, so that a name is used by what that gave.
    lists_entries: bool,
    /// Whether the nodes that are shown next are evicted.
    pub(crate) evicts: bool,
    /// Whether calls are chosen too that Linux does not send.
    is_any: bool,
}

/// Keeps a text behind others.
pub(crate) fn keep_text<A: Allocator>(
    texts: &mut Vec<Vec<u8, A>, A>,
    text: Vec<u8, A>,
) -> Result<(), NoLine> {
    match texts.push(text) {
        Ok(()) => Ok(()),
        Err(_) => Err(NoLine::NoMemory),
    }
}

impl<A: Allocator + Copy> Plan<A> {
    pub(crate) fn new(alloc: A, is_any: bool) -> Self {
        Plan {
            alloc,
            todo: Vec::new(alloc),
            round: Vec::new(alloc),
            paths: Vec::new(alloc),
            look: 0,
            lists_entries: false,
            evicts: false,
            is_any,
        }
    }

    /// A line comes before those that are to come.
    pub(crate) fn put_first(&mut self, words: &[u8]) -> Result<(), NoLine> {
        let line = copied(self.alloc, words)?;
        keep_text(&mut self.todo, line)
    }

    /// A line of some words, a text and some words comes before those that are to come.
    pub(crate) fn put_with(
        &mut self,
        words: &[u8],
        text: &[u8],
        more: &[u8],
    ) -> Result<(), NoLine> {
        let mut line = copied(self.alloc, words)?;
        put(&mut line, text)?;
        put(&mut line, more)?;
        keep_text(&mut self.todo, line)
    }

    /// A line of some words, a number and some words comes before those that are to come.
    pub(crate) fn put_numbered(
        &mut self,
        words: &[u8],
        number: u64,
        more: &[u8],
    ) -> Result<(), NoLine> {
        let mut line = copied(self.alloc, words)?;
        put_number(&mut line, number)?;
        put(&mut line, more)?;
        keep_text(&mut self.todo, line)
    }

    /// The words that list a directory in a look.
    fn listing(&self) -> &'static [u8] {
        if self.lists_entries {
            b"call listplus "
        } else {
            b"call list "
        }
    }

    /// A look over the tree comes, which lists directories with the entries of their names, or without.
    pub(crate) fn begin_look(&mut self, lists_entries: bool) -> Result<(), NoLine> {
        self.look = LOOK;
        self.lists_entries = lists_entries;
        let listing = self.listing();
        self.put_first(b"call stat /")?;
        self.put_with(listing, b"/ 0", b"")
    }

    /// Whether a look over the tree is under way.
    pub(crate) fn is_looking(&self) -> bool {
        self.look > 0
    }

    /// The look over the tree is over.
    pub(crate) fn end_look(&mut self) {
        self.look = 0;
    }

    /// The nodes in no cached name are evicted, and their forgets sent.
    pub(crate) fn put_evictions(&mut self) -> Result<(), NoLine> {
        self.evicts = true;
        self.put_first(b"read f 1")?;
        self.put_first(b"show")
    }

    /// The names that are looked at behind a listing.
    fn look_at(&mut self, directory: &[u8], names: &[u8]) -> Result<(), NoLine> {
        let mut rest = names;
        for _name in 0..names.len() {
            let Some((listed, more)) = next_name(rest) else {
                break;
            };
            rest = more;
            if self.look < 8 {
                break;
            }
            self.look -= 7;
            let mut path = copied(
                self.alloc,
                if directory == b"/".as_slice() {
                    b""
                } else {
                    directory
                },
            )?;
            put(&mut path, b"/")?;
            put(&mut path, listed.0)?;
            self.put_with(b"call stat ", path.as_slice(), b"")?;
        }
        Ok(())
    }

    /// The directory of a listing is listed once more, from the offset of one of its first records.
    fn list_on(&mut self, directory: &[u8], names: &[u8]) -> Result<(), NoLine> {
        let place = self.look % 2;
        let mut rest = names;
        for _name in 0..place {
            let (_word, more) = split_word(rest);
            if more.is_empty() {
                break;
            }
            rest = more;
        }
        let (word, _) = split_word(rest);
        let (_name, end) = split_at(word, b':');
        let (offset, _kind) = split_at(end, b':');
        if offset.is_empty() || offset == b"0".as_slice() {
            return Ok(());
        }
        let mut line = copied(self.alloc, b"call list ")?;
        put(&mut line, directory)?;
        put(&mut line, b" ")?;
        put(&mut line, offset)?;
        keep_text(&mut self.todo, line)
    }

    /// What a look does with a file of this kind.
    fn look_into(&mut self, path: &[u8], kind: &[u8]) -> Result<(), NoLine> {
        match kind {
            b"dir" if path == b"/".as_slice() => Ok(()),
            b"dir" => {
                let listing = self.listing();
                self.put_with(listing, path, b" 0")
            }
            b"file" => self.put_with(b"call open ", path, b" r"),
            _ => Ok(()),
        }
    }

    /// What a look does behind an answer.
    fn look_on(&mut self, number: u64, line: &[u8], answer: &[u8]) -> Result<(), NoLine> {
        match word_at(line, 1) {
            b"stat" => self.look_into(word_at(line, 2), word_at(answer, 1)),
            b"list" | b"listplus" if word_at(line, 3) == b"0".as_slice() => {
                let names = words_behind(answer, 1);
                self.look_at(word_at(line, 2), names)?;
                // Of a directory that was just opened Linux asks for the first page.
                if self.is_any && !self.lists_entries {
                    self.list_on(word_at(line, 2), names)?;
                }
                Ok(())
            }
            b"open" => {
                self.put_numbered(b"call close ", number, b"")?;
                self.put_numbered(b"call read ", number, b" 65536 4096")?;
                self.put_numbered(b"call read ", number, b" 4096 4096")?;
                self.put_numbered(b"call read ", number, b" 0 4096")
            }
            _ => Ok(()),
        }
    }

    /// Remembers a path.
    fn remember(&mut self, path: &[u8]) -> Result<(), NoLine> {
        if self.paths.len() >= PATHS {
            let _gone = self.paths.swap_remove(0);
        }
        let path = copied(self.alloc, path)?;
        keep_text(&mut self.paths, path)
    }

    /// What follows an answer to the call of a line.
    pub(crate) fn follow(&mut self, number: u64, line: &[u8], answer: &[u8]) -> Result<(), NoLine> {
        if !is_done(answer) {
            return Ok(());
        }
        if self.is_looking() {
            return self.look_on(number, line, answer);
        }
        match word_at(line, 1) {
            b"mkdir" | b"create" => self.remember(word_at(line, 2)),
            b"rename" | b"link" => self.remember(word_at(line, 3)),
            b"unlink" | b"rmdir" => self.put_evictions(),
            // Its reply comes behind that of RELEASEDIR, for which nothing waits.
            b"list" | b"listplus" => self.put_first(b"call stat /"),
            _ => Ok(()),
        }
    }
}
