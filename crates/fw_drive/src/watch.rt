//! What a server is known by: the requests that it was sent, and the files of its nodes.

use crate::driver::Driver;
use crate::fault::{
    Asks, CallName, Fault, GivenFile, HeadFault, RequestName, RightSize, Unanswered,
};
use crate::sizes::{head_fault_of, opendir_size_of, right_size_of, size_of};
use fk_drive::{Noted, OtherFrame, Written};
use fk_drive_frames::has_opendir_unique;
use fk_wire::{Attr, Entry, Opcode, ReplyBody, ReplyHead, read_reply, read_request};
use fuse_spec::{Kind, WriteResult};
use fw_world::Tables;
use std::alloc::{AllocError, Allocator};
use std::collections::BTreeMap;

/// The type bits of a mode, and those of a directory and of a regular file.
const TYPE: u32 = 0o170_000;

const DIRECTORY: u32 = 0o40_000;

const REGULAR: u32 = 0o100_000;

/// The bytes of a reply's head.
const HEAD: usize = 16;

/// A table of numbers, with look-ups by the number. It is ordered, since the server picks the nodeids.
type Table<V, A> = BTreeMap<u64, V, A>;

/// A request that was sent.
#[derive(Clone, Copy, Debug)]
struct SentRequest {
    name: RequestName,
    opcode: Opcode,
    nodeid: u64,
    right: RightSize,
    is_answered: bool,
}

/// The file of a node, as replies gave it.
#[derive(Clone, Copy, Debug, PartialEq, Eq)]
struct NodeFile {
    generation: u64,
    ino: u64,
    kind: u32,
}

/// A file, by the type bits of its mode.
fn given_file(ino: u64, kind: u32) -> GivenFile {
    let kind = if kind == DIRECTORY {
        Kind::Directory
    } else if kind == REGULAR {
        Kind::Regular
    } else {
        Kind::Other
    };
    GivenFile { kind, ino }
}

/// The requests that a server was sent in this mount, those of earlier mounts whose replies are to come, and the files
/// of the nodes that it gave.
#[derive(Drop)]
pub(crate) struct Watch<A: Allocator + Copy> {
    sent: Table<SentRequest, A>,
    owed: Table<(), A>,
    nodes: Table<NodeFile, A>,
    /// The numbers of OPENDIR and RELEASEDIR that are answered.
    opendirs: Table<Asks, A>,
    /// The calls that are not answered, each with the number of the line that began it.
    calls: Table<u64, A>,
    /// How many frames wait for the kernel that were no reply to OPENDIR or RELEASEDIR by their head.
    waiting_faults: u64,
}

impl<A: Allocator + Copy> Watch<A> {
    pub(crate) fn new(alloc: A) -> Self {
        Watch {
            sent: BTreeMap::new(alloc),
            owed: BTreeMap::new(alloc),
            nodes: BTreeMap::new(alloc),
            opendirs: BTreeMap::new(alloc),
            calls: BTreeMap::new(alloc),
            waiting_faults: 0,
        }
    }

    /// An abort: the kernel counts no node, and takes no reply.
    pub(crate) fn note_abort(&mut self) {
        self.nodes.clear();
    }

    /// A mount: the kernel's numbers begin anew, and replies to what was sent before may come.
    ///
    /// # Errors
    ///
    /// Out of memory.
    pub(crate) fn note_mount(&mut self) -> Result<(), AllocError> {
        self.nodes.clear();
        for (unique, request) in &self.sent {
            if !request.is_answered && self.owed.insert(*unique, ()).is_err() {
                return Err(AllocError);
            }
        }
        self.sent.clear();
        Ok(())
    }

    /// The kernel evicts a node: the server may give it for another file.
    pub(crate) fn note_evicted(&mut self, node: u64) {
        let _gone = self.nodes.remove(&node);
    }

    /// A call begins by a line.
    ///
    /// # Errors
    ///
    /// Out of memory.
    pub(crate) fn note_begun(&mut self, call: u64, line: u64) -> Result<(), AllocError> {
        match self.calls.insert(call, line) {
            Ok(_) => Ok(()),
            Err(_) => Err(AllocError),
        }
    }

    /// A call is answered. Gives the number of the line that began it, or 0 where that is not known.
    pub(crate) fn note_answered(&mut self, call: u64) -> u64 {
        match self.calls.remove(&call) {
            Some(line) => line,
            None => 0,
        }
    }

    /// The call that a request serves, if that is known: it waits, and the kernel kept the request for it. An INTERRUPT
    /// serves that of its request.
    fn call_served<T: Tables>(
        &self,
        driver: &Driver<T>,
        unique: u64,
        opcode: Opcode,
    ) -> Option<CallName> {
        if opcode == Opcode::Interrupt {
            let interrupted = self.sent.get(&unique.saturating_sub(1))?;
            return interrupted.name.serves;
        }
        for (call, line) in &self.calls {
            if driver.request_for(*call) == Some(unique) {
                return Some(CallName {
                    call: *call,
                    line: *line,
                });
            }
        }
        None
    }

    /// Notes a request that was sent, if it has a reply.
    ///
    /// # Errors
    ///
    /// Out of memory.
    pub(crate) fn note_sent<T: Tables>(
        &mut self,
        driver: &Driver<T>,
        unique: u64,
        opcode: Opcode,
        frame: &[u8],
    ) -> Result<(), AllocError> {
        if matches!(opcode, Opcode::Forget | Opcode::BatchForget) {
            return Ok(());
        }
        let (nodeid, right) = match read_request(frame) {
            Ok(request) => (request.nodeid, right_size_of(&request.body)),
            Err(_) => (0, RightSize::Any),
        };
        let name = RequestName {
            asks: Asks::Kernel(opcode),
            unique,
            serves: self.call_served(driver, unique, opcode),
        };
        let request = SentRequest {
            name,
            opcode,
            nodeid,
            right,
            is_answered: false,
        };
        match self.sent.insert(unique, request) {
            Ok(_) => Ok(()),
            Err(_) => Err(AllocError),
        }
    }

    /// The requests that wait for a reply. An INTERRUPT needs none.
    pub(crate) fn unanswered(&self) -> Option<Unanswered> {
        let mut first = None;
        let mut more = None;
        for (_unique, request) in &self.sent {
            if request.is_answered || request.opcode == Opcode::Interrupt {
                continue;
            }
            match (first, more) {
                (None, _) => first = Some(request.name),
                (Some(_), None) => more = Some(1),
                (Some(_), Some(count)) => more = Some(u64::saturating_add(count, 1)),
            }
        }
        match first {
            Some(first) => Some(Unanswered { first, more }),
            None => None,
        }
    }

    /// Judges the file of an entry, and notes it. `None` where nothing is wrong.
    fn judge_entry(
        &mut self,
        request: RequestName,
        entry: &Entry,
    ) -> Result<Option<Fault>, AllocError> {
        let node = entry.nodeid;
        if node == 0 {
            return Ok(None);
        }
        if node == 1 {
            return Ok(Some(Fault::Root(request)));
        }
        let given = NodeFile {
            generation: entry.generation,
            ino: entry.attr.ino,
            kind: entry.attr.mode & TYPE,
        };
        match self.nodes.get(&node) {
            Some(known) if known.generation != given.generation => Ok(Some(
                Fault::TwoGenerations {
                    node,
                    request,
                    given: given.generation,
                    before: known.generation,
                },
            )),
            Some(known) if *known != given => Ok(Some(Fault::TwoFiles {
                node,
                request,
                given: given_file(given.ino, given.kind),
                before: given_file(known.ino, known.kind),
            })),
            Some(_) => Ok(None),
            None => match self.nodes.insert(node, given) {
                Ok(_) => Ok(None),
                Err(_) => Err(AllocError),
            },
        }
    }

    /// Judges the attributes of a node that the server gave before.
    fn judge_attributes(&self, request: RequestName, node: u64, attr: &Attr) -> Option<Fault> {
        let known = self.nodes.get(&node)?;
        let kind = attr.mode & TYPE;
        if known.ino == attr.ino && known.kind == kind {
            return None;
        }
        Some(Fault::TwoFiles {
            node,
            request,
            given: given_file(attr.ino, kind),
            before: given_file(known.ino, known.kind),
        })
    }

    /// Judges what an accepted reply says.
    fn judge_body(&mut self, sent: SentRequest, frame: &[u8]) -> Result<Option<Fault>, AllocError> {
        let Ok(reply) = read_reply(sent.opcode, frame) else {
            return Ok(None);
        };
        let name = sent.name;
        match reply.body {
            ReplyBody::Entry { entry } | ReplyBody::Create { entry, .. } => self.judge_entry(
                name, &entry,
            ),
            ReplyBody::Attr { attr } => Ok(self.judge_attributes(name, sent.nodeid, &attr)),
            ReplyBody::RecordsPlus { records } => {
                let mut fault = None;
                for pair in records {
                    if !matches!(pair.dirent.name, b"." | b"..") {
                        let found = self.judge_entry(name, &pair.entry_out)?;
                        fault = fault.or(found);
                    }
                }
                Ok(fault)
            }
            _ => Ok(None),
        }
    }

    /// What is wrong with a reply that no request waited for. Nothing is with the first to a request that was sent
    /// before an abort, nor with one to an INTERRUPT, whose request may be answered before it.
    fn judge_unawaited(&mut self, unique: u64) -> Option<Fault> {
        match self.sent.get_mut(&unique) {
            Some(request) if unique % 2 == 1 || !request.is_answered => {
                request.is_answered = true;
                None
            }
            Some(request) => Some(Fault::Second(request.name)),
            None => match self.owed.remove(&unique) {
                Some(()) => None,
                None => Some(Fault::ToNothing { unique }),
            },
        }
    }

    /// The request that a reply answers, which is answered now.
    fn answered(&mut self, unique: u64) -> Option<SentRequest> {
        let request = self.sent.get_mut(&unique)?;
        request.is_answered = true;
        Some(*request)
    }

    /// What is wrong with a reply to OPENDIR or RELEASEDIR, if its body is right or not. Its length may be unknown.
    fn judge_opendir(
        &mut self,
        request: RequestName,
        is_whole: bool,
        len: Option<usize>,
    ) -> Result<Option<Fault>, AllocError> {
        match self.opendirs.insert(request.unique, request.asks) {
            Ok(Some(_asked)) => Ok(Some(Fault::Second(request))),
            Ok(None) if is_whole => Ok(None),
            Ok(None) => Ok(Some(Fault::Body {
                request,
                size: opendir_size_of(len),
            })),
            Err(_) => Err(AllocError),
        }
    }

    /// Which of OPENDIR and RELEASEDIR was answered under a number: OPENDIR where that is not known.
    fn asked_under(&self, unique: u64) -> Asks {
        match self.opendirs.get(&unique) {
            Some(asks) => *asks,
            None => Asks::Opendir,
        }
    }

    /// What is wrong with a frame that is noted as it comes. The first reply to OPENDIR and RELEASEDIR is awaited, so that
    /// what is set aside is the second.
    pub(crate) fn judge_noted(&mut self, noted: Noted) -> Result<Option<Fault>, AllocError> {
        match noted {
            Noted::SetAside(OtherFrame::Notification { .. }) => Ok(None),
            Noted::SetAside(OtherFrame::OpendirReply { unique, len, .. }) => {
                let request = own_name(self.asked_under(unique), unique);
                self.judge_opendir(request, len == HEAD, Some(len))
            }
            Noted::OpendirReply { unique, is_whole } => {
                self.judge_opendir(own_name(Asks::Opendir, unique), is_whole, None)
            }
            Noted::ReleasedirReply { unique, is_whole } => {
                self.judge_opendir(own_name(Asks::Releasedir, unique), is_whole, None)
            }
            Noted::NoOpendirReply { unique } => {
                self.waiting_faults = self.waiting_faults.saturating_add(1);
                Ok(Some(Fault::NoReply(HeadFault::OfOpendir { unique })))
            }
        }
    }

    /// What is wrong with a frame that is no reply by its head. Of one to OPENDIR or RELEASEDIR that was said as it came.
    fn judge_headless(&mut self, frame: &[u8]) -> Option<Fault> {
        if self.waiting_faults > 0 && has_opendir_unique(frame) {
            self.waiting_faults -= 1;
            return None;
        }
        Some(Fault::NoReply(head_fault_of(frame)))
    }

    /// What is wrong with a frame that was written to the kernel.
    pub(crate) fn judge(&mut self, written: &Written<A>) -> Result<Option<Fault>, AllocError> {
        let frame = written.frame.as_slice();
        let Ok(head) = ReplyHead::read(frame) else {
            return Ok(self.judge_headless(frame));
        };
        let unique = head.unique;
        if written.result == WriteResult::NoEntry {
            return Ok(self.judge_unawaited(unique));
        }
        match (written.result, self.answered(unique)) {
            (WriteResult::Accepted, Some(request)) => self.judge_body(request, frame),
            (_, Some(request)) => Ok(Some(Fault::Body {
                request: request.name,
                size: Some(size_of(request.right, head.error != 0, frame.len())),
            })),
            // No request has this number that was not sent.
            (_, None) => Ok(Some(Fault::ToNothing { unique })),
        }
    }
}

/// A request of this command's own, which serves no call that is known.
fn own_name(asks: Asks, unique: u64) -> RequestName {
    RequestName {
        asks,
        unique,
        serves: None,
    }
}
