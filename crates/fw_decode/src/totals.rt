//! What a capture comes to: counts, the requests that wait, and the lookups that were given and not forgotten.

use fuse_protocol::Opcode;
use fuse_sessions::{Act, Taken, Transfer};
use std::alloc::{AllocError, Allocator};
use std::collections::BTreeMap;
use std::io;
use std::io::Write;

/// How many of the requests that wait are named at the end.
const NAMED: usize = 20;

/// The number of a reply under a whole header.
fn number_of(frame: &[u8]) -> Option<u64> {
    let bytes = frame.get(8..16)?;
    let mut number = [0; 8];
    number.copy_from_slice(bytes);
    Some(u64::from_le_bytes(number))
}

/// Counts of a capture so far.
#[derive(Drop)]
pub(crate) struct Totals<A: Allocator + Copy> {
    requests: u64,
    replies: u64,
    notifications: u64,
    refused: u64,
    is_cut: bool,
    /// The opcodes of the requests that wait, where they are known, by their numbers.
    waiting: BTreeMap<u64, Option<Opcode>, A>,
    /// Of each node, the lookups that were given less those that were forgotten, where they differ.
    lookups: BTreeMap<u64, i128, A>,
}

impl<A: Allocator + Copy> Totals<A> {
    /// Of nothing.
    pub(crate) fn new(alloc: A) -> Self {
        Totals {
            requests: 0,
            replies: 0,
            notifications: 0,
            refused: 0,
            is_cut: false,
            waiting: BTreeMap::new(alloc),
            lookups: BTreeMap::new(alloc),
        }
    }

    /// Counts a transfer, of whose frame bytes were cut off or not.
    pub(crate) fn count(&mut self, transfer: Transfer<'_>, is_cut: bool) {
        self.is_cut = self.is_cut || is_cut;
        match transfer {
            Transfer::Request(_) => self.requests = self.requests.saturating_add(1),
            Transfer::Written(frame, _) if number_of(frame) == Some(0) => {
                self.notifications = self.notifications.saturating_add(1);
            }
            Transfer::Written(_, taken) => {
                self.replies = self.replies.saturating_add(1);
                if taken != Taken::Accepted {
                    self.refused = self.refused.saturating_add(1);
                }
            }
            Transfer::SeveralReaders | Transfer::SeveralWriters | Transfer::Ended => {}
        }
    }

    /// Adds to the lookups of a node.
    fn add(&mut self, nodeid: u64, lookups: i128) -> Result<(), AllocError> {
        let before = self.lookups.get(&nodeid).copied().unwrap_or(0);
        let after = before.saturating_add(lookups);
        if after == 0 {
            let _gone = self.lookups.remove(&nodeid);
            return Ok(());
        }
        let _older = self.lookups.insert(nodeid, after)?;
        Ok(())
    }

    /// Notes what an act does.
    pub(crate) fn note(&mut self, act: Act) -> Result<(), AllocError> {
        match act {
            Act::Asks { unique, asked } => {
                let _older = self.waiting.insert(unique, asked.opcode)?;
                Ok(())
            }
            Act::Replies { unique, taken } if taken != Taken::NoEntry => {
                let _ended = self.waiting.remove(&unique);
                Ok(())
            }
            Act::Resent { original, .. } => {
                let _renumbered = self.waiting.remove(&original);
                Ok(())
            }
            Act::Gives { nodeid, .. } => self.add(nodeid, 1),
            Act::Forgets(nodeid, lookups) => self.add(nodeid, 0 - i128::from(lookups)),
            _ => Ok(()),
        }
    }

    /// Writes the requests that wait, up to 20.
    fn write_waiting<W: Write>(&self, out: &mut W) -> io::Result<()> {
        let count = self.waiting.len();
        write!(out, " unanswered {count}")?;
        let mut left = NAMED;
        for (unique, opcode) in &self.waiting {
            if left == 0 {
                return out.write_all(b" ..");
            }
            left -= 1;
            let name = opcode.map_or("unique", |opcode| opcode.name());
            write!(out, " {name}:{unique}")?;
        }
        Ok(())
    }

    /// Writes each node with more or fewer lookups than were forgotten.
    fn write_lookups<W: Write>(&self, out: &mut W) -> io::Result<()> {
        out.write_all(b" lookups")?;
        for (nodeid, count) in &self.lookups {
            write!(out, " {nodeid}:{count}")?;
        }
        Ok(())
    }

    /// Writes the last line.
    pub(crate) fn write_end<W: Write>(&self, out: &mut W) -> io::Result<()> {
        let requests = self.requests;
        let replies = self.replies;
        let notifications = self.notifications;
        let refused = self.refused;
        write!(
            out,
            "requests {requests} replies {replies} notifications {notifications} refused {refused}"
        )?;
        self.write_waiting(out)?;
        self.write_lookups(out)?;
        if self.is_cut {
            out.write_all(b" truncated")?;
        }
        out.write_all(b"\n")
    }
}
