//! The counts of a session.

ghost use Rattle.std.specs.Prelude.{◌≡◌, ◌+◌, ◌++◌, ◌↔◌, ◌⊎◌, IfSome, IsTrue, OnOk, if◌then◌else◌, sum_by};
ghost use Rattle.fuse_sessions.specs.declared.fault.Party.TheVariants as party;
ghost use Rattle.fw_check.specs.Tallies as words;
ghost use Rattle.fw_check.specs.Counting.{CountsMore, counts_lines};

use crate::remains::Remains;
use crate::tallies::{
    count_after, entries_after, faults_after, forgotten_after, is_notification, is_refused,
    is_reply, is_request,
};
use crate::text::{put, put_counted, put_counted_wide};
use fuse_sessions::{Act, Fault, Party, Transfer};
use std::alloc::{AllocError, Allocator};

/// What was counted. A judge refuses more acts than 2^62, and lines are numbered in 64 bits, so no count is ever full.
#[derive(Clone, Copy, Debug, PartialEq, Eq)]
pub(crate) struct Counts {
    pub(crate) requests: u64,
    pub(crate) replies: u64,
    pub(crate) notifications: u64,
    pub(crate) refused: u64,
    pub(crate) entries: u64,
    pub(crate) forgotten: u128,
    pub(crate) kernel: u64,
    pub(crate) server: u64,
    pub(crate) device: u64,
    pub(crate) warnings: u64,
}

/// The counts of nothing.
pub(crate) const NOTHING: Counts = Counts {
    requests: 0,
    replies: 0,
    notifications: 0,
    refused: 0,
    entries: 0,
    forgotten: 0,
    kernel: 0,
    server: 0,
    device: 0,
    warnings: 0,
};

impl Counts {
    /// The counts with one transfer more, its acts and their verdicts; `None` where one is full.
    pub(crate) fn after(
        self,
        transfer: Transfer<'_>,
        acts: &[Act],
        verdicts: &[Option<Fault>],
    ) -> Option<Counts>
        ensures { IfSome result (CountsMore self transfer.entry acts.now verdicts.now) }
    {
        Some(Counts {
            requests: count_after(self.requests, is_request(transfer))?,
            replies: count_after(self.replies, is_reply(transfer))?,
            notifications: count_after(self.notifications, is_notification(transfer))?,
            refused: count_after(self.refused, is_refused(transfer))?,
            entries: entries_after(self.entries, acts)?,
            forgotten: forgotten_after(self.forgotten, acts)?,
            kernel: faults_after(self.kernel, Party::Kernel, verdicts)?,
            server: faults_after(self.server, Party::Server, verdicts)?,
            device: faults_after(self.device, Party::Device, verdicts)?,
            warnings: faults_after(self.warnings, Party::Nobody, verdicts)?,
        })
    }

    /// Whether nobody broke a rule, and in a strict check nothing is odd.
    pub(crate) fn has_no_finding(self, is_strict: bool) -> bool
        ensures { IsTrue result
            ↔ (self.kernel + self.server + self.device + (if is_strict then self.warnings else 0) ≡ 0) }
    {
        let odd = if is_strict { self.warnings } else { 0 };
        self.kernel == 0 && self.server == 0 && self.device == 0 && odd == 0
    }

    /// The counts of transfers.
    fn put_transfers<A: Allocator>(self, text: &mut Vec<u8, A>) -> Result<(), AllocError>
        ensures { OnOk result (text.new.items ≡ text.old.items ++ words.transfers_text self.requests self.replies
            self.notifications self.refused) }
    {
        put_counted(text, b"requests", self.requests)?;
        put_counted(text, b" replies", self.replies)?;
        put_counted(text, b" notifications", self.notifications)?;
        put_counted(text, b" refused", self.refused)
    }

    /// The counts of lookups, without the line feed.
    fn put_lookups<A: Allocator>(self, text: &mut Vec<u8, A>) -> Result<(), AllocError>
        ensures { OnOk result (text.new.items ≡ text.old.items ++ words.lookups_text self.entries self.forgotten) }
    {
        put_counted(text, b" entries", self.entries)?;
        put_counted_wide(text, b" forgotten", self.forgotten)
    }

    /// The counts of requests that wait, of lookups, and of what stands.
    fn put_later<A: Allocator>(
        self,
        text: &mut Vec<u8, A>,
        remains: Remains,
    ) -> Result<(), AllocError>
        ensures { OnOk result (text.new.items
            ≡ text.old.items ++ words.later_text remains self.entries self.forgotten) }
    {
        put_counted(text, b" unanswered", remains.unanswered)?;
        self.put_lookups(text)?;
        remains.put_standing(text)
    }

    /// The counts of faults, without the line feed.
    fn put_parties<A: Allocator>(self, text: &mut Vec<u8, A>) -> Result<(), AllocError>
        ensures { OnOk result (text.new.items ≡ text.old.items ++ words.parties_text self.kernel self.server self.device) }
    {
        put_counted(text, b"faults: kernel", self.kernel)?;
        put_counted(text, b" server", self.server)?;
        put_counted(text, b" device", self.device)
    }

    /// The counts of faults and of warnings.
    fn put_faults<A: Allocator>(self, text: &mut Vec<u8, A>) -> Result<(), AllocError>
        ensures { OnOk result (text.new.items
            ≡ text.old.items ++ words.faults_text self.kernel self.server self.device self.warnings) }
    {
        self.put_parties(text)?;
        put_counted(text, b", warnings", self.warnings)?;
        put(text, b"\n")
    }

    /// The last two lines, with what is left at the end.
    pub(crate) fn put<A: Allocator>(
        self,
        text: &mut Vec<u8, A>,
        remains: Remains,
    ) -> Result<(), AllocError>
        ensures { OnOk result (text.new.items ≡ text.old.items ++ counts_lines remains self) }
    {
        self.put_transfers(text)?;
        self.put_later(text, remains)?;
        self.put_faults(text)
    }
}
