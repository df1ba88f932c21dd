//! Copies are settled by the results of their writes.

ghost use Rattle.std.specs.Prelude.{◌≡◌, ◌∷◌, [], OnErr, MatchResult, option_to_list};
ghost use Rattle.fuse_spec.specs.Server.Copies.{kept_after};
ghost use Rattle.fuse_spec.specs.Values.Maps.{get};
ghost use Rattle.fs_files.specs.Bounds.{AreNamed};
ghost use Rattle.fs_files.specs.Replies.{sent_wire};
ghost use Rattle.fs_server.specs.Effects.{CountsBack, GivesBack, SettlesFiles, Settles, HasNoCopy, is_of_copy};

use crate::replies::{KeptReply, SentCopy};
use crate::server::ServerOf;
use fs_files::{Files, SentReply, file_entries, opened};
use fs_nodes::NodeStore;
use fuse_spec::{Entry, Refusal, WriteResult};
use fuse_tables::RisingTable;
use std::alloc::Allocator;

impl<S: NodeStore> ServerOf<S> {
    /// Hands the server the result of one copy. Its reply is not kept any longer, and what a refused copy carried is
    /// given back. No memory is taken.
    ///
    /// # Errors
    ///
    /// `NoSuch` where no copy of this number was sent, or it is settled already; the server is as before.
    pub fn settle(&mut self, copy: u64, settled: WriteResult) -> Result<(), Refusal>
        ensures refused { OnErr result (self.new ≡ self.old) }
        ensures effect { MatchResult result (λ _. Settles self.old copy settled self.new) (HasNoCopy self.old copy) }
    {
        let Some(sent) = self.copies.get(copy) else {
            return Err(Refusal::NoSuch);
        };
        settle_files(&mut self.files, sent.reply(), settled);
        drop_kept(&mut self.kept, sent);
        let _settled = self.copies.remove(copy);
        Ok(())
    }
}

/// The reply of which this was a copy is not kept any longer, if it was.
fn drop_kept<A: Allocator + Copy>(kept: &mut RisingTable<KeptReply<A>, A>, copy: &SentCopy<A>)
    ensures { kept.new.entries ≡ kept_after kept.old.entries copy.now (get kept.old.entries copy.now.unique) }
{
    if keeps_first(kept, copy.unique(), copy.first()) {
        let _kept = kept.remove(copy.unique());
    }
}

/// Whether the reply under a unique is kept, and its first copy has this number.
fn keeps_first<A: Allocator + Copy>(
    kept: &RisingTable<KeptReply<A>, A>,
    unique: u64,
    first: u64,
) -> bool
    ensures { result ≡ is_of_copy (get kept.now.entries unique) first }
{
    match kept.get(unique) {
        Some(kept) => kept.first() == first,
        None => false,
    }
}

/// What the result of a copy makes of the files: a refused copy is counted back.
fn settle_files<S: NodeStore>(
    files: &mut Files<S>,
    reply: &SentReply<S::Heap>,
    settled: WriteResult,
)
    requires { AreNamed files.old.tree files.old.nodes files.old.handles }
    ensures settles { SettlesFiles files.old (sent_wire reply.now) settled files.new }
    ensures named { AreNamed files.new.tree files.new.nodes files.new.handles }
{
    match settled {
        WriteResult::Accepted => {}
        WriteResult::NoEntry | WriteResult::Invalid => uncount_reply(files, reply),
    }
}

/// Gives back what a refused copy carried, where it is still held, the node under the entry's generation.
fn uncount_reply<S: NodeStore>(files: &mut Files<S>, reply: &SentReply<S::Heap>)
    requires { AreNamed files.old.tree files.old.nodes files.old.handles }
    ensures gives { GivesBack files.old (sent_wire reply.now) files.new }
    ensures named { AreNamed files.new.tree files.new.nodes files.new.handles }
{
    entries_back(files, file_entries(reply));
    uncount_handle_if_any(files, opened(reply));
}

/// Counts back the nodes of entries, one after another. Nameless files that nothing holds any longer go.
fn entries_back<S: NodeStore>(files: &mut Files<S>, entries: &[Entry])
    requires { AreNamed files.old.tree files.old.nodes files.old.handles }
    ensures { CountsBack files.old entries.now [] files.new }
{
    for entry in entries {
        entry_back(files, entry);
    }
}

/// Counts back the node of an entry. A nameless file that nothing holds any longer goes.
fn entry_back<S: NodeStore>(files: &mut Files<S>, entry: &Entry)
    requires { AreNamed files.old.tree files.old.nodes files.old.handles }
    ensures { CountsBack files.old (entry.now ∷ []) [] files.new }
{
    let file = files.nodes().counted_file(entry.nodeid);
    files.uncount(entry);
    files.discard_unheld(file);
}

/// Takes back one use of a file handle. A nameless file that nothing holds any longer goes.
fn uncount_handle_if_any<S: NodeStore>(files: &mut Files<S>, fh: Option<u64>)
    requires { AreNamed files.old.tree files.old.nodes files.old.handles }
    ensures { CountsBack files.old [] (option_to_list fh) files.new }
{
    let Some(fh) = fh else {
        return;
    };
    let file = files.handle_file(fh);
    files.uncount_handle(fh);
    files.discard_unheld(file);
}
