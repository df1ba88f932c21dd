//! How the names of a list with their files are taken.

ghost use Rattle.std.specs.Prelude.{◌≡◌, ◌%◌, ℕ, Some, OnOk, OnErr, IfErr, false, nat_eq};
ghost use Rattle.fuse_spec.specs.Values.Maps.{get};
ghost use Rattle.fuse_spec.specs.Files.Operations as reply;
ghost use Rattle.fuse_spec.specs.Files.Operations.{readdirplus};
ghost use Rattle.fuse_spec.specs.Kernel.QueueCalls.{waiting};
ghost use Rattle.fuse_spec.specs.Kernel.Replies.{reply_written};
ghost use Rattle.fuse_spec.specs.Calls.Vfs.{doing};
ghost use Rattle.fk_kernel.specs.Entries.{Awaits, nodes_after_reply};
ghost use Rattle.fuse_spec.specs.Kernel.Refusals.{is_counted_out};
ghost use Rattle.fk_nodes.specs.ListedFiles.{pairs_left_in};

use crate::kernel::KernelOf;
use crate::queue_room::reserve_forgets;
use fk_lookup_count::CountTable;
use fk_nodes::{count_listed, names_of_direntpluses, take_listed};
use fk_queues::QueueTable;
use fk_syscalls::Answer;
use fk_wire::RecordsPlus;
use fuse_spec::{Operation, Purpose, Refusal, WriteResult};

impl<Q: QueueTable<Purpose>, C: CountTable<Heap = Q::Heap>> KernelOf<Q, C> {
    /// The call is answered the names that a directory lists with their files. Each is counted and cached from now on,
    /// but for those with no file, the root, or a node that is counted under another generation, of which one lookup is
    /// forgotten.
    pub(crate) fn pairs_listed(
        &mut self,
        unique: u64,
        call: u64,
        pairs: RecordsPlus<'_>,
    ) -> Result<(), Refusal>
        requires even { nat_eq (unique % 2) 1 ≡ false }
        requires waits { waiting self.old.queues unique ≡ Some (Purpose.Call call) }
        requires awaits { Awaits (get self.old.vfs.calls call) (reply.listed_plus (pairs_left_in pairs)) }
        requires counts { is_counted_out (nodes_after_reply self.old.nodes (reply.listed_plus (pairs_left_in pairs))) ≡ false }
        ensures err { OnErr result (self.new ≡ self.old) }
        ensures refusal { IfErr result (λ refusal. refusal ≡ Refusal.NoMemory) }
        ensures ok { OnOk result (reply_written self.old unique (reply.listed_plus (pairs_left_in pairs.entry))
            ≡ (WriteResult.Accepted, self.new)) }
    {
        let directory = self.directory_listed(call);
        // A forget of each name that is stale, and of each node that is new.
        reserve_forgets(&mut self.queues, &self.nodes, 2 * pairs.count_left())?;
        let Ok(listed) = names_of_direntpluses(self.alloc, pairs) else {
            return Err(Refusal::NoMemory);
        };
        let (names, nodes) = (&mut self.names, &mut self.nodes);
        let Ok(()) = count_listed(names, nodes, directory, pairs) else {
            return Err(Refusal::NoMemory);
        };
        take_listed(names, &mut self.queues, nodes, directory, self.clock, pairs);
        let _kept = self.queues.answer(unique);
        self.finish(call, Answer::Listing(listed));
        Ok(())
    }

    /// The directory that a call lists with its names' files.
    fn directory_listed(&self, call: u64) -> u64
        ensures { (directory after size : ℕ) → get self.now.vfs.calls call
            ≡ Some (doing (readdirplus directory after size)) → result ≡ directory }
    {
        let Some(waiting) = self.calls.get(call) else {
            return 0;
        };
        let Operation::Readdirplus { directory, .. } = waiting.asks() else {
            return 0;
        };
        directory
    }
}
