//! The files that are open: the tables, and what is a fault by them.

ghost use Rattle.std.specs.Prelude.{◌≡◌, ◌↔◌, ℕ, ◌<◌, ◌≤◌, ◌+◌, ◌^◌, [], ◌∷◌, ◌++◌, IsTrue, OnOk, length, nat_lt};
ghost use Rattle.fuse_sessions.specs.declared.act.Act.TheVariants.{Opens, Releases};
ghost use Rattle.fuse_sessions.specs.Sessions.{Session};
ghost use Rattle.fuse_sessions.specs.Waiting.{is_used};
ghost use Rattle.fuse_sessions.specs.OpenFiles.{opened, has_none, HasOpen};
ghost use Rattle.fuse_sessions.specs.Faults.{BreaksUse, BreaksRelease, WarnsOfOpening};
ghost use Rattle.fuse_judge.specs.Flags.{AreFlags};
ghost use Rattle.fuse_judge.specs.Opens.{AreOpen};
ghost use Rattle.fuse_judge.specs.Verdicts.{IsFault};

use crate::flags::Flags;
use crate::handle::{Handle, handle_of};
use crate::tally::Tally;
use fuse_sessions::{Act, Fault, OpenFile, OpenKind};
use std::alloc::{AllocError, Allocator, Global};

/// The files that are open.
#[derive(Drop)]
pub struct OpenFiles<A: Allocator = Global> {
    /// How often each is open.
    pub counts: Tally<Handle, A>,
    /// How many of those that are open each node has.
    pub nodes: Tally<u64, A>,
}

/// Makes room for this many openings.
///
/// # Errors
///
/// Out of memory.
pub(crate) fn reserve_opens<A: Allocator + Copy>(
    opens: &mut OpenFiles<A>,
    more: usize,
) -> Result<(), AllocError>
    ensures kept { (s : Session) → AreOpen s opens.old.counts.counts opens.old.nodes.counts
        → AreOpen s opens.new.counts.counts opens.new.nodes.counts }
    ensures room { OnOk result (more ≤ opens.new.counts.room) }
    ensures nodes_room { OnOk result (more ≤ opens.new.nodes.room) }
{
    opens.counts.reserve(more)?;
    opens.nodes.reserve(more)
}

/// How often a file is open.
pub(crate) fn open_count<A: Allocator + Copy>(opens: &OpenFiles<A>, file: OpenFile) -> u64
    ensures { (s : Session) → AreOpen s opens.now.counts.counts opens.now.nodes.counts → result ≡ opened s file }
{
    opens.counts.count(handle_of(file))
}

/// Whether some file of a node is open.
pub(crate) fn has_open<A: Allocator + Copy>(opens: &OpenFiles<A>, node: u64) -> bool
    ensures { (s : Session) → AreOpen s opens.now.counts.counts opens.now.nodes.counts
        → IsTrue result ↔ HasOpen s node }
{
    opens.nodes.count(node) > 0
}

/// Whether the server opens none of a kind.
fn opens_none(flags: Flags, kind: OpenKind) -> bool
    ensures { (s : Session) → AreFlags s flags → result ≡ has_none s kind }
{
    match kind {
        OpenKind::File => flags.opens_no_files,
        OpenKind::Directory => flags.opens_no_directories,
    }
}

/// The fault of a kernel that uses an open file, which is open so often.
pub(crate) fn fault_of_use(count: u64, flags: Flags, file: OpenFile) -> Option<Fault>
    ensures { (s : Session) → count ≡ opened s file → AreFlags s flags → IsFault (BreaksUse s file) result }
{
    let none = opens_none(flags, file.kind) && file.fh == 0;
    if none || count > 0 {
        None
    } else {
        Some(Fault::HandleNotOpen)
    }
}

/// Whether a server is odd that opens a file, which is open so often, under a file handle.
pub(crate) fn fault_of_opening(count: u64, file: OpenFile) -> Option<Fault>
    ensures { (s : Session) → count ≡ opened s file → IsFault (WarnsOfOpening s file) result }
{
    if file.fh != 0 && count > 0 {
        Some(Fault::HandleGivenAgain)
    } else {
        None
    }
}

/// The fault of a kernel that releases an open file, which is open so often and which a request uses or not.
pub(crate) fn fault_of_release(
    count: u64,
    flags: Flags,
    file: OpenFile,
    used: bool,
) -> Option<Fault>
    ensures { (s : Session) → count ≡ opened s file → AreFlags s flags → used ≡ is_used s file
        → IsFault (BreaksRelease s file) result }
{
    if opens_none(flags, file.kind) && file.fh == 0 {
        None
    } else if count == 0 {
        Some(Fault::ReleaseOfWhatIsNotOpen)
    } else if count == 1 && used {
        Some(Fault::ReleaseBesideAUse)
    } else {
        None
    }
}

/// A file is open once more.
fn open<A: Allocator + Copy>(opens: &mut OpenFiles<A>, file: OpenFile)
    requires room { 0 < opens.old.counts.room }
    requires nodes_room { 0 < opens.old.nodes.room }
    requires few { (s : Session) × AreOpen s opens.old.counts.counts opens.old.nodes.counts ×
        (length s + 1 < 2 ^ 64) }
    ensures kept { (s : Session) → AreOpen s opens.old.counts.counts opens.old.nodes.counts
        → AreOpen (s ++ Opens file ∷ []) opens.new.counts.counts opens.new.nodes.counts }
    ensures room { opens.old.counts.room ≤ opens.new.counts.room + 1 }
    ensures nodes_room { opens.old.nodes.room ≤ opens.new.nodes.room + 1 }
{
    let key = handle_of(file);
    let was = opens.counts.count(key);
    opens.counts.add(key);
    if was == 0 {
        opens.nodes.add(file.nodeid);
    }
}

/// A file is open once less.
fn release<A: Allocator + Copy>(opens: &mut OpenFiles<A>, file: OpenFile)
    ensures kept { (s : Session) → AreOpen s opens.old.counts.counts opens.old.nodes.counts
        → AreOpen (s ++ Releases file ∷ []) opens.new.counts.counts opens.new.nodes.counts }
    ensures room { opens.old.counts.room ≤ opens.new.counts.room }
    ensures nodes_room { opens.old.nodes.room ≤ opens.new.nodes.room }
{
    let key = handle_of(file);
    let was = opens.counts.count(key);
    opens.counts.take(key);
    if was == 1 {
        opens.nodes.take(file.nodeid);
    }
}

/// Writes down what an act does to the files that are open.
pub(crate) fn note_opens<A: Allocator + Copy>(opens: &mut OpenFiles<A>, act: Act)
    requires room { 0 < opens.old.counts.room }
    requires nodes_room { 0 < opens.old.nodes.room }
    requires few { (s : Session) × AreOpen s opens.old.counts.counts opens.old.nodes.counts ×
        (length s + 1 < 2 ^ 64) }
    ensures kept { (s : Session) → AreOpen s opens.old.counts.counts opens.old.nodes.counts
        → AreOpen (s ++ act ∷ []) opens.new.counts.counts opens.new.nodes.counts }
    ensures room { opens.old.counts.room ≤ opens.new.counts.room + 1 }
    ensures nodes_room { opens.old.nodes.room ≤ opens.new.nodes.room + 1 }
{
    match act {
        Act::Opens(file) => open(opens, file),
        Act::Releases(file) => release(opens, file),
        _ => {}
    }
}
