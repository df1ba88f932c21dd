//! The nodes that were given: the table, and what is a fault by it, or odd.

ghost use Rattle.std.specs.Prelude.{◌≡◌, ◌↔◌, ℕ, ◌<◌, ◌≤◌, ◌+◌, ◌^◌, [], ◌∷◌, ◌++◌, Some, IsTrue, length};
ghost use Rattle.fuse_spec.specs.Values.Maps.{get};
ghost use Rattle.fuse_sessions.specs.declared.act.Act.TheVariants.{Gives, Forgets};
ghost use Rattle.fuse_sessions.specs.Sessions.{Session};
ghost use Rattle.fuse_sessions.specs.Counts.{least_count, most_count, known};
ghost use Rattle.fuse_sessions.specs.Faults.{BreaksName, BreaksForget, BreaksGift, BreaksAttributes, WarnsOfMissing, IsInUse};
ghost use Rattle.fuse_judge.specs.declared.nodes.NodeRow.{NodeRow};
ghost use Rattle.fuse_judge.specs.Nodes as words;
ghost use Rattle.fuse_judge.specs.Nodes.{AreNodes, IsNode};
ghost use Rattle.fuse_judge.specs.Verdicts.{IsFault};

use fuse_sessions::{Act, Fault, File};
use fuse_tables::RisingTable;
use std::alloc::Allocator;

/// The node that a mount begins at, which is never counted.
const ROOT: u64 = 1;

/// A node that is counted, or was.
#[derive(Clone, Copy, Drop)]
pub struct NodeRow {
    /// How often at least, and at most: an entry of no known kind is counted or not.
    pub least: u64,
    pub most: u64,
    /// The file that it is of, or was when it was counted last: that of the entry by which it first counted for certain.
    pub file: Option<File>,
}

/// The fault of a kernel that names a node.
pub(crate) fn fault_of_name<A: Allocator + Copy>(
    nodes: &RisingTable<NodeRow, A>,
    node: u64,
) -> Option<Fault>
    ensures { (s : Session) → AreNodes s nodes.now.entries → IsFault (BreaksName s node) result }
{
    if node == ROOT || most(nodes, node) > 0 {
        None
    } else {
        Some(Fault::NodeNotCounted)
    }
}

/// Whether a server that says that a node is not there is odd.
pub(crate) fn fault_of_missing<A: Allocator + Copy>(
    nodes: &RisingTable<NodeRow, A>,
    node: u64,
) -> Option<Fault>
    ensures { (s : Session) → AreNodes s nodes.now.entries → IsFault (WarnsOfMissing s node) result }
{
    if node == ROOT || most(nodes, node) > 0 {
        Some(Fault::NoSuchNode)
    } else {
        None
    }
}

/// How often a node is counted at most.
pub(crate) fn most<A: Allocator + Copy>(nodes: &RisingTable<NodeRow, A>, node: u64) -> u64
    ensures { (s : Session) → AreNodes s nodes.now.entries → most_count s node ≡ result }
{
    match nodes.get(node) {
        Some(row) => row.most,
        None => 0,
    }
}

/// The fault of a kernel that forgets lookups of a node, which is counted so often at most, and which something uses or
/// not.
pub(crate) fn fault_of_forget(most: u64, node: u64, lookups: u64, in_use: bool) -> Option<Fault>
    ensures { (s : Session) → most_count s node ≡ most → (IsTrue in_use ↔ IsInUse s node)
        → IsFault (BreaksForget s node lookups) result }
{
    if node == ROOT {
        Some(Fault::ForgetOfTheRoot)
    } else if lookups == 0 {
        Some(Fault::ForgetOfNoLookup)
    } else if most < lookups {
        Some(Fault::ForgetOfMoreThanIsCounted)
    } else if most == lookups && in_use {
        Some(Fault::ForgetOfANodeInUse)
    } else {
        None
    }
}

/// Whether an entry is odd that gives a node which was of a file and is counted no more.
fn fault_of_gift_again(old: File, file: File) -> Option<Fault>
    ensures { (s : Session) (node : ℕ) → least_count s node ≡ 0 → most_count s node ≡ 0 → known s node ≡ Some old
        → IsFault (BreaksGift s node file) result }
{
    if old.generation == file.generation && (old.kind != file.kind || old.ino != file.ino) {
        Some(Fault::NodeGivenAgain)
    } else {
        None
    }
}

/// The fault of a server whose entry gives a node, by the row that the node has.
#[inline(always)]
pub(crate) fn fault_of_gift(row: Option<NodeRow>, file: File) -> Option<Fault>
    ensures { (s : Session) (node : ℕ) → IsNode s node row → IsFault (BreaksGift s node file) result }
{
    let row = row?;
    let old = row.file?;
    if row.most == 0 {
        return fault_of_gift_again(old, file);
    }
    if row.least == 0 {
        None
    } else if old.generation != file.generation {
        Some(Fault::NodeOfTwoGenerations)
    } else if old.kind != file.kind {
        Some(Fault::NodeOfTwoKinds)
    } else if old.ino != file.ino {
        Some(Fault::NodeOfTwoInodeNumbers)
    } else {
        None
    }
}

/// The fault of a server that describes a node.
pub(crate) fn fault_of_attributes<A: Allocator + Copy>(
    nodes: &RisingTable<NodeRow, A>,
    node: u64,
    kind: u32,
    ino: u64,
) -> Option<Fault>
    ensures { (s : Session) → AreNodes s nodes.now.entries → IsFault (BreaksAttributes s node kind ino) result }
{
    let row = nodes.get(node)?;
    let old = row.file?;
    if row.least == 0 {
        None
    } else if old.kind != kind {
        Some(Fault::NodeOfTwoKinds)
    } else if old.ino != ino {
        Some(Fault::NodeOfTwoInodeNumbers)
    } else {
        None
    }
}

/// The kernel forgets lookups of a node, which something uses or not: those that it has, and no more. The row stays, for
/// its file. Returns the fault of the kernel: so a row is looked up once for both.
#[inline(always)]
pub(crate) fn forget<A: Allocator + Copy>(
    nodes: &mut RisingTable<NodeRow, A>,
    node: u64,
    lookups: u64,
    in_use: bool,
) -> Option<Fault>
    requires { 0 < nodes.old.room }
    ensures kept { (s : Session) → AreNodes s nodes.old.entries
        → AreNodes (s ++ Forgets node lookups ∷ []) nodes.new.entries }
    ensures verdict { (s : Session) → AreNodes s nodes.old.entries → (IsTrue in_use ↔ IsInUse s node)
        → IsFault (BreaksForget s node lookups) result }
    ensures room { nodes.old.room ≤ nodes.new.room + 1 }
{
    if let Some(row) = nodes.get_mut(node) {
        let most = row.most;
        row.least = row.least.saturating_sub(lookups);
        row.most = most.saturating_sub(lookups);
        return fault_of_forget(most, node, lookups, in_use);
    }
    fault_of_forget(0, node, lookups, in_use)
}

/// The file of a node that is counted so often at least, once an entry gives one.
fn file_given(least: u64, is_certain: bool, was: Option<File>, file: File) -> Option<File>
    ensures { result ≡ words.file_given least is_certain was file }
{
    if is_certain && least == 0 {
        Some(file)
    } else {
        was
    }
}

/// An entry gives a node. A node that is counted for certain stays of the file that it is of. Returns the fault of the
/// server: so a row is looked up once for both.
#[inline(always)]
pub(crate) fn give<A: Allocator + Copy>(
    nodes: &mut RisingTable<NodeRow, A>,
    node: u64,
    file: File,
    is_certain: bool,
) -> Option<Fault>
    requires room { 0 < nodes.old.room }
    requires few { (n : ℕ) (row : NodeRow) → get nodes.old.entries n ≡ Some row
        → (row.least + 1 < 2 ^ 64) × (row.most + 1 < 2 ^ 64) }
    ensures kept { (s : Session) → AreNodes s nodes.old.entries
        → AreNodes (s ++ Gives node file is_certain ∷ []) nodes.new.entries }
    ensures verdict { (s : Session) → AreNodes s nodes.old.entries → IsFault (BreaksGift s node file) result }
    ensures room { nodes.old.room ≤ nodes.new.room + 1 }
{
    if let Some(row) = nodes.get_mut(node) {
        let fault = fault_of_gift(Some(*row), file);
        row.file = file_given(row.least, is_certain, row.file, file);
        row.least += u64::from(is_certain);
        row.most += 1;
        return fault;
    }
    let first = NodeRow {
        least: u64::from(is_certain),
        most: 1,
        file: file_given(0, is_certain, None, file),
    };
    nodes.put(node, first);
    fault_of_gift(None, file)
}

/// Writes down what an act does to the counts of nodes.
pub(crate) fn note_nodes<A: Allocator + Copy>(nodes: &mut RisingTable<NodeRow, A>, act: Act)
    requires room { 0 < nodes.old.room }
    requires few { (s : Session) × AreNodes s nodes.old.entries × (length s + 1 < 2 ^ 64) }
    ensures kept { (s : Session) → AreNodes s nodes.old.entries → AreNodes (s ++ act ∷ []) nodes.new.entries }
    ensures room { nodes.old.room ≤ nodes.new.room + 1 }
{
    match act {
        Act::Gives {
            nodeid,
            file,
            is_certain,
        } => {
            let _verdict = give(nodes, nodeid, file, is_certain);
        }
        Act::Forgets(node, lookups) => {
            let _verdict = forget(nodes, node, lookups, false);
        }
        _ => {}
    }
}
