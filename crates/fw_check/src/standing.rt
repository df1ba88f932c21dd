//! What stands of a session: the nodes that are counted and the files that are open.

ghost use Rattle.std.specs.Prelude.{◌≡◌, [], ◌∷◌, ◌++◌, OnOk, nat_eq};
ghost use Rattle.fuse_sessions.specs.Counts.{gives_most, forgets_of};
ghost use Rattle.fuse_sessions.specs.OpenFiles.{opens_this, releases_this};
ghost use Rattle.fuse_sessions.specs.Sessions.{Session};
ghost use Rattle.fw_check.specs.Held.{Does};
ghost use Rattle.fw_check.specs.Standing.{IsCountOf, Stands, file_count, file_of, node_count, same_key};

use crate::file_key::{FileKey, key_of};
use crate::held::{Held, Step, count_of, held_keys, note_step};
use fuse_sessions::Act;
use std::alloc::{AllocError, Allocator, Global};
use std::collections::BTreeMap;

/// What stands of a session. A node that is counted no more and a file that is released take no memory.
#[derive(Drop)]
pub(crate) struct Standing<A: Allocator = Global> {
    /// How often each node is counted at most.
    pub(crate) nodes: Held<u64, A>,
    /// How often each file is open.
    pub(crate) files: Held<FileKey, A>,
}

/// What an act does to the counts of nodes.
fn node_step(act: Act) -> Step<u64>
    ensures { Does nat_eq result (λ node. gives_most node act) (λ node. forgets_of node act) }
{
    match act {
        Act::Gives { nodeid, .. } => Step::More(nodeid),
        Act::Forgets(nodeid, lookups) => Step::Less(nodeid, lookups),
        _ => Step::Nothing,
    }
}

/// What an act does to the counts of open files.
fn file_step(act: Act) -> Step<FileKey>
    ensures { Does same_key result (λ key. opens_this (file_of key) act) (λ key. releases_this (file_of key) act) }
{
    match act {
        Act::Opens(file) => Step::More(key_of(file)),
        Act::Releases(file) => Step::Less(key_of(file), 1),
        _ => Step::Nothing,
    }
}

/// Nothing stands.
pub(crate) fn nothing_stands<A: Allocator + Copy>(alloc: A) -> Standing<A>
    ensures { Stands [] result.nodes.entries result.files.entries }
{
    Standing {
        nodes: BTreeMap::new(alloc),
        files: BTreeMap::new(alloc),
    }
}

/// Writes down an act.
///
/// # Errors
///
/// Out of memory.
pub(crate) fn note_act<A: Allocator + Copy>(
    standing: &mut Standing<A>,
    act: Act,
) -> Result<(), AllocError>
    ensures { OnOk result ((s : Session) → Stands s standing.old.nodes.entries standing.old.files.entries
        → Stands (s ++ act ∷ []) standing.new.nodes.entries standing.new.files.entries) }
{
    note_step(&mut standing.nodes, node_step(act))?;
    note_step(&mut standing.files, file_step(act))
}

/// How many nodes are counted.
pub(crate) fn counted_nodes<A: Allocator + Copy>(standing: &Standing<A>) -> u64
    ensures { (s : Session) → Stands s standing.now.nodes.entries standing.now.files.entries → result ≡ node_count s }
{
    held_keys(&standing.nodes)
}

/// How many files are open, and directories.
pub(crate) fn open_files<A: Allocator + Copy>(standing: &Standing<A>) -> u64
    ensures { (s : Session) → Stands s standing.now.nodes.entries standing.now.files.entries → result ≡ file_count s }
{
    held_keys(&standing.files)
}

/// How often a node is counted at most, if one is asked for.
pub(crate) fn count_of_node<A: Allocator + Copy>(standing: &Standing<A>, node: Option<u64>) -> u64
    ensures { (s : Session) → Stands s standing.now.nodes.entries standing.now.files.entries → IsCountOf s node result }
{
    match node {
        Some(node) => count_of(&standing.nodes, node),
        None => 0,
    }
}
