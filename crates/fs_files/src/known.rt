//! By what the kernel identifies files: nodes and file handles.

ghost use Rattle.std.specs.Prelude.{◌≡◌, ◌≤◌, ◌<◌, ◌+◌, ◌^◌, ◌||◌, [], OnOk, nat_eq};
ghost use Rattle.std.specs.List.{list_any};
ghost use Rattle.fuse_spec.specs.Values.Maps.{values};
ghost use Rattle.fuse_spec.specs.Server.Nodes.{HeldNode, FileHandle};
ghost use Rattle.fs_files.specs.Values.{no_nodes, no_handles};

use crate::nodes::Nodes;
use fs_handles::HandleTable;
use fs_nodes::NodeStore;
use std::alloc::AllocError;
use std::marker::Model;

/// The nodes and the file handles by which files are known.
#[derive(Drop)]
pub(crate) struct KnownFiles<S: NodeStore> {
    pub(crate) nodes: Nodes<S>,
    pub(crate) handles: HandleTable<S::Heap>,
}

impl<S: NodeStore> Model for KnownFiles<S> {
    ghost use Rattle.std.specs.Coded.{codes};
    ghost use Rattle.fs_files.specs.Values.{KnownState};

    ghost Value = { KnownState };

    ghost coded = { Prim.hlevel (codes) };

    ghost view = { λ k. record {
      nodes = k.nodes.table;
      handles = k.handles.table;
      node_room = k.nodes.room;
      open_room = k.handles.room;
    } };
}

impl<S: NodeStore> KnownFiles<S> {
    pub(crate) fn new(alloc: S::Heap) -> Self
        ensures nodes { result.nodes ≡ no_nodes }
        ensures handles { result.handles ≡ no_handles }
    {
        KnownFiles {
            nodes: Nodes::new(alloc),
            handles: HandleTable::new(alloc),
        }
    }

    /// Makes room for as many more nodes as one reply gives at most, and for one more file handle.
    pub(crate) fn reserve(&mut self) -> Result<(), AllocError>
        ensures nodes { self.new.nodes ≡ self.old.nodes }
        ensures handles { self.new.handles ≡ self.old.handles }
        ensures node_room { OnOk result (32 ≤ self.new.node_room) }
        ensures open_room { OnOk result (0 < self.new.open_room) }
    {
        self.nodes.reserve()?;
        self.handles.reserve()
    }

    /// Drops all nodes and file handles. Their counters go on.
    pub(crate) fn clear(&mut self)
        ensures nodes { self.new.nodes ≡ record self.old.nodes { rows = [] } }
        ensures handles { self.new.handles ≡ record self.old.handles { handles = [] } }
    {
        self.nodes.clear();
        self.handles.clear();
    }

    /// Whether a file has a node or a file handle.
    pub(crate) fn holds(&self, file: u64) -> bool
        ensures { result ≡ (list_any (λ (row : HeldNode). nat_eq row.file file) (values self.now.nodes.rows)
            || list_any (λ (h : FileHandle). nat_eq h.file file) (values self.now.handles.handles)) }
    {
        let has_node = self.nodes.has(file);
        let is_open = self.handles.has(file);
        has_node || is_open
    }

    /// Ends it, as a drop does.
    pub(crate) fn end(self) {
        self.nodes.end();
    }
}
