//! The files that are served.

ghost use Rattle.std.specs.Prelude.{◌≡◌, ◌≤◌, ◌<◌, ◌+◌, ◌^◌, [], nat_lt, false, OnOk, IfOk, IfSome, IfNone, None, is_some, option_map, Some};
ghost use Rattle.fuse_spec.specs.Values.Maps.{get};
ghost use Rattle.fuse_spec.specs.declared.Validity.{Validity as ValidityValue};
ghost use Rattle.fuse_spec.specs.Server.Nodes.{handle_back, handle_more, is_held, row_more, taken_back, FileHandle};
ghost use Rattle.fuse_spec.specs.Server.Copies.{row_back};
ghost use Rattle.fuse_spec.specs.Server.Server.{count_in, is_file_held};
ghost use Rattle.fuse_spec.specs.Values.Numbers.{counter_end};
ghost use Rattle.fs_nodes.specs.Rows.{listed_nodes};
ghost use Rattle.fs_nodes.specs.Sound.{IsSoundNodeTable};
ghost use Rattle.fs_tree.specs.Outcomes.{only_root, without_unheld};
ghost use Rattle.fs_files.specs.Bounds.{HaveCountsUpTo, AreNamed, AreNamedBut, AreUsed};
ghost use Rattle.fs_files.specs.Values.{no_nodes, no_handles, server_of};

use crate::known::KnownFiles;
use crate::nodes::Nodes;
use fs_nodes::NodeStore;
use fs_tree::Tree;
use fuse_spec::Entry;
use std::alloc::AllocError;
use std::marker::Model;

/// The files that are served: the tree, and the nodes and file handles by which the kernel knows its files. Contracts
/// see beside these how many more nodes and file handles can be given with no memory.
#[derive(Drop)]
pub struct Files<S: NodeStore> {
    pub(crate) alloc: S::Heap,
    pub(crate) tree: Tree<S::Heap>,
    pub(crate) known: KnownFiles<S>,
}

impl<S: NodeStore> Model for Files<S> {
    ghost use Rattle.std.specs.Coded.{codes};
    ghost use Rattle.fs_files.specs.Bounds.{AreKnown};
    ghost use Rattle.fs_files.specs.Values.{FilesState};

    ghost Value = { FilesState };

    ghost coded = { Prim.hlevel (codes) };

    ghost view = { λ f. record {
      tree = f.tree;
      nodes = f.known.nodes;
      handles = f.known.handles;
      node_room = f.known.node_room;
      open_room = f.known.open_room;
    } };

    ghost invariant = { λ f. AreKnown f.tree f.known.nodes f.known.handles };
}

impl<S: NodeStore> Files<S> {
    /// The root alone, and nothing known.
    ///
    /// # Errors
    ///
    /// Out of memory.
    pub fn new(alloc: S::Heap) -> Result<Self, AllocError>
        ensures tree { IfOk result (λ files. files.tree ≡ only_root) }
        ensures nodes { IfOk result (λ files. files.nodes ≡ no_nodes) }
        ensures handles { IfOk result (λ files. files.handles ≡ no_handles) }
        ensures named { IfOk result (λ files. AreNamed files.tree files.nodes files.handles) }
    {
        let tree = Tree::new(alloc)?;
        Ok(Files {
            alloc,
            tree,
            known: KnownFiles::new(alloc),
        })
    }

    /// Makes room for the nodes and the file handle that one more reply gives.
    ///
    /// # Errors
    ///
    /// Out of memory: that room was not there. What is known is as before.
    pub fn reserve(&mut self) -> Result<(), AllocError>
        ensures tree { self.new.tree ≡ self.old.tree }
        ensures nodes { self.new.nodes ≡ self.old.nodes }
        ensures handles { self.new.handles ≡ self.old.handles }
        ensures node_room { OnOk result (32 ≤ self.new.node_room) }
        ensures open_room { OnOk result (0 < self.new.open_room) }
    {
        self.known.reserve()
    }

    /// No counter has given a number past its end, 2^62.
    pub fn lemma_in_range(&self)
        ensures inodes { nat_lt counter_end self.now.tree.next_inode ≡ false }
        ensures cookies { nat_lt counter_end self.now.tree.next_cookie ≡ false }
        ensures generations { nat_lt counter_end self.now.nodes.next_generation ≡ false }
        ensures numbers { nat_lt counter_end self.now.handles.next_fh ≡ false }
    {
        let _inodes = self.tree.inodes_left();
        let _cookies = self.tree.cookies_left();
        let _generations = self.known.nodes.generations_left();
        let _numbers = self.known.handles.numbers_left();
    }

    /// Nodeids rise from 2, no two have one file, each has a lookup, and its generation was given before the coming
    /// one.
    pub fn lemma_sound(&self)
        ensures { IsSoundNodeTable self.now.nodes }
    {
        self.known.nodes.lemma_sound();
    }

    /// The nodes that are held.
    pub fn nodes(&self) -> &Nodes<S>
        ensures { result.now.table ≡ self.now.nodes }
    {
        &self.known.nodes
    }

    /// Whether a file handle is in use.
    pub fn has_handle(&self, fh: u64) -> bool
        ensures { result ≡ is_some (get self.now.handles.handles fh) }
    {
        self.known.handles.file_of(fh).is_some()
    }

    /// Forgets this many lookups of a node, if it is held; it has as many.
    pub fn forget(&mut self, id: u64, count: u64)
        requires { count ≤ count_in (get self.old.nodes.rows id) }
        ensures tree { self.new.tree ≡ self.old.tree }
        ensures nodes { self.new.nodes ≡ taken_back self.old.nodes id count }
        ensures handles { self.new.handles ≡ self.old.handles }
    {
        self.known.nodes.forget(id, count);
    }

    /// Takes back the lookup of an entry, where its node is still held under the entry's generation.
    pub fn uncount(&mut self, entry: &Entry)
        ensures tree { self.new.tree ≡ self.old.tree }
        ensures nodes { self.new.nodes ≡ row_back self.old.nodes entry.now }
        ensures handles { self.new.handles ≡ self.old.handles }
    {
        self.known.nodes.uncount(entry);
    }

    /// Takes back one use of a file handle, if it is in use.
    pub fn uncount_handle(&mut self, fh: u64)
        ensures tree { self.new.tree ≡ self.old.tree }
        ensures nodes { self.new.nodes ≡ self.old.nodes }
        ensures handles { self.new.handles ≡ handle_back self.old.handles fh }
    {
        self.known.handles.take_back(fh);
    }

    /// Counts one lookup more of a node, if it is held.
    pub fn count_again(&mut self, id: u64)
        requires { HaveCountsUpTo (2 ^ 63) self.old.nodes }
        ensures tree { self.new.tree ≡ self.old.tree }
        ensures nodes { self.new.nodes ≡ row_more self.old.nodes id }
        ensures handles { self.new.handles ≡ self.old.handles }
    {
        self.known.nodes.count_again(id);
    }

    /// Counts one use more of a file handle, if it is in use.
    pub fn count_handle_again(&mut self, fh: u64)
        requires { AreUsed counter_end self.old.handles }
        ensures tree { self.new.tree ≡ self.old.tree }
        ensures nodes { self.new.nodes ≡ self.old.nodes }
        ensures handles { self.new.handles ≡ handle_more self.old.handles fh }
    {
        self.known.handles.again(fh);
    }

    /// The file of a file handle, if that is in use.
    pub fn handle_file(&self, fh: u64) -> Option<u64>
        ensures { result ≡ option_map (λ (handle : FileHandle). handle.file) (get self.now.handles.handles fh) }
    {
        self.known.handles.file_of(fh)
    }

    /// Takes a file out of the tree, if no name leads to it and nothing holds it. Every other file that nothing holds
    /// has a name, so then all nameless files are gone that nothing holds.
    #[inline(always)]
    pub fn discard_unheld(&mut self, file: Option<u64>)
        requires { AreNamedBut file self.old.tree self.old.nodes self.old.handles }
        ensures tree { (v : ValidityValue) → self.new.tree
            ≡ without_unheld (is_file_held (server_of self.old v)) self.old.tree }
        ensures nodes { self.new.nodes ≡ self.old.nodes }
        ensures handles { self.new.handles ≡ self.old.handles }
        ensures named { AreNamed self.new.tree self.new.nodes self.new.handles }
    {
        let Some(file) = file else {
            return;
        };
        if self.known.holds(file) {
            return;
        }
        self.tree.discard(file);
    }

    /// Drops all nodes and file handles, and takes all nameless files out of the tree. Counters go on.
    pub fn clear(&mut self)
        ensures tree { (v : ValidityValue) → self.new.tree
            ≡ without_unheld (is_file_held (server_of self.new v)) self.old.tree }
        ensures nodes { self.new.nodes ≡ record self.old.nodes { rows = [] } }
        ensures handles { self.new.handles ≡ record self.old.handles { handles = [] } }
        ensures named { AreNamed self.new.tree self.new.nodes self.new.handles }
    {
        self.known.clear();
        self.tree.discard_nameless();
    }

    /// Ends it, as a drop does.
    pub fn end(self) {
        self.known.end();
    }
}
