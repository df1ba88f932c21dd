//! Operations that nothing refuses.

ghost use Rattle.std.specs.Prelude.{◌≡◌, ◌≤◌, ◌<◌, true, None, IfOk, OnErr, OnOk, map};
ghost use Rattle.fuse_spec.specs.declared.Validity.{Validity as ValidityValue};
ghost use Rattle.fuse_spec.specs.Files.FileOperations.{refusal, tree_unrefused};
ghost use Rattle.fuse_spec.specs.Values.Numbers.{counter_end, max_validity};
ghost use Rattle.fuse_spec.specs.Files.Operations.{create, getattr, link, lookup, mkdir, read, rename, rmdir, unlink, write};
ghost use Rattle.fuse_spec.specs.Files.TreeShape.{WritesRegular};
ghost use Rattle.fuse_spec.specs.Server.Memory.{operation_takes_memory};
ghost use Rattle.fs_files.specs.Bounds.{AreLow, AreThere, IsThere};
ghost use Rattle.fs_files.specs.Listing.{Lists, listing};
ghost use Rattle.fs_files.specs.Performing.{Operates};
ghost use Rattle.fs_files.specs.Values.{held_operation_of, on_files};

use crate::held::HeldOperation;
use crate::nodes::Nodes;
use crate::records::record_bytes;
use crate::replies::Outcome;
use fs_nodes::NodeStore;
use fs_tree::{Record, Tree, TreeError};
use fuse_frames::Reply;
use fuse_spec::{Operation, Validity};
use std::alloc::{AllocError, Allocator};

/// Does an operation that nothing refuses. Where memory runs out the tree is as before.
#[inline(always)]
pub(crate) fn operate<A: Allocator + Copy, S: NodeStore>(
    tree: &mut Tree<A>,
    nodes: &Nodes<S>,
    operation: &HeldOperation<A>,
    validity: Validity,
    alloc: A,
) -> Result<Outcome<A>, AllocError>
    requires unrefused { refusal tree.old (on_files nodes.now.table operation.now) ≡ None }
    requires inodes { (tree_unrefused tree.old (on_files nodes.now.table operation.now)).next_inode ≤ counter_end }
    requires cookies { (tree_unrefused tree.old (on_files nodes.now.table operation.now)).next_cookie ≤ counter_end }
    requires low { AreLow nodes.now.table }
    requires there { AreThere tree.old nodes.now.table }
    requires regular { WritesRegular tree.old (on_files nodes.now.table operation.now) }
    requires day { validity.missing_ms ≤ max_validity }
    ensures ok { IfOk result (λ outcome. Operates validity tree.old
        (on_files nodes.now.table operation.now) outcome tree.new) }
    ensures err { OnErr result (tree.new ≡ tree.old) }
    ensures memory { OnErr result (operation_takes_memory (held_operation_of operation.now) ≡ true) }
{
    tree.lemma_shaped();
    let file = nodes.file_of(operation.header_node());
    match operation {
        Operation::Lookup { name, .. } => Ok(look_up(tree, file, name, validity)),
        Operation::Getattr { .. } => Ok(attributes(tree, file)),
        Operation::Mkdir { name, .. } => make_directory(tree, file, name),
        Operation::Create { name, .. } => make_file(tree, file, name),
        Operation::Unlink { name, .. } => Ok(remove_file(tree, file, name)),
        Operation::Rmdir { name, .. } => Ok(remove_directory(tree, file, name)),
        Operation::Rename {
            old,
            newdir,
            new,
            ..
        } => move_file(tree, file, old, nodes.file_of(*newdir), new),
        Operation::Link { node, name, .. } => link_file(tree, nodes.file_of(*node), file, name),
        Operation::Open { .. } => Ok(Outcome::Opened { file }),
        Operation::Readdir { after, size, .. } => list(tree, file, *after, *size, false, alloc),
        Operation::Readdirplus { after, size, .. } => {
            list(tree, file, *after, *size, true, alloc)
        }
        Operation::Read { offset, size, .. } => read_bytes(tree, file, *offset, *size, alloc),
        Operation::Write { offset, bytes, .. } => write_bytes(tree, file, *offset, bytes),
    }
}

/// A LOOKUP.
#[inline(always)]
fn look_up<A: Allocator + Copy>(
    tree: &Tree<A>,
    directory: u64,
    name: &[u8],
    validity: Validity,
) -> Outcome<A>
    requires unrefused { refusal tree.now (lookup directory name.now) ≡ None }
    requires day { validity.missing_ms ≤ max_validity }
    ensures { Operates validity tree.now (lookup directory name.now) result tree.now }
{
    tree.lemma_shaped();
    let _inodes = tree.inodes_left();
    match tree.file_at(directory, name) {
        Some(file) => Outcome::Entry { file },
        None => Outcome::Reply {
            reply: Reply::Negative {
                valid_ms: validity.missing_ms,
            },
        },
    }
}

/// A GETATTR.
#[inline(always)]
fn attributes<A: Allocator + Copy>(tree: &Tree<A>, file: u64) -> Outcome<A>
    requires { file < counter_end }
    ensures { (v : ValidityValue) → Operates v tree.now (getattr file) result tree.now }
{
    let attributes = tree.getattr(file);
    Outcome::Reply {
        reply: Reply::Attributes(attributes),
    }
}

/// A MKDIR.
fn make_directory<A: Allocator + Copy>(
    tree: &mut Tree<A>,
    directory: u64,
    name: &[u8],
) -> Result<Outcome<A>, AllocError>
    requires unrefused { refusal tree.old (mkdir directory name.now) ≡ None }
    requires inodes { tree.old.next_inode < counter_end }
    requires cookies { tree.old.next_cookie < counter_end }
    ensures ok { IfOk result (λ outcome. (v : ValidityValue)
        → Operates v tree.old (mkdir directory name.now) outcome tree.new) }
    ensures err { OnErr result (tree.new ≡ tree.old) }
{
    match tree.make_directory(directory, name) {
        Ok(file) => Ok(Outcome::Entry { file }),
        Err(_) => Err(AllocError),
    }
}

/// A CREATE.
fn make_file<A: Allocator + Copy>(
    tree: &mut Tree<A>,
    directory: u64,
    name: &[u8],
) -> Result<Outcome<A>, AllocError>
    requires unrefused { refusal tree.old (create directory name.now) ≡ None }
    requires inodes { tree.old.next_inode < counter_end }
    requires cookies { tree.old.next_cookie < counter_end }
    ensures ok { IfOk result (λ outcome. (v : ValidityValue)
        → Operates v tree.old (create directory name.now) outcome tree.new) }
    ensures err { OnErr result (tree.new ≡ tree.old) }
{
    match tree.make_file(directory, name) {
        Ok(file) => Ok(Outcome::Created { file }),
        Err(_) => Err(AllocError),
    }
}

/// An UNLINK.
fn remove_file<A: Allocator + Copy>(tree: &mut Tree<A>, directory: u64, name: &[u8]) -> Outcome<A>
    requires unrefused { refusal tree.old (unlink directory name.now) ≡ None }
    ensures { (v : ValidityValue) → Operates v tree.old (unlink directory name.now) result tree.new }
{
    let Ok(()) = tree.unlink(directory, name) else {
        unreachable!();
    };
    done()
}

/// An RMDIR.
fn remove_directory<A: Allocator + Copy>(
    tree: &mut Tree<A>,
    directory: u64,
    name: &[u8],
) -> Outcome<A>
    requires unrefused { refusal tree.old (rmdir directory name.now) ≡ None }
    ensures { (v : ValidityValue) → Operates v tree.old (rmdir directory name.now) result tree.new }
{
    let Ok(()) = tree.rmdir(directory, name) else {
        unreachable!();
    };
    done()
}

/// A RENAME. One onto another name of the same file changes nothing.
fn move_file<A: Allocator + Copy>(
    tree: &mut Tree<A>,
    directory: u64,
    old: &[u8],
    new_directory: u64,
    new: &[u8],
) -> Result<Outcome<A>, AllocError>
    requires unrefused { refusal tree.old (rename directory old.now new_directory new.now) ≡ None }
    requires cookies { (tree_unrefused tree.old (rename directory old.now new_directory new.now)).next_cookie
        ≤ counter_end }
    ensures ok { IfOk result (λ outcome. (v : ValidityValue)
        → Operates v tree.old (rename directory old.now new_directory new.now) outcome tree.new) }
    ensures err { OnErr result (tree.new ≡ tree.old) }
{
    if tree.are_same(directory, old, new_directory, new) {
        return Ok(done());
    }
    match tree.rename(directory, old, new_directory, new) {
        Ok(()) => Ok(done()),
        Err(_) => Err(AllocError),
    }
}

/// A LINK.
fn link_file<A: Allocator + Copy>(
    tree: &mut Tree<A>,
    file: u64,
    directory: u64,
    name: &[u8],
) -> Result<Outcome<A>, AllocError>
    requires cookies { tree.old.next_cookie < counter_end }
    requires low { file < counter_end }
    requires there { IsThere tree.old file }
    ensures ok { IfOk result (λ outcome. (v : ValidityValue)
        → Operates v tree.old (link file directory name.now) outcome tree.new) }
    ensures err { OnErr result (tree.new ≡ tree.old) }
{
    match tree.link(file, directory, name) {
        Ok(()) => Ok(Outcome::Entry { file }),
        Err(_) => Err(AllocError),
    }
}

/// A READDIR or, where each name is listed with its file, a READDIRPLUS.
fn list<A: Allocator + Copy>(
    tree: &Tree<A>,
    directory: u64,
    after: u64,
    size: u32,
    with_files: bool,
    alloc: A,
) -> Result<Outcome<A>, AllocError>
    ensures { IfOk result (λ outcome. (v : ValidityValue)
        → Operates v tree.now (listing with_files directory after size) outcome tree.now) }
{
    tree.lemma_shaped();
    let _inodes = tree.inodes_left();
    let Ok(records) = records_listed(tree, directory, after, size, with_files) else {
        return Err(AllocError);
    };
    let names = records.len();
    let records = record_bytes(alloc, &records)?;
    if with_files {
        return Ok(Outcome::ListedPlus { records, names });
    }
    Ok(Outcome::Reply {
        reply: Reply::Listed(records),
    })
}

/// The records of the names that a READDIR or a READDIRPLUS lists.
fn records_listed<A: Allocator + Copy>(
    tree: &Tree<A>,
    directory: u64,
    after: u64,
    size: u32,
    with_files: bool,
) -> Result<Vec<Record<'_>, A>, TreeError>
    ensures { IfOk result (λ records. Lists with_files tree.now directory after size records.items) }
{
    if with_files {
        return tree.readdirplus(directory, after, size);
    }
    tree.readdir(directory, after, size)
}

/// A READ.
fn read_bytes<A: Allocator + Copy>(
    tree: &Tree<A>,
    file: u64,
    offset: u64,
    size: u32,
    alloc: A,
) -> Result<Outcome<A>, AllocError>
    ensures { IfOk result (λ outcome. (v : ValidityValue)
        → Operates v tree.now (read file offset size) outcome tree.now) }
{
    let bytes = tree.read(file, offset, size).to_vec(alloc)?;
    Ok(Outcome::Reply {
        reply: Reply::Content(bytes),
    })
}

/// A WRITE.
fn write_bytes<A: Allocator + Copy>(
    tree: &mut Tree<A>,
    file: u64,
    offset: u64,
    bytes: &[u8],
) -> Result<Outcome<A>, AllocError>
    requires regular { WritesRegular tree.old (write file offset bytes.now) }
    ensures ok { IfOk result (λ outcome. (v : ValidityValue)
        → Operates v tree.old (write file offset bytes.now) outcome tree.new) }
    ensures err { OnErr result (tree.new ≡ tree.old) }
{
    match tree.write(file, offset, bytes) {
        Ok(()) => Ok(Outcome::Reply {
            reply: Reply::Written {
                size: bytes.len() as u32,
            },
        }),
        Err(_) => Err(AllocError),
    }
}

/// The outcome of an operation with no more to say.
fn done<A: Allocator>() -> Outcome<A>
    ensures { result ≡ Outcome.Reply Reply.Done }
{
    Outcome::Reply { reply: Reply::Done }
}
