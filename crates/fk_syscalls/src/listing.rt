//! The names that a directory lists.

ghost use Rattle.std.specs.Prelude.{◌≡◌, ◌↔◌, ◌++◌, ◌∷◌, [], length, IfOk, IsTrue, OnErr, OnOk};
ghost use Rattle.fk_syscalls.specs.Rows.{names_len};

use fuse_spec::Kind;
use std::alloc::{AllocError, Allocator, Global};
use std::marker::Model;

/// A name that a directory lists, with the offset from which to read on. Its bytes are borrowed.
#[derive(Clone, Copy, Debug)]
pub struct ListedName<'a> {
    pub ino: u64,
    pub offset: u64,
    pub kind: Kind,
    pub name: &'a [u8],
}

/// What stands of one name beside its bytes.
#[derive(Clone, Copy, Debug)]
struct Row {
    ino: u64,
    offset: u64,
    kind: Kind,
    /// How many bytes the name has.
    len: usize,
}

/// The names that a directory lists, in two vectors: what is said of each, and the bytes of all of them one after
/// another. Contracts see the list of the names.
#[derive(Drop)]
pub struct Listing<A: Allocator = Global> {
    rows: Vec<Row, A>,
    bytes: Vec<u8, A>,
}

impl<A: Allocator> Model for Listing<A> {
    ghost use Rattle.std.specs.Prelude.{◌≡◌, List, length};
    ghost use Rattle.fuse_spec.specs.Files.Operations.{Dirent};
    ghost use Rattle.fk_syscalls.specs.Rows.{dirents_of, names_len};

    ghost Value = { List Dirent };

    ghost view = { λ l. dirents_of l.rows.items l.bytes.items };

    ghost invariant = { λ l. names_len l.rows.items ≡ length l.bytes.items };
}

impl<A: Allocator> Listing<A> {
    ghost use Rattle.fk_syscalls.specs.Listings.{listed_dirent, names_left_in};

    /// No names. There is room for this many names, which have this many bytes together.
    ///
    /// # Errors
    ///
    /// Out of memory.
    pub fn with_capacity(alloc: A, names: usize, bytes: usize) -> Result<Listing<A>, AllocError>
    where
        A: Copy,
        ensures { IfOk result (λ listing. listing ≡ []) }
    {
        let rows = Vec::with_capacity(alloc, names)?;
        let bytes = Vec::with_capacity(alloc, bytes)?;
        Ok(Listing { rows, bytes })
    }

    /// Puts a copy of a name last.
    ///
    /// # Errors
    ///
    /// Out of memory. The listing is as it was.
    #[inline(always)]
    pub fn push(&mut self, listed: ListedName<'_>) -> Result<(), AllocError>
        ensures ok { OnOk result (self.new ≡ self.old ++ listed_dirent listed.entry ∷ []) }
        ensures err { OnErr result (self.new ≡ self.old) }
    {
        let ListedName {
            ino,
            offset,
            kind,
            name,
        } = listed;
        // The row has its room first, so that nothing is to be taken back where the bytes have none.
        self.rows.reserve(1)?;
        self.bytes.extend_from_slice(name)?;
        let row = Row {
            ino,
            offset,
            kind,
            len: name.len(),
        };
        self.rows.push(row).unwrap();
        Ok(())
    }

    /// The names, in their order. They are borrowed, and no memory is taken.
    pub fn iter(&self) -> ListedNames<'_>
        ensures { names_left_in result ≡ self.now }
    {
        ListedNames {
            rows: self.rows.as_slice(),
            bytes: self.bytes.as_slice(),
        }
    }

    /// How many names there are.
    pub fn len(&self) -> usize
        ensures { result ≡ length self.now }
    {
        self.rows.len()
    }

    /// Whether there is no name.
    pub fn is_empty(&self) -> bool
        ensures { IsTrue result ↔ (self.now ≡ []) }
    {
        self.rows.is_empty()
    }
}

/// What is left of a listing: an iterator over its names, which takes no memory.
#[derive(Clone, Copy, Debug)]
pub struct ListedNames<'a> {
    rows: &'a [Row],
    bytes: &'a [u8],
    ghost whole: { names_len rows.now ≡ length bytes.now },
}

impl<'a> Iterator for ListedNames<'a> {
    type Item = ListedName<'a>;

    ghost use Rattle.std.specs.Iterator.{YieldsFirstBy, item_count};
    ghost use Rattle.fk_syscalls.specs.Listings.{listed_dirent, names_left_in};

    ghost next_gives = { YieldsFirstBy listed_dirent names_left_in };

    ghost remaining = { item_count names_left_in };

    #[inline(always)]
    fn next(&mut self) -> Option<ListedName<'a>> {
        let (row, rows) = self.rows.split_first()?;
        let (name, bytes) = self.bytes.split_at(row.len);
        self.rows = rows;
        self.bytes = bytes;
        Some(ListedName {
            ino: row.ino,
            offset: row.offset,
            kind: row.kind,
            name,
        })
    }
}
