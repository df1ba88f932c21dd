//! The file tree of the server: files, their names, and the operations on them.
//!
//! A file is known by its inode. The root is file 0, and a directory. Inodes rise by 1, and none is used twice. A name
//! is a directory, the bytes of the name, the file to which it leads, and a cookie. Cookies start at 1 and rise with
//! each name that is made. A file is nameless when no name leads to it; the root never counts as nameless. A nameless
//! file stays until it is discarded.
#![tactic(auto)]

mod bytes;
mod directories;
mod entries;
mod error;
mod files;
mod listing;
mod names;
mod operations;
mod parents;
mod rows;
pub mod shape;
mod tree;

pub use error::TreeError;
pub use fuse_spec::{Attributes, Kind};
pub use listing::{MOST_LISTED, Record};
pub use tree::{ROOT, Tree};
