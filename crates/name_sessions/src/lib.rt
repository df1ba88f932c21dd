//! Which names of a FUSE session a kernel may remove, said over the session alone.
//!
//! A kernel takes a name away, by UNLINK, RMDIR or RENAME, only where it has a file of that name: an answer gave it one,
//! and no answer took the name away since. `specs/` says so over a list of name acts: by the last act that speaks of a
//! name, never as a table.
#![tactic(auto)]

mod theorem;

pub use theorem::{fault_of_a_removal, several_readers_hide_removals};
