//! The nodes that the kernel counts, and how the names of a list with their files are judged, counted and cached.
#![tactic(auto)]

mod counted_nodes;
mod entry_use;
mod listed;
mod listed_entry;
mod listed_names;
mod lookups;

pub use counted_nodes::CountedNodes;
pub use entry_use::EntryUse;
pub use listed::{count_listed, take_listed};
pub use listed_names::{names_of_direntpluses, names_of_dirents};
