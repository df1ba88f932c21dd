//! What pins nodes: the kernel's table of open files, with how many of them each node has, and counts of pins by node.
#![tactic(auto)]

mod open_files;

pub use open_files::OpenFiles;
