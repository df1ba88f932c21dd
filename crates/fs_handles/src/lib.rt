//! The server's table of open files: each file handle (`fh`) with its file and its count.
#![tactic(auto)]

mod handle_table;
mod open_file;

pub use handle_table::HandleTable;
pub use open_file::OpenFile;
