//! Output within the limit on the size of files.
#![tactic(auto)]

mod limited;
#[cfg(test)]
mod tests;

pub use limited::{LimitedWriter, room_in_file};
