//! The tests of `fuse_protocol`, `fuse_replies` and the names of errors, in a crate over them, so that no proof is repeated to run
//! them.
#![tactic(auto)]

#[cfg(test)]
mod tests;
