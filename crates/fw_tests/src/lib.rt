//! The tests of `fw_script` and `fw_world`, in a crate over them, so that their proofs are not repeated to run them.
#![tactic(auto)]

#[cfg(test)]
mod tests;
