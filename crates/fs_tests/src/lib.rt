//! The tests of the server's side, in a crate over its crates, so that no proof is repeated to run them.
#![tactic(auto)]

#[cfg(test)]
mod tests;
