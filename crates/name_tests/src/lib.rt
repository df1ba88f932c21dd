//! The tests of the judge of names, in a crate over its crates, so that no proof is repeated to run them.
#![tactic(auto)]

#[cfg(test)]
mod removals;
