//! The tests of the kernel's side and of the wire, in a crate over their crates, so that no proof is repeated
//! to run them.
#![tactic(auto)]

#[cfg(test)]
mod tests;
