//! The tests of the judge, in a crate over its crates, so that no proof is repeated to run them.
#![tactic(auto)]

#[cfg(test)]
mod acts;
#[cfg(test)]
mod captures;
#[cfg(test)]
mod devices;
#[cfg(test)]
mod frames;
