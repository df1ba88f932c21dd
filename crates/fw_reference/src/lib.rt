//! A world of this project's own, in which the calls of another kernel's run are made again.
#![tactic(auto)]

mod reference;

pub use reference::Reference;
