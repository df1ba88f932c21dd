//! Lines of a script of `drive` that stand for several, as `evict all`, and the lines that they give.
#![tactic(auto)]

mod beginning;
mod giving;
mod kind;
mod lines;
mod parts;
mod put;
mod rest;
mod script;
mod walk;

pub use lines::ExpandedLines;
pub use script::expandable_script;
