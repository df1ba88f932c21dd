//! What `drive` prints, as JSON objects: one a line.
#![tactic(auto)]

mod asked;
mod event;
mod field;
mod judged;
mod key;
mod lines;
mod object;
mod string;
mod text;

pub use lines::JsonLines;
