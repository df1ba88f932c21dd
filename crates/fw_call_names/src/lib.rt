//! Lines of a script of `drive` in which calls have names: `call create /a as A`, and then `call read A 0 10`.
#![tactic(auto)]

mod lines;
mod name;
mod named;
mod numbered;
mod plain;
mod put;
mod split;

pub use lines::NamedLines;
pub use plain::plain_script;
