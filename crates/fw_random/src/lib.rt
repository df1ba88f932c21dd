//! Lines of a script that are chosen one after another, from what the kernel can do just then.
#![tactic(auto)]

mod adopted;
mod alike;
mod beside;
mod calls;
mod chance;
mod chooser;
mod commented;
mod group;
mod known;
mod linux;
mod plan;
mod progress;
mod random_lines;
mod rounds;
mod text;

pub use commented::Commented;
pub use random_lines::{Choice, RandomLines};
