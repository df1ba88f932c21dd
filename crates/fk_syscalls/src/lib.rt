//! System calls: how a path spells words, how far cached names lead along them, and what a call then asks.
#![tactic(auto)]

mod beginning;
mod call;
mod listing;
mod new_name;
mod path;
mod plan;
mod state;
mod walk;
mod words;

pub use beginning::begin;
pub use call::{Answer, Call};
pub use listing::{ListedName, ListedNames, Listing};
pub use new_name::NewName;
pub use state::{CallState, Next};
