//! The kernel's cached names: what each name of a directory was last known to lead to, and until when.
#![tactic(auto)]

mod bindings;
mod found;
mod key;
mod node_counts;
mod rows;

pub use bindings::Bindings;
pub use found::Found;
