//! A kernel that keeps the rules is never accused: of what the kernel of `fk_drive` sends, over any device and whatever
//! server is at its other side, the definitions of `fuse_sessions` have no fault.
//!
//! Both crates are proved against definitions of their own: `drive` does what `Drives` says, and a judge names
//! exactly the faults of `Breaks`. Here the two are held against each other, group of faults by group.
#![tactic(auto)]

mod counted_lookups;
mod never_accused;

pub use counted_lookups::{lookups_are_counted, lookups_are_the_same};
pub use never_accused::{
    directories_are_used_rightly, files_are_used_rightly, forgets_are_of_lookups,
    forgets_are_of_what_is_counted, frames_are_requests, init_is_first,
    interrupts_have_their_numbers, named_nodes_are_kept, nodes_are_counted,
    nodes_of_open_directories_are_kept, nothing_before_init, numbers_are_even,
    numbers_are_used_once, readers_are_several, requests_are_not_resent, requests_are_whole,
    writes_are_small,
};
