//! Who keeps the rules is never accused: of what the server of `fs_serve` sends, over any device and whatever
//! kernel is at its other side, the definitions of `fuse_sessions` have no fault.
//!
//! Both crates are proved against definitions of their own: `serve` does what `Serves` says, and a judge names
//! exactly the faults of `Breaks`. Here the two are held against each other, group of faults by group. Where a
//! law asks something of the kernel it says so, and `counterexamples` shows for some that it has to.
#![tactic(auto)]

mod counterexamples;
mod never_accused;

pub use counterexamples::{no_notify_reply_is_needed, number_is_needed};
pub use never_accused::{
    bodies_fit, entries_are_of_files, flags_are_offered, frames_are_whole, no_more_is_counted,
    nodes_stay_of_one_file, nodes_stay_of_one_generation, notifications_are_whole,
    pairs_stay_of_one_file, replies_are_awaited, served_in_exchanges, served_is_unaccused,
    server_has_no_fault,
};
