//! Every order of the messages of some calls, found one after another.
#![tactic(auto)]

mod choice;
mod course;
mod follower;
mod printer;

pub use choice::{Choice, Standing};
pub use course::{Stop, Wanted, search};
pub use follower::{Follower, NotFollowed};
pub use printer::{NotPrinted, Printer};
