//! Every order of the messages of some calls, each as a script of `drive`.
#![tactic(auto)]

mod act;
mod fault;
mod file_orders;
mod follow;
mod headed;
mod moment;
mod part;
mod read;
mod run;
mod stop;

pub use fault::LinesFault;
pub use order_search::Wanted;
pub use run::print_orders;
