//! A judge of one session: which act, and which act of a transfer, has which fault, by what the definitions of
//! `fuse_sessions` say.
#![tactic(auto)]

mod change;
mod concern;
mod flags;
mod handle;
mod judge;
mod marks;
mod named;
mod nodes;
mod numbers;
mod opens;
mod pending;
mod projections;
mod session;
mod tables;
mod tally;
mod tally_list;
mod tally_rows;
mod unanswered;

pub use judge::Judge;
pub use session::SessionJudge;
