//! A judge of the names that a kernel removes in a FUSE session: its verdicts are exactly those of `name_sessions`.
//!
//! The judge keeps the requests that wait, with their names, and the names that were given, in ordered tables: no choice
//! of names and of numbers makes a step slow.
#![tactic(auto)]

mod given;
mod judge;
mod kept;
mod replies;
mod requests;
mod tables;
mod transfers;
mod waiting;

pub use judge::NameJudge;
