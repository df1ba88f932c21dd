//! What the kernel promises over a whole driven run, whatever bytes its server sends. The functions do nothing: each
//! contract is a law.
#![tactic(auto)]

pub mod driven_runs;
