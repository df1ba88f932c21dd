//! A judge of one session, from its beginning or from its middle on: of a session that was joined it names what is
//! certain whatever went before.
#![tactic(auto)]

mod judging;
mod verdicts;

pub use judging::{see_as, start_judge};
