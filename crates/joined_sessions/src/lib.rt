//! What is certain of a FUSE session that is joined in its middle, whatever went before.
#![tactic(auto)]

mod certain;
mod start;

pub use certain::is_certain;
pub use start::JOINED;
