//! The kernel's unanswered calls, over tables: how they are answered, which cached names go or come with a reply,
//! which open files they use, and which nodes they pin.
#![tactic(auto)]

mod answers;
mod limit;
mod names;
mod pins;
mod stored_answer;
mod uses;

pub use answers::{answer, answer_all, is_interrupted, result_of};
pub use limit::{is_full, may_batch_forgets};
pub use names::{bind_missing, unbind};
pub use pins::is_node_in_use;
pub use stored_answer::StoredAnswer;
pub use uses::{is_in_other_use, is_in_use};
