//! The files that a server serves: a tree, and the nodes and file handles by which requests name its files. Held
//! requests are performed on them.
#![tactic(auto)]

mod answering;
mod files;
mod held;
mod known;
mod listed_names;
mod nodes;
mod numbering;
mod numbers;
mod operating;
mod plan;
mod records;
mod replies;
mod spare;
mod unlinked;

pub use files::Files;
pub use held::{HeldBody, HeldOperation, HeldRequest, Named, NamedNode};
pub use listed_names::ListedNames;
pub use nodes::Nodes;
pub use replies::{
    Outcome, SentReply, body_len, copied, errno, file_entries, framed, name_count, opened,
};
pub use spare::ListingBuffers;
