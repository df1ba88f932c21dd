//! The kernel's half of the protocol: calls, cached names, counted nodes and requests, against any bytes that are
//! written as replies.
#![tactic(auto)]

mod abort;
mod answers;
mod begin;
mod cached_names;
mod collect;
mod drop_binding;
mod entries;
mod evict;
mod interrupt;
mod kernel;
mod listing;
mod mount;
mod open_files;
mod phase;
mod queue_room;
mod read;
mod read_forgets;
mod read_interrupt;
mod read_pending;
mod replies;
mod step;
mod tick;
mod write;
mod write_refusal;

pub use fk_syscalls::{Answer, Call, ListedName, ListedNames, Listing};
pub use kernel::{Kernel, KernelOf, ListKernel};
pub use read::Pick;
pub use step::{KernelEvent, KernelStep};
