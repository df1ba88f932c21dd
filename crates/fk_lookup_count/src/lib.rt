//! The nodes that the kernel counts: each node id with its generation, its lookup count.
//!
//! A lookup count says how many entry replies named a node since it was counted. The server keeps the same count, and
//! takes it back by forgets (libfuse's low-level notes, "forget").
#![tactic(auto)]

pub mod count_table;
mod counts;
mod forget;
mod kernel_slots;
mod list_slots;
pub mod slots;
mod unlike;

pub use count_table::CountTable;
pub use counts::CountsOf;
pub use forget::Forget;
pub use kernel_slots::KernelSlots;
pub use list_slots::ListSlots;
use std::alloc::Global;
pub use unlike::Unlike;

/// The kernel's table: rows in rising id, and an ordered map of ids that came late.
pub type KernelNodes<A = Global> = CountsOf<KernelSlots<A>>;

/// The plain table: rows in rising id.
pub type ListCounts<A = Global> = CountsOf<ListSlots<A>>;
