//! The queues of a FUSE kernel: pending requests, those in processing, INTERRUPTs and forgets.
#![tactic(auto)]

mod forgets;
mod interrupts;
mod kernel_queues;
pub mod laws;
mod list_requests;
mod map_requests;
mod marks;
mod no_memory;
mod queues;
mod request_store;
pub mod table;

pub use forgets::Forgets;
pub use fuse_spec::IntrEffect;
pub use kernel_queues::KernelQueues;
pub use list_requests::ListRequests;
pub use map_requests::MapRequests;
pub use no_memory::NoMemory;
pub use queues::QueuesOf;
pub use request_store::RequestStore;
use std::alloc::Global;
pub use table::QueueTable;

/// The queues, with their requests in a table under their numbers, which rise.
///
/// What each call costs, for `n` requests pending and in processing. A step is a look-up by number, in constant time for
/// the oldest and the newest request, else in log `n` time. A search is one for a number among those of the pending
/// requests, in log `n` time. Where it is there and goes, those on its shorter side move up: the oldest and the newest
/// move no other.
///
/// | Call | Time |
/// |---|---|
/// | `numbers_left`, `first_interrupt`, `forget`, `no_interrupts` | constant |
/// | `enqueue` | constant, on the whole of many calls: at times one moves all requests |
/// | `kept`, `waiting`, `pending(place)` | a step |
/// | `read_pending(place)`, `interrupt` | two steps and a search |
/// | `answer` | two steps, a search, and one pass over the queued INTERRUPTs |
/// | `again` | a step, and one pass over the queued INTERRUPTs |
/// | `read_interrupt` | the queued INTERRUPTs behind the first move up |
/// | `first_forgets(count)`, `read_forgets(count)` | `count` steps |
/// | `reserve` | constant where the room is there, else a copy of what grows |
/// | `abort` | constant time for each request and each forget |
///
/// A place among the pending requests is a promise of the contract, so their numbers leave no hole: that is what moves.
pub type Queues<W, A = Global> = QueuesOf<W, MapRequests<W, A>>;

/// The queues, with their requests in a list. A look-up by number goes over the requests.
pub type ListQueues<W, A = Global> = QueuesOf<W, ListRequests<W, A>>;
