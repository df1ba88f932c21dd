//! The server's held nodes: each nodeid with its file, its generation and its lookup count.
#![tactic(auto)]

mod list_rows;
mod node_rows;
mod node_store;
mod nodes_of;
mod places;
mod slab_rows;
mod stored_node;
mod too_many;

pub use list_rows::ListRows;
pub use node_rows::NodeRows;
pub use node_store::NodeStore;
pub use nodes_of::NodesOf;
pub use slab_rows::SlabRows;
use std::alloc::Global;
pub use stored_node::StoredNode;
pub use too_many::TooMany;

/// The table of the program, in a slab: no call scans the nodes but `nodes`.
pub type NodeTable<A = Global> = NodesOf<SlabRows<A>>;

/// The table in a plain list.
pub type ListNodes<A = Global> = NodesOf<ListRows<A>>;
