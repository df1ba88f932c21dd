//! Tables kept in the order of their keys, with room that is made before it is used, what stands at a place of a queue,
//! and the keys of ordered maps.
#![tactic(auto)]

mod late;
mod list;
mod listed;
mod live_rows;
mod name_front;
mod name_key;
mod number_key;
mod queue;
mod rising;
mod rows_by_key;
mod table;
mod tally;

pub use name_key::{LentName, NameKey};
pub use number_key::NumberKey;
pub use queue::{last, take_at};
pub use rising::RisingTable;
pub use rows_by_key::find_row;
pub use table::Table;
pub use tally::Tally;
