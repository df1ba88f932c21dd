//! Envelopes on a stream of bytes: their spelling, and the cutting of a stream into them.
#![tactic(auto)]

mod carrier;
mod cutter;
mod envelope;
mod failing;
mod law;
mod link;
mod memory;
mod side;
mod stream;

pub use carrier::Carrier;
pub use cutter::{Cutter, Damage};
pub use envelope::{Envelope, LONGEST, put_envelope};
pub use failing::{FailingLink, FailsIn};
pub use law::cut_in_any_pieces;
pub use link::{Link, LinkFault, LinkInOrder};
pub use memory::MemoryLink;
pub use side::Side;
pub use stream::StreamLink;
