//! One kernel, one server and the links between them, moved by events.
#![tactic(auto)]

mod envelopes;
mod event;
mod kernel_alone;
mod laws;
mod links;
mod record;
mod runs;
mod session;
mod sides;
mod tables;
mod world;

pub use event::{Event, Outcome};
pub use fk_kernel::{Answer, Call, ListedName, ListedNames, Listing, Pick};
pub use fuse_spec::{Attributes, IntrEffect, Kind, Minor, Refusal, Taken, WriteResult};
pub use kernel_alone::act_alone;
pub use laws::lost_where_failed;
pub use record::Record;
pub use runs::run;
pub use session::{Session, SessionOf};
pub use sides::SidesOf;
pub use tables::{Lists, Maps, Tables};
pub use world::{ListWorld, ListWorldIn, World, WorldIn, WorldOf};
