//! What a kernel, a server and a device must not do in a FUSE session, said over the session alone.
//!
//! A session is what went over the device, in the device's order. Each transfer is a few acts, one after another, and an
//! act has at most one fault. `specs/` says which: as sums over the acts before it and as what stands somewhere among
//! them, never as tables.
#![tactic(auto)]

pub mod act;
pub mod counterexamples;
pub mod fault;
pub mod faultless;
pub mod known;
pub mod transfer;

pub use act::{Act, Asked, File, Fit, OpenFile, OpenKind, Taken};
pub use counterexamples::a_release_may_stand_beside_a_use;
pub use fault::{Fault, Party};
pub use faultless::faultless_sessions;
pub use known::Known;
pub use transfer::Transfer;
