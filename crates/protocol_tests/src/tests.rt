//! Values from outside: the shapes as linux/fuse.h has them, frames of real sessions, and printed text.

mod agreements;
mod errors;
mod frames;
mod replies;
mod requests;
mod sessions;
