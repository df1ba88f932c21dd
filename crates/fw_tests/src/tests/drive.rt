//! What no clause says: what is printed, the exit statuses, and frames from outside.

mod calls;
mod driven;
mod events;
mod frames;
