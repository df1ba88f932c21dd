//! The frames of a kernel that drives a server: what servers expect in free fields, requests that are not the kernel's,
//! and frames of a server that are not for the kernel.
#![tactic(auto)]

mod agreement;
mod aside;
mod filling;
mod opendir_reply;
mod own_requests;

pub use agreement::{is_before_15, is_older_agreement, raised_to_15, raised_to_31};
pub use aside::{OtherFrame, other_frame_in};
pub use filling::{FreeFields, fill, fill_handle};
pub use opendir_reply::{
    OpendirSaid, has_opendir_unique, is_opendir_reply, is_under, node_listed, said_in,
};
pub use own_requests::{FIRST_OPENDIR_UNIQUE, OPENDIR_UNIQUES_END, opendir, releasedir};
