//! Numbers and names at a place in a frame, and the fields of which a frame consists.
#![tactic(auto)]

mod fields;

pub use fields::{i32_at, is_name, name_to_end, names_to_end, u32_at, u64_at};
