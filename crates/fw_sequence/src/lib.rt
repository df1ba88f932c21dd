//! The frames around a line of a capture as a picture.
#![tactic(auto)]

mod counts;
mod row;
mod rows;
mod sequence;
mod svg;

pub use sequence::draw_capture;
