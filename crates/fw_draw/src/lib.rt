//! A script's run as a picture.
#![tactic(auto)]

mod calls;
mod draw;
mod label;
mod lanes;
mod layout;
mod link;
mod nodes;
mod picture;
mod row;
mod row_text;
mod run;
mod script;
mod svg;

pub use draw::draw_script;
pub use label::cut;
pub use svg::{print_svg, write_escaped};
