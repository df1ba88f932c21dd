//! The check of a capture: who broke a rule of the FUSE protocol in a recorded session, and in which line.
//!
//! Each line of a capture is a transfer (`fuse_capture`), each transfer is judged after those before it (`fuse_judge`),
//! and each fault that is asked for is printed as soon as its transfer was read. Counts stand at the end. All is in words
//! or as JSON. `specs/` says what is printed.
#![tactic(auto)]

mod act_words;
mod asked;
mod check;
mod checker;
mod counts;
mod exchanges;
mod fault_line;
mod file_key;
mod form;
mod frame_lines;
mod heads;
mod held;
mod json;
mod life;
mod lines;
mod names;
mod number_in;
mod options;
mod past;
mod past_words;
mod percentile;
mod remains;
mod rows;
mod seen;
mod standing;
mod tallies;
mod text;
mod unjudged;
mod words;

pub use check::run_check;
pub use checker::print;
pub use frame_lines::put_frame_lines;
pub use fuse_text::OutputRefused;
pub use options::{CheckForm, CheckOptions};
pub use tallies::faults_after;
pub use unjudged::unjudged_words;
pub use words::{fault_words, party_word};
