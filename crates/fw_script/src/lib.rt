//! Script lines as events, records as lines, and the runs of the program `fuseworld`.
#![tactic(auto)]

mod arguments;
mod call_line;
mod chunk;
mod fault_words;
mod form;
mod line;
mod lines;
mod machine;
mod number_lines;
mod print;
mod records;
mod script;

pub use fault_words::bad_line;
pub use fw_frames::run_frame;
pub use line::{Line, LineFault, read_line};
pub use lines::{Lines, is_passed_over};
pub use print::{name_of_refusal, number_of_refusal, word_of_effect, word_of_kind};
pub use records::write_record;
pub use script::{Script, run_lists, run_over, run_script};
