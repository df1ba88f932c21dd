//! A script that drives a server that somebody else wrote, by the proved kernel.
#![tactic(auto)]

mod alike;
mod asked;
mod beside;
mod carried_calls;
mod difference_words;
mod driver;
mod exchange;
mod fault;
mod fault_words;
mod form;
mod given;
mod halt;
mod input;
mod line;
mod lines;
mod notes;
mod parts;
mod place;
mod printing;
mod request_words;
mod run;
mod script;
mod sizes;
mod source;
mod sourced;
mod stop;
mod trace;
mod view;
mod watch;

pub use fk_drive::FreeFields;
pub use form::Form;
pub use input::InputLines;
pub use run::{Task, judge_script, read_script, run_drive};
pub use source::{LineSource, NoLine, Standing};
pub use sourced::run_source;
pub use trace::DriveTrace;
pub use view::KernelView;
