//! The kernel and the server, each by itself: the lines in which another program says its events, one after another.
#![tactic(auto)]

mod answer_text;
mod form;
mod input;
mod kernel_line;
mod kernel_process;
mod kernel_text;
mod nodes_text;
mod refusal_text;
mod server_line;
mod server_process;
mod server_text;
mod side;
mod words;

pub use form::Form;
pub use input::End;
pub use kernel_line::{KernelLine, read_kernel_line};
pub use kernel_process::run_kernel;
pub use server_line::{ServerLine, read_server_line};
pub use server_process::run_server;
