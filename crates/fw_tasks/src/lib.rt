//! What the words of the command line ask for.
#![tactic(auto)]

mod arguments;
mod check_words;
mod command;
mod draw_words;
mod drive_words;
mod frame_tasks;
mod serve_task;
mod serve_words;
mod side_words;
mod values;
mod version;

pub use check_words::CheckTask;
pub use command::{Task, is_memory, read_task};
pub use drive_words::{DriveTask, misfit};
pub use frame_tasks::FrameTask;
pub use serve_task::ServeTask;
pub use side_words::SideTask;
pub use version::VERSION;
