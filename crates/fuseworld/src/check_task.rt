//! The command `check`, once its words are read.

ghost use Rattle.std.specs.Prelude.{◌≡◌, Contains};
ghost use Rattle.fuseworld.specs.Statuses.{check_statuses};
ghost use Rattle.fw_tasks.specs.Tasks as words;

use crate::capture::{CaptureTask, run_capture};
use fuse_sessions::Party;
use fw_check::{CheckForm, CheckOptions};
use fw_tasks::CheckTask;

/// The node that is asked for.
fn node_of(number: u64) -> Option<u64>
    ensures { result ≡ words.node_of number }
{
    if number == 0 { None } else { Some(number) }
}

/// The form of what is printed; `None` where a node's life is asked for in JSON, or beside the table.
fn form_of(json: bool, summary: bool, node: Option<u64>) -> Option<CheckForm>
    ensures { result ≡ words.check_form_of json summary node }
{
    match (json, summary, node) {
        (false, false, _) => Some(CheckForm::Words),
        (_, _, Some(_)) => None,
        (true, _, None) => Some(CheckForm::Json),
        (false, true, None) => Some(CheckForm::Words),
    }
}

/// What is asked of the check; `None` where two parties alone are, or a node's life in JSON or beside the table.
fn options_of(task: CheckTask<'_>) -> Option<CheckOptions>
    ensures { result ≡ words.options_of task.entry }
{
    let only = match (task.server, task.kernel) {
        (true, true) => return None,
        (true, false) => Some(Party::Server),
        (false, true) => Some(Party::Kernel),
        (false, false) => None,
    };
    let node = node_of(task.node);
    let form = form_of(task.json, task.summary, node)?;
    Some(CheckOptions {
        only,
        form,
        node,
        is_summary: task.summary,
        is_strict: task.strict,
        is_joined: task.joined,
    })
}

/// Which options exclude each other, where they do.
fn excluded(task: CheckTask<'_>) -> &'static str {
    if task.server && task.kernel {
        "--server and --kernel"
    } else if task.json {
        "--json and --node"
    } else {
        "--summary and --node"
    }
}

/// Judges a capture, and gives the exit status.
pub fn run_check_task(rt: &HostRuntime, task: CheckTask<'_>) -> u8
    ensures { Contains (check_statuses task.entry) result }
{
    match options_of(task) {
        Some(options) => run_capture(rt, CaptureTask::Check(options), task.file),
        None => {
            let pair = excluded(task);
            let _ = eprintln!(rt; "error: {pair} exclude each other");
            2
        }
    }
}
