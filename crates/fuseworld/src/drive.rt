//! The command `drive`: the kernel before a server that somebody else wrote.

ghost use Rattle.std.specs.Prelude.{◌↔◌, ◌∷◌, [], Contains, IsTrue, ◌≡◌, IfErr, false, true};
ghost use Rattle.fuseworld.specs.ServeStatuses.{drive_statuses};
ghost use Rattle.fw_tasks.specs.DriveWords.{go_together};
ghost use Rattle.fw_tasks.specs.Values.{IsOffer};

use crate::judged::status_beside;
use crate::orders::print_orders_of;
use crate::output::standard_output;
use crate::reason::{cannot_open, cannot_write, no_socket};
use crate::saying::SayingWriter;
use crate::timed_socket::{Deadline, connect};
use fuse_device::{Device, PacketDevice, StreamDevice};
use fuse_text::no_memory;
use fw_call_names::{NamedLines, plain_script};
use fw_drive::{
    DriveTrace, FreeFields, InputLines, Task, judge_script, read_script, run_drive, run_source,
};
use fw_expand::{ExpandedLines, expandable_script};
use fw_json::JsonLines;
use fw_judged::JudgedServer;
use fw_output::{LimitedWriter, room_in_file};
use fw_random::{Choice, Commented, RandomLines};
use fw_tasks::{DriveTask, misfit};
use std::alloc::Global;
use std::fs::File;
use std::io;
use std::io::{BufRead, BufReader, BufWriter, ErrorKind, Read, Write};
use std::os::fd::AsRawFd;

/// FUSE_DONT_MASK (linux/fuse.h), which is always offered.
const DONT_MASK: u32 = 0x40;

/// O_RDWR with O_LARGEFILE, of open(2).
const OPEN_FLAGS: u32 = 0x8002;

/// Whether the text is 1 to 8 lower-case hex digits.
fn is_offer(text: &[u8]) -> bool
    ensures { IsTrue result ↔ IsOffer text.now }
{
    !text.is_empty()
        && text.len() <= 8
        && text.iter().all(|byte| {
            (*byte >= b'0' && *byte <= b'9') || (*byte >= b'a' && *byte <= b'f')
        })
}

/// The value of a hex digit.
fn digit(byte: u8) -> u32 {
    match byte {
        b'0'..=b'9' => u32::from(byte - b'0'),
        b'a'..=b'f' => u32::from(byte - b'a') + 10,
        _ => 0,
    }
}

/// The number of up to 8 hex digits.
fn hex_number(text: &[u8]) -> u32 {
    let mut number: u32 = 0;
    for byte in text {
        number = number.wrapping_mul(16) | digit(*byte);
    }
    number
}

/// Where the lines come from.
#[derive(Clone, Copy)]
enum Lines<'a> {
    /// A script whose lines are good.
    Script(&'a [u8]),
    /// The same of a script in which calls have names, or lines stand for several.
    Short(&'a [u8]),
    /// Standard input, a line at a time.
    Input,
    /// What a seed chooses.
    Random(Choice),
}

/// Runs lines in which calls may have names, and which may stand for several, on a device, each once the one before was run,
/// and gives the exit status. Names go first, so that a line with one may stand for several too.
fn drive_short<D: Device, R: BufRead + Drop, W: Write, F: Write>(
    rt: &HostRuntime,
    task: Task<'_>,
    device: &mut D,
    input: R,
    out: &mut W,
    faults: &mut F,
) -> u8
    ensures { Contains drive_statuses result }
{
    let alloc = rt.alloc();
    let named = NamedLines::new(alloc, InputLines::new(input));
    let mut lines = ExpandedLines::new(alloc, task.form, named);
    run_source(alloc, task, device, &mut lines, out, faults)
}

/// Runs the lines of standard input on a device, and gives the exit status.
fn drive_input<D: Device, W: Write, F: Write>(
    rt: &HostRuntime,
    task: Task<'_>,
    device: &mut D,
    out: &mut W,
    faults: &mut F,
) -> u8
    ensures { Contains drive_statuses result }
{
    match BufReader::new(rt.alloc(), rt.reader()) {
        Ok(input) => drive_short(rt, task, device, input, out, faults),
        Err(_) => no_memory(faults),
    }
}

/// Runs lines that a seed chooses on a device, with all else that is printed as comments, and gives the exit status. Notes
/// whether an answer is another than in the world beside.
fn drive_random<D: Device, W: Write + Drop, F: Write>(
    rt: &HostRuntime,
    task: Task<'_>,
    choice: Choice,
    device: &mut D,
    out: W,
    faults: &mut F,
    differs: &mut bool,
) -> u8
    ensures { Contains drive_statuses result }
{
    let alloc = rt.alloc();
    let mut out = Commented::new(alloc, out);
    let Ok(mut lines) = RandomLines::new(alloc, choice) else {
        return no_memory(faults);
    };
    let status = run_source(alloc, task, device, &mut lines, &mut out, faults);
    *differs = lines.has_difference();
    lines.end();
    status
}

/// Runs lines on a device, with what they come to printed on a writer, and gives the exit status. Notes whether an answer to a
/// chosen call is another than in the world beside.
fn drive_device<D: Device, W: Write + Drop>(
    rt: &HostRuntime,
    task: Task<'_>,
    lines: Lines<'_>,
    device: &mut D,
    out: W,
    differs: &mut bool,
) -> u8
    ensures { Contains drive_statuses result }
{
    let alloc = rt.alloc();
    let mut faults = rt.stderr();
    let Ok(mut out) = BufWriter::new(alloc, out) else {
        return no_memory(&mut faults);
    };
    match lines {
        Lines::Script(script) => {
            let mut input = script;
            run_drive(alloc, task, device, &mut input, &mut out, &mut faults)
        }
        Lines::Short(script) => drive_short(rt, task, device, script, &mut out, &mut faults),
        Lines::Input => drive_input(rt, task, device, &mut out, &mut faults),
        Lines::Random(choice) => {
            drive_random(rt, task, choice, device, out, &mut faults, differs)
        }
    }
}

/// Drives a server over a device, judged where that is asked for, with its faults printed on a second writer.
fn drive_judged<D: Device + Drop, W: Write + Drop, F: Write + Drop>(
    rt: &HostRuntime,
    asked: DriveTask<'_>,
    task: Task<'_>,
    script: Lines<'_>,
    mut device: D,
    out: W,
    lines: F,
) -> u8
    ensures { Contains drive_statuses result }
{
    let mut differs = false;
    if !asked.is_checked {
        return drive_device(rt, task, script, &mut device, out, &mut differs);
    }
    let mut judged = JudgedServer::new(rt.alloc(), device, lines);
    if asked.opens_directories {
        judged.say_several_readers();
    }
    let status = drive_device(rt, task, script, &mut judged, out, &mut differs);
    if asked.is_report_only {
        return status;
    }
    status_beside(status, judged.faults(), differs)
}

/// Drives a server over a device, with each frame printed on standard error where it is traced.
fn drive_over<D: Device + Drop, W: Write + Drop, F: Write + Drop>(
    rt: &HostRuntime,
    asked: DriveTask<'_>,
    task: Task<'_>,
    script: Lines<'_>,
    device: D,
    out: W,
    lines: F,
) -> u8
    ensures { Contains drive_statuses result }
{
    if !asked.is_traced {
        return drive_judged(rt, asked, task, script, device, out, lines);
    }
    let traced = DriveTrace::new(rt.alloc(), device, rt.stderr());
    drive_judged(rt, asked, task, script, traced, out, lines)
}

/// Drives a server over a device, with its capture written to a file if there is one. A write beyond the limit on the size of
/// files is refused as any other.
fn drive_captured<D: Device + Drop, W: Write + Drop, F: Write + Drop>(
    rt: &HostRuntime,
    asked: DriveTask<'_>,
    task: Task<'_>,
    script: Lines<'_>,
    file: Option<File>,
    device: D,
    out: W,
    lines: F,
) -> u8
    ensures { Contains drive_statuses result }
{
    let Some(file) = file else {
        return drive_over(rt, asked, task, script, device, out, lines);
    };
    let room = room_in_file(file.as_raw_fd());
    let written = SayingWriter::new(LimitedWriter::new(file, room), rt.stderr());
    let mut captured = JudgedServer::capturing(rt.alloc(), device, written);
    if asked.opens_directories {
        captured.say_several_readers();
    }
    drive_over(rt, asked, task, script, captured, out, lines)
}

/// The socket: with `--random` the first place names it, where that is not `-`.
fn socket_of(asked: DriveTask<'_>) -> Option<&'_ str> {
    match asked.socket {
        None if asked.is_random && asked.file != "-" => Some(asked.file),
        socket => socket,
    }
}

/// Drives a server over a device. What the judge says of lines that are chosen goes among them as comments, so that what is
/// printed stays a script.
fn drive_said<D: Device + Drop, W: Write + Drop, F: Write + Drop>(
    rt: &HostRuntime,
    asked: DriveTask<'_>,
    task: Task<'_>,
    script: Lines<'_>,
    file: Option<File>,
    device: D,
    out: W,
    lines: F,
) -> u8
    ensures { Contains drive_statuses result }
{
    if asked.is_random {
        let lines = Commented::new(rt.alloc(), lines);
        return drive_captured(rt, asked, task, script, file, device, out, lines);
    }
    drive_captured(rt, asked, task, script, file, device, out, lines)
}

/// Drives a server over a device, with a JSON object for each line where that is asked for.
fn drive_printed<D: Device + Drop, W: Write + Drop, F: Write + Drop>(
    rt: &HostRuntime,
    asked: DriveTask<'_>,
    task: Task<'_>,
    script: Lines<'_>,
    file: Option<File>,
    device: D,
    out: W,
    lines: F,
) -> u8
    ensures { Contains drive_statuses result }
{
    if !asked.is_json {
        return drive_said(rt, asked, task, script, file, device, out, lines);
    }
    let out = JsonLines::new(rt.alloc(), out);
    let lines = JsonLines::new(rt.alloc(), lines);
    drive_said(rt, asked, task, script, file, device, out, lines)
}

/// Drives the server on standard input and output, or on a socket, and gives the exit status.
fn drive_place(
    rt: &HostRuntime,
    asked: DriveTask<'_>,
    task: Task<'_>,
    script: Lines<'_>,
    file: Option<File>,
) -> u8
    ensures { Contains drive_statuses result }
{
    let Some(path) = socket_of(asked) else {
        let device = PacketDevice::giving_up(rt.reader(), io::writer(rt));
        let (out, lines) = (rt.stderr(), rt.stderr());
        return drive_printed(rt, asked, task, script, file, device, out, lines);
    };
    let deadline = Deadline::new(rt, asked.wait_ms);
    match connect(&deadline, path) {
        Ok((reader, writer)) => {
            let device = StreamDevice::of_replies(reader, writer);
            let (out, lines) = (standard_output(rt), standard_output(rt));
            let status = drive_printed(rt, asked, task, script, file, device, out, lines);
            if status == 4 {
                deadline.explain();
            }
            status
        }
        Err(error) if error.kind() == ErrorKind::OutOfMemory => no_memory(&mut rt.stderr()),
        Err(error) => no_socket(rt, &error),
    }
}

/// A script whose lines are good.
#[derive(Drop)]
struct GoodScript {
    text: Vec<u8>,
    /// Whether calls have names in it, or lines stand for several.
    is_short: bool,
}

/// A text that was made of another, or else that.
fn made_or<'a>(made: &'a Option<Vec<u8>>, text: &'a [u8]) -> &'a [u8] {
    match made {
        Some(made) => made.as_slice(),
        None => text,
    }
}

/// A script, once its lines were judged: by those of the plain script where calls have names in it, and by one line for
/// each that stands for several.
fn judged<F: Write>(
    alloc: Global,
    task: Task<'_>,
    text: Vec<u8>,
    plain: Option<Vec<u8>>,
    faults: &mut F,
) -> Result<GoodScript, u8>
    ensures { IfErr result (Contains (1 ∷ 3 ∷ [])) }
{
    let lines = made_or(&plain, text.as_slice());
    let Ok(single) = expandable_script(alloc, task.form, lines) else {
        return Err(no_memory(faults));
    };
    match judge_script(task, made_or(&single, lines), faults) {
        Ok(()) => Ok(GoodScript {
            is_short: plain.is_some() || single.is_some(),
            text,
        }),
        Err(status) => Err(status),
    }
}

/// A script whose lines are good; or the exit status, once it is said why it is not run.
fn good_script<R: Read, F: Write>(
    alloc: Global,
    task: Task<'_>,
    input: &mut R,
    faults: &mut F,
) -> Result<GoodScript, u8>
    ensures { IfErr result (Contains (1 ∷ 3 ∷ [])) }
{
    let text = match read_script(alloc, task, input, faults) {
        Ok(text) => text,
        Err(status) => return Err(status),
    };
    match plain_script(alloc, text.as_slice()) {
        Ok(plain) => judged(alloc, task, text, plain, faults),
        Err(_) => Err(no_memory(faults)),
    }
}

/// The script, whose lines are good, before anything is connected; or the exit status, once it is said why it is not run.
fn script_of(rt: &HostRuntime, task: Task<'_>) -> Result<GoodScript, u8>
    ensures { IfErr result (Contains (1 ∷ 3 ∷ [])) }
{
    let mut faults = rt.stderr();
    match File::open(rt, task.name) {
        Ok(mut input) => good_script(rt.alloc(), task, &mut input, &mut faults),
        Err(error) if error.kind() == ErrorKind::OutOfMemory => Err(no_memory(&mut faults)),
        Err(error) => Err(cannot_open(rt, task.name, &error)),
    }
}

/// Drives a server with a capture written to the file at a path, which is made anew before anything is connected.
fn drive_to_file(
    rt: &HostRuntime,
    asked: DriveTask<'_>,
    task: Task<'_>,
    script: Lines<'_>,
    path: &str,
) -> u8
    ensures { Contains drive_statuses result }
{
    match File::create(rt, path) {
        Ok(file) => drive_place(rt, asked, task, script, Some(file)),
        Err(error) if error.kind() == ErrorKind::OutOfMemory => no_memory(&mut rt.stderr()),
        Err(error) => cannot_write(rt, path, &error),
    }
}

/// How lines are chosen.
fn choice_of(asked: DriveTask<'_>) -> Choice
    ensures { (result.seed ≡ asked.entry.seed) × (result.events ≡ asked.entry.events)
        × (result.is_any ≡ asked.entry.is_any) × (result.is_quick ≡ asked.entry.is_quick) }
{
    Choice {
        seed: asked.seed,
        events: asked.events,
        is_any: asked.is_any,
        is_quick: asked.is_quick,
    }
}

/// Drives a server by the lines of a script, with a capture where one is asked for, and gives the exit status.
fn drive_lines(rt: &HostRuntime, asked: DriveTask<'_>, task: Task<'_>, script: Lines<'_>) -> u8
    ensures { Contains drive_statuses result }
{
    match asked.capture {
        Some(path) => drive_to_file(rt, asked, task, script, path),
        None => drive_place(rt, asked, task, script, None),
    }
}

/// Drives a server by a script, and gives the exit status. With SOCK the script `-` is standard input, a line at a time.
fn drive_task_of(rt: &HostRuntime, asked: DriveTask<'_>, task: Task<'_>) -> u8
    ensures { Contains drive_statuses result }
{
    if asked.is_random {
        return drive_lines(rt, asked, task, Lines::Random(choice_of(asked)));
    }
    if asked.file == "-" && asked.socket.is_some() {
        return drive_lines(rt, asked, task, Lines::Input);
    }
    match script_of(rt, task) {
        Ok(script) if script.is_short => {
            drive_lines(rt, asked, task, Lines::Short(script.text.as_slice()))
        }
        Ok(script) => drive_lines(rt, asked, task, Lines::Script(script.text.as_slice())),
        Err(status) => status,
    }
}

/// Drives a server, and gives the exit status; 2 where words do not go together.
pub fn run_drive_task(rt: &HostRuntime, asked: DriveTask<'_>) -> u8
    ensures statuses { IsOffer asked.entry.offer.now → go_together asked.entry ≡ true → Contains drive_statuses result }
    ensures refused { ¬ IsOffer asked.entry.offer.now → result ≡ 2 }
    ensures misfits { go_together asked.entry ≡ false → result ≡ 2 }
{
    if !is_offer(asked.offer.as_bytes()) {
        let _ = eprintln!(rt; "error: --offer takes 1 to 8 lower-case hex digits");
        return 2;
    }
    if let Some(why) = misfit(asked) {
        let _ = eprintln!(rt; "error: {why}");
        return 2;
    }
    if asked.is_orders {
        return print_orders_of(rt, asked);
    }
    let task = Task {
        name: asked.file,
        form: asked.form,
        opens_directories: asked.opens_directories,
        free_fields: FreeFields {
            open_flags: OPEN_FLAGS,
            offer: hex_number(asked.offer.as_bytes()) | DONT_MASK,
        },
        is_report_only: asked.is_report_only,
    };
    drive_task_of(rt, asked, task)
}
