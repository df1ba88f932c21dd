//! The command `serve`: the server before a kernel, or whoever speaks FUSE to it.

ghost use Rattle.std.specs.Prelude.{Contains};
ghost use Rattle.fuseworld.specs.ServeStatuses.{captured_statuses, serve_statuses, served_statuses};

use crate::judged::status_with;
use crate::reason::{cannot_write, no_socket};
use fuse_device::{Device, PacketDevice, StreamDevice};
use fuse_text::no_memory;
use fw_capture::CapturedDevice;
use fw_judged::JudgedDevice;
use fw_output::{LimitedWriter, room_in_file};
use fw_serve::{TracedDevice, WaitingReader, WaitingWriter, serve_device};
use fw_tasks::ServeTask;
use std::fs::File;
use std::io::{BufWriter, ErrorKind};
use std::os::fd::AsRawFd;
use std::os::unix::net::{UnixListener, UnixStream};
use std::{fs, io};

/// The descriptors of standard input and output.
const STANDARD_INPUT: i32 = 0;

const STANDARD_OUTPUT: i32 = 1;

/// Serves a device, judged where that is asked for, and gives the exit status.
fn serve_judged<D: Device + Drop>(rt: &HostRuntime, task: ServeTask<'_>, mut device: D) -> u8
    ensures { Contains (served_statuses task.entry.is_checked) result }
{
    let alloc = rt.alloc();
    let mut faults = rt.stderr();
    if !task.is_checked {
        return serve_device(alloc, task.mount, &mut device, &mut faults);
    }
    let mut judged = JudgedDevice::new(alloc, device, rt.stderr());
    let status = serve_device(alloc, task.mount, &mut judged, &mut faults);
    status_with(status, judged.faults())
}

/// Serves a device, with each frame printed where it is traced, and gives the exit status.
fn serve_over<D: Device + Drop>(rt: &HostRuntime, task: ServeTask<'_>, device: D) -> u8
    ensures { Contains (served_statuses task.entry.is_checked) result }
{
    if !task.is_traced {
        return serve_judged(rt, task, device);
    }
    match BufWriter::new(rt.alloc(), rt.stderr()) {
        Ok(out) => serve_judged(rt, task, TracedDevice::new(rt.alloc(), device, out)),
        Err(_) => no_memory(&mut rt.stderr()),
    }
}

/// Serves a device, with its capture written to a file if there is one, and gives the exit status. A write beyond the limit
/// on the size of files is refused as any other.
fn serve_captured<D: Device + Drop>(
    rt: &HostRuntime,
    task: ServeTask<'_>,
    file: Option<File>,
    device: D,
) -> u8
    ensures { Contains (served_statuses task.entry.is_checked) result }
{
    let Some(file) = file else {
        return serve_over(rt, task, device);
    };
    let room = room_in_file(file.as_raw_fd());
    let out = LimitedWriter::new(file, room);
    match CapturedDevice::new(rt.alloc(), device, out, rt.stderr()) {
        Ok(captured) => serve_over(rt, task, captured),
        Err(_) => no_memory(&mut rt.stderr()),
    }
}

/// Waits at a path for one connection.
fn connect(rt: &HostRuntime, path: &str) -> io::Result<StreamDevice<UnixStream, UnixStream>> {
    let listener = UnixListener::bind(rt, path)?;
    let accepted = listener.accept();
    fs::remove_file(rt, path)?;
    let (reader, _address) = accepted?;
    let writer = reader.try_clone()?;
    Ok(StreamDevice::new(reader, writer))
}

/// Serves on standard input and output, or on a socket, and gives the exit status. Standard input and output may be
/// descriptors that do not block.
fn serve_place(rt: &HostRuntime, task: ServeTask<'_>, file: Option<File>) -> u8
    ensures { Contains (served_statuses task.entry.is_checked) result }
{
    let Some(path) = task.socket else {
        let reader = WaitingReader::new(rt.reader(), STANDARD_INPUT);
        let writer = WaitingWriter::new(io::writer(rt), STANDARD_OUTPUT);
        return serve_captured(rt, task, file, PacketDevice::new(reader, writer));
    };
    match connect(rt, path) {
        Ok(device) => serve_captured(rt, task, file, device),
        Err(error) if error.kind() == ErrorKind::OutOfMemory => no_memory(&mut rt.stderr()),
        Err(error) => no_socket(rt, &error),
    }
}

/// Serves with a capture written to the file at a path, which is made anew before anything is served, and gives the exit
/// status.
fn serve_to_file(rt: &HostRuntime, task: ServeTask<'_>, path: &str) -> u8
    ensures { Contains (captured_statuses task.entry.is_checked) result }
{
    match File::create(rt, path) {
        Ok(file) => serve_place(rt, task, Some(file)),
        Err(error) if error.kind() == ErrorKind::OutOfMemory => no_memory(&mut rt.stderr()),
        Err(error) => cannot_write(rt, path, &error),
    }
}

/// Serves what the task names, and gives the exit status.
pub fn run_serve(rt: &HostRuntime, task: ServeTask<'_>) -> u8
    ensures { Contains (serve_statuses task.entry.capture task.entry.is_checked) result }
{
    match task.capture {
        Some(path) => serve_to_file(rt, task, path),
        None => serve_place(rt, task, None),
    }
}
