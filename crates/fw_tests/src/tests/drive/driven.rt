//! A driven list of frames, and what came of it.

use fuse_device::ListDevice;
use fw_drive::{Form, FreeFields, Task, run_drive};
use std::alloc::{AllocError, Global};
use std::test::Fail;

/// What a run printed, its exit status, and the bytes that were sent.
#[derive(Drop)]
pub struct Driven {
    pub status: u8,
    pub out: Vec<u8>,
    pub faults: Vec<u8>,
    pub sent: Vec<u8>,
}

/// A task with a script of this form, with OPENDIR, and with FUSE_DONT_MASK offered.
fn task(form: Form) -> Task<'static> {
    Task {
        name: "a script",
        form,
        opens_directories: true,
        free_fields: FreeFields {
            open_flags: 0x8002,
            offer: 0x40,
        },
        is_report_only: false,
    }
}

/// Runs a script on a device.
fn run_on(alloc: Global, form: Form, script: &str, device: &mut ListDevice<'_>) -> Driven {
    let mut input = script.as_bytes();
    let mut out = Vec::new(alloc);
    let mut faults = Vec::new(alloc);
    let status = run_drive(alloc, task(form), device, &mut input, &mut out, &mut faults);
    Driven {
        status,
        out,
        faults,
        sent: Vec::new(alloc),
    }
}

/// Frames of hex, in bytes.
fn in_bytes(alloc: Global, frames: &[&str]) -> Result<Vec<Vec<u8>>, Fail> {
    let mut bytes = Vec::new(alloc);
    for frame in frames {
        bytes.push(hex::decode(alloc, *frame)?)?;
    }
    Ok(bytes)
}

/// Lends frames.
fn lent<'a>(alloc: Global, frames: &'a [Vec<u8>]) -> Result<Vec<&'a [u8]>, AllocError> {
    let mut slices = Vec::new(alloc);
    for frame in frames {
        slices.push(frame.as_slice())?;
    }
    Ok(slices)
}

/// Runs a script before a server that sends these frames, in hex, and then ends.
pub fn drive(alloc: Global, form: Form, script: &str, frames: &[&str]) -> Result<Driven, Fail> {
    let bytes = in_bytes(alloc, frames)?;
    let slices = lent(alloc, bytes.as_slice())?;
    let mut device = ListDevice::new(alloc, slices.as_slice());
    let mut driven = run_on(alloc, form, script, &mut device);
    driven.sent.extend_from_slice(device.sent())?;
    Ok(driven)
}

/// The bytes of frames in hex, one after another.
pub fn joined(alloc: Global, frames: &[&str]) -> Result<Vec<u8>, Fail> {
    let mut bytes = Vec::new(alloc);
    for frame in frames {
        let frame = hex::decode(alloc, *frame)?;
        bytes.extend_from_slice(frame.as_slice())?;
    }
    Ok(bytes)
}
