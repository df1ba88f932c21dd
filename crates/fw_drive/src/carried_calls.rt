//! Calls are carried to their answers.

ghost use Rattle.std.specs.Prelude.{All, IfErr};
ghost use Rattle.fw_drive.specs.LineMoves.{Carries, FirstThen, IsCarriedBy, IsMoveOf, mount_line};
ghost use Rattle.fw_drive.specs.Runs.{Goes, IsOwnStop};

use crate::driver::Driver;
use crate::exchange::{Moved, act, receive, send};
use crate::form::Form;
use crate::notes::Notes;
use crate::stop::Stop;
use fuse_device::Device;
use fw_world::{Event, Minor, Pick, Refusal, Tables};
use std::io::Write;

/// Whether what the kernel said of a frame ended a request.
fn is_ended(received: Moved, unique: u64) -> Result<bool, Stop>
    ensures own { IfErr result IsOwnStop }
{
    match received {
        Ok(ended) => Ok(ended == Some(unique)),
        Err(refusal) => Err(Stop::Refused(refusal)),
    }
}

/// A frame is received. Says whether it ended a request.
fn receive_toward<T: Tables, D: Device, W: Write>(
    driver: &mut Driver<T>,
    device: &mut D,
    notes: &mut Notes<T>,
    form: Form,
    unique: u64,
    out: &mut W,
) -> Result<bool, Stop>
    ensures { Goes T.Heap D.logs form device.old device.new
        (W.contents out.old, notes.old.is_wrong) (W.contents out.new, notes.new.is_wrong)
        driver.old driver.new result (All Carries) }
{
    match receive(driver, device, notes, form, out) {
        Ok(received) => is_ended(received, unique),
        Err(stop) => Err(stop),
    }
}

/// Frames are received until the reply to a request.
fn await_reply<T: Tables, D: Device, W: Write>(
    driver: &mut Driver<T>,
    device: &mut D,
    notes: &mut Notes<T>,
    form: Form,
    unique: u64,
    out: &mut W,
) -> Result<bool, Stop>
    ensures { Goes T.Heap D.logs form device.old device.new
        (W.contents out.old, notes.old.is_wrong) (W.contents out.new, notes.new.is_wrong)
        driver.old driver.new result (All Carries) }
{
    for _frame in 0..u64::MAX {
        match receive_toward(driver, device, notes, form, unique, out) {
            Ok(true) => return Ok(true),
            Ok(false) => {}
            Err(stop) => return Err(stop),
        }
    }
    Ok(true)
}

/// Whether a request was sent that has no reply. There is none where the kernel has no such request, or no mount.
fn is_sent(sent: Moved) -> Result<bool, Stop>
    ensures own { IfErr result IsOwnStop }
{
    match sent {
        Ok(_) => Ok(true),
        Err(Refusal::NoSuch | Refusal::NotReady) => Ok(false),
        Err(refusal) => Err(Stop::Refused(refusal)),
    }
}

/// A request is sent, and its reply received. Says whether there was one.
fn carry_one<T: Tables, D: Device, W: Write>(
    driver: &mut Driver<T>,
    device: &mut D,
    notes: &mut Notes<T>,
    form: Form,
    pick: Pick,
    out: &mut W,
) -> Result<bool, Stop>
    requires { IsCarriedBy pick }
    ensures { Goes T.Heap D.logs form device.old device.new
        (W.contents out.old, notes.old.is_wrong) (W.contents out.new, notes.new.is_wrong)
        driver.old driver.new result (All Carries) }
{
    match send(driver, device, notes, form, pick, out) {
        Ok(Ok(Some(unique))) => await_reply(driver, device, notes, form, unique, out),
        Ok(sent) => is_sent(sent),
        Err(stop) => Err(stop),
    }
}

/// All requests of one kind are sent, the oldest first, each once the one before is answered.
fn carry_all<T: Tables, D: Device, W: Write>(
    driver: &mut Driver<T>,
    device: &mut D,
    notes: &mut Notes<T>,
    form: Form,
    pick: Pick,
    out: &mut W,
) -> Result<(), Stop>
    requires { IsCarriedBy pick }
    ensures { Goes T.Heap D.logs form device.old device.new
        (W.contents out.old, notes.old.is_wrong) (W.contents out.new, notes.new.is_wrong)
        driver.old driver.new result (All Carries) }
{
    for _request in 0..u64::MAX {
        match carry_one(driver, device, notes, form, pick, out) {
            Ok(true) => {}
            Ok(false) => return Ok(()),
            Err(stop) => return Err(stop),
        }
    }
    Ok(())
}

/// All that waits is sent, the oldest request first, and then forgets.
pub(crate) fn carry<T: Tables, D: Device, W: Write>(
    driver: &mut Driver<T>,
    device: &mut D,
    notes: &mut Notes<T>,
    form: Form,
    out: &mut W,
) -> Result<(), Stop>
    ensures { Goes T.Heap D.logs form device.old device.new
        (W.contents out.old, notes.old.is_wrong) (W.contents out.new, notes.new.is_wrong)
        driver.old driver.new result (All Carries) }
{
    match carry_all(driver, device, notes, form, Pick::Pending(0), out) {
        Ok(()) => carry_all(driver, device, notes, form, Pick::Forgets(1), out),
        Err(stop) => Err(stop),
    }
}

/// The kernel mounts, and INIT is answered.
pub(crate) fn mount<T: Tables, D: Device, W: Write>(
    driver: &mut Driver<T>,
    device: &mut D,
    notes: &mut Notes<T>,
    form: Form,
    out: &mut W,
) -> Result<(), Stop>
    ensures { Goes T.Heap D.logs form device.old device.new
        (W.contents out.old, notes.old.is_wrong) (W.contents out.new, notes.new.is_wrong)
        driver.old driver.new result
        (FirstThen (IsMoveOf mount_line) Carries) }
{
    let event = Event::Mount {
        found_ms: 0,
        missing_ms: 0,
        minor: Minor::M31,
    };
    match act(driver, notes, &event, out) {
        Ok(()) => carry(driver, device, notes, form, out),
        Err(stop) => Err(stop),
    }
}
