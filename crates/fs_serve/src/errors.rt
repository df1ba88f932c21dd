//! Error replies that are not the server's: to faulty frames, and where memory or numbers run out.

ghost use Rattle.std.specs.Prelude.{◌≡◌};
ghost use Rattle.fk_wire.specs.Replies.{IsErrorNumber};
ghost use Rattle.fs_serve.specs.Sending.{GoesOver, SendsBytes, SendsError, SendsFault, end_of};

use fk_wire::frame_of_error;
use fs_nodes::NodeStore;
use fs_server::{ServerFault, ServerOf};
use fuse_device::{Device, DeviceEnd};

/// Sends a frame whose result settles nothing.
fn send_bytes<D: Device>(device: &mut D, bytes: &[u8]) -> Result<(), DeviceEnd>
    ensures { GoesOver D.logs device.old device.new (end_of result) (SendsBytes bytes.now) }
{
    match device.send(bytes) {
        Ok(_result) => Ok(()),
        Err(end) => Err(end),
    }
}

/// Sends an error reply under a unique.
pub(crate) fn send_error<D: Device>(
    device: &mut D,
    unique: u64,
    error: i32,
) -> Result<(), DeviceEnd>
    requires { IsErrorNumber error }
    ensures { GoesOver D.logs device.old device.new (end_of result) (SendsError unique error) }
{
    send_bytes(device, &frame_of_error(unique, error))
}

/// Sends the reply to a faulty frame, if it has one.
pub(crate) fn send_fault<S: NodeStore, D: Device>(
    server: &ServerOf<S>,
    device: &mut D,
    frame: &[u8],
    fault: ServerFault,
) -> Result<(), DeviceEnd>
    ensures { GoesOver D.logs device.old device.new (end_of result) (SendsFault server.now.minor frame.now fault) }
{
    match server.fault_reply(frame, fault) {
        Some(reply) => send_bytes(device, &reply),
        None => Ok(()),
    }
}
