//! RELEASEs are served, for which no memory is taken.

ghost use Rattle.std.specs.Prelude.{◌≢◌, MatchOption};
ghost use Rattle.fk_wire.specs.declared.opcode.Opcode.TheVariants.{Release};
ghost use Rattle.fuse_frames.specs.RequestTies.{SaysRequest, asked_opcode};
ghost use Rattle.fuse_spec.specs.Kernel.Messages.{Request as AskedRequest, release};
ghost use Rattle.fs_serve.specs.Sending.{GoesOver, end_of};
ghost use Rattle.fs_serve.specs.Serving.{ServesFrame};

use crate::errors::send_error;
use crate::serving::{EIO, refuse};
use fk_wire::{RequestBody, read_request};
use fs_nodes::NodeStore;
use fs_server::{ServerFault, ServerOf};
use fuse_device::{Device, DeviceEnd};
use fuse_spec::Opened;

/// The unique of a RELEASE and the file handle that it names, if a frame is one.
pub(crate) fn release_in(frame: &[u8]) -> Option<(u64, Opened)>
    ensures { MatchOption result
        ((request : AskedRequest) → SaysRequest frame.now request → asked_opcode request.body ≢ Release)
        (λ asked. SaysRequest frame.now (record { unique = asked.0; body = release asked.1 })) }
{
    let Ok(request) = read_request(frame) else {
        return None;
    };
    match request.body {
        RequestBody::Release { fh } => {
            let nodeid = request.nodeid;
            Some((request.unique, Opened { nodeid, fh }))
        }
        _ => None,
    }
}

/// Does a RELEASE at once, and sends its reply. The reply carries nothing, so its result changes nothing.
pub(crate) fn serve_release<S: NodeStore, D: Device>(
    server: &mut ServerOf<S>,
    device: &mut D,
    frame: &[u8],
    unique: u64,
    opened: Opened,
) -> Result<(), DeviceEnd>
    requires { SaysRequest frame.now (record { unique = unique; body = release opened }) }
    ensures { GoesOver D.logs device.old device.new (end_of result)
        (λ log. ServesFrame server.old frame.now log server.new) }
{
    let is_aborted = server.is_aborted();
    match server.release(unique, opened) {
        Ok(errno) => {
            if is_aborted {
                return Ok(());
            }
            send_error(device, unique, -(errno as i32))
        }
        Err(fault) => match fault {
            ServerFault::Exhausted => send_error(device, unique, EIO),
            _ => refuse(server, device, frame, fault),
        },
    }
}
