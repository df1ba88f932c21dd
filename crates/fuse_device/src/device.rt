//! What a device owes to those who talk over it.

ghost use Rattle.std.specs.Prelude.{◌≤◌, ◌++◌, ◌∷◌, [], List, length, take, IfOk, IfErr};
ghost use Rattle.fuse_device.specs.Transfers.{Transfer, received, sent, stopped, unsent};

use fuse_spec::WriteResult;
use thiserror::Error;

/// Why a device gives and takes no more frames.
#[derive(Clone, Copy, Debug, PartialEq, Eq, Error)]
pub enum DeviceEnd {
    /// The other side ended: it is unmounted, or closed.
    #[error("the other side ended")]
    Ended,
    /// No frame came in the time for which one is waited.
    #[error("no frame came in time")]
    TimedOut,
    #[error("the device failed")]
    Failed,
}

/// What frames go over: /dev/fuse, a socket, or a list in memory.
///
/// What went over it is said between two of its states, as a device keeps no record of its frames.
pub trait Device {
    // From the one state to the other this went over the device, in turn, and nothing else.
    ghost logs: { (old new : Self) → List Transfer → Type 0 };

    /// Receives one frame into the front of the room, and says how many bytes it has. A call that the system asks to
    /// try again is tried again here, but for a device that times out where no frame comes in time.
    ///
    /// # Errors
    ///
    /// Where the other side ended, where the device failed, or where the frame has no room.
    fn receive(&mut self, room: &mut [u8]) -> Result<usize, DeviceEnd>
        ensures within { IfOk result (λ n. n ≤ length room.new) }
        ensures frame { IfOk result (λ n. logs self.old self.new (received (take n room.new) ∷ [])) }
        ensures end { IfErr result (λ end. logs self.old self.new (stopped end ∷ [])) };

    /// Sends one frame, and says whether the other side accepted it, or refused it with ENOENT or EINVAL
    /// (linux/fs/fuse/dev.c: ENOENT where nothing awaits it, EINVAL where it is no reply).
    ///
    /// # Errors
    ///
    /// Where the other side ended, or the device failed. Whether the frame arrived is then not known.
    fn send(&mut self, frame: &[u8]) -> Result<WriteResult, DeviceEnd>
        ensures result { IfOk result (λ w. logs self.old self.new (sent frame.now w ∷ [])) }
        ensures end { IfErr result (λ end. logs self.old self.new (unsent frame.now end ∷ [])) };

    ghost stays: { (device : Self) → logs device device [] };

    ghost goes_on: { (first mid last : Self) (h k : List Transfer) →
        logs first mid h → logs mid last k → logs first last (h ++ k) };
}
