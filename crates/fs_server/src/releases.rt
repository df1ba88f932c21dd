//! RELEASEs that are done at once.

ghost use Rattle.std.specs.Prelude.{◌≡◌, ◌⊎◌, OnErr, MatchResult, IfOk};
ghost use Rattle.fuse_spec.specs.Values.Numbers.{ebadf};
ghost use Rattle.fs_server.specs.Releasing.{RefusesRelease, Releases};

use crate::server::{ServerFault, ServerOf};
use fk_wire::{Request, RequestBody};
use fs_nodes::NodeStore;
use fuse_spec::Opened;
use fuse_spec::limits::COUNTER_END;

impl<S: NodeStore> ServerOf<S> {
    /// Does a RELEASE under a unique at once, and gives the error of its reply, 0 or EBADF: what taking and performing
    /// it, and settling the copy of its reply, make of the server. It is for who serves, and sends the reply: Linux
    /// never sends a RELEASE again, so that none may fail for memory. No memory is taken. (this project's rule)
    ///
    /// # Errors
    ///
    /// The first of `UnknownNode` and `RepeatedUnique` that applies, or else `Exhausted` where no copy number is left;
    /// the server is as before.
    pub fn release(&mut self, unique: u64, opened: Opened) -> Result<u32, ServerFault>
        ensures refused { OnErr result (self.new ≡ self.old) }
        ensures effect { MatchResult result (λ errno. Releases self.old unique opened errno self.new)
            (RefusesRelease self.old unique opened) }
        ensures error { IfOk result (λ errno. (errno ≡ 0) ⊎ (errno ≡ ebadf)) }
    {
        let request = Request {
            unique,
            nodeid: opened.nodeid,
            body: RequestBody::Release { fh: opened.fh },
        };
        if let Some(fault) = self.request_fault(&request) {
            return Err(fault);
        }
        if !self.is_aborted && self.next_copy >= COUNTER_END {
            return Err(ServerFault::Exhausted);
        }
        let file = self.files.handle_file(opened.fh);
        let outcome = self.files.release(opened);
        self.files.discard_unheld(file);
        if !self.is_aborted {
            self.next_copy += 1;
        }
        Ok(outcome.errno())
    }
}
