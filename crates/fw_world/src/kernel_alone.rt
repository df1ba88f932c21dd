//! What the kernel does without its server.

ghost use Rattle.std.specs.Prelude.{◌≡◌, IfErr, IfOk, OnErr};
ghost use Rattle.fw_world.specs.Acts.{ActRefuses, Acts};

use crate::event::{Event, Outcome};
use fk_kernel::KernelOf;
use fk_lookup_count::CountTable;
use fk_queues::QueueTable;
use fuse_spec::{Purpose, Refusal};

/// An event happens to a kernel, without its server. Any other is refused as `NoSuch`.
///
/// # Errors
///
/// As the kernel refuses it. Nothing is then changed.
pub fn act_alone<Q: QueueTable<Purpose>, C: CountTable<Heap = Q::Heap>>(
    kernel: &mut KernelOf<Q, C>,
    event: &Event<'_>,
) -> Result<Outcome, Refusal>
    ensures does { IfOk result (λ outcome. Acts kernel.old event.now outcome kernel.new) }
    ensures refusal { IfErr result (ActRefuses kernel.old event.now) }
    ensures err { OnErr result (kernel.new ≡ kernel.old) }
{
    match *event {
        Event::Mount { .. } => {
            kernel.mount()?;
            Ok(Outcome::Mounted)
        }
        Event::Call(call) => {
            let call = kernel.begin(&call)?;
            Ok(Outcome::Begun { call })
        }
        Event::Interrupt { call, fatal } => {
            let effect = kernel.interrupt(call, fatal)?;
            Ok(Outcome::Interrupted { call, effect })
        }
        Event::Tick(ms) => {
            let clock = kernel.tick(ms)?;
            Ok(Outcome::Now { clock })
        }
        Event::DropName { directory, name } => {
            kernel.drop_binding(directory, name)?;
            Ok(Outcome::Dropped)
        }
        Event::Evict(node) => {
            let count = kernel.evict(node)?;
            Ok(Outcome::Evicted { node, count })
        }
        Event::Abort => {
            kernel.abort()?;
            Ok(Outcome::Aborted)
        }
        _ => Err(Refusal::NoSuch),
    }
}
