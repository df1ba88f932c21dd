//! How answers are collected.

ghost use Rattle.std.specs.Prelude.{◌≡◌, option_map, slice_get, IfNone, IfSome};
ghost use Rattle.fuse_spec.specs.Values.Maps.{remove};
ghost use Rattle.fk_syscalls.specs.Values.{answer_of};

use crate::kernel::KernelOf;
use fk_lookup_count::CountTable;
use fk_queues::QueueTable;
use fk_syscalls::Answer;
use fuse_spec::Purpose;

impl<Q: QueueTable<Purpose>, C: CountTable<Heap = Q::Heap>> KernelOf<Q, C> {
    /// Hands out, once, the answer of the lowest answered call.
    pub fn collect(&mut self) -> Option<(u64, Answer<Q::Heap>)>
        ensures answer { option_map (λ r. (r.0, answer_of r.1)) result ≡ slice_get self.old.vfs.answers 0 }
        ensures none { IfNone result (self.new ≡ self.old) }
        ensures taken { IfSome result (λ r. self.new ≡ record self.old {
          vfs = record self.old.vfs { answers = remove self.old.vfs.answers r.0 };
        }) }
    {
        let Some(call) = self.answers.first_key() else {
            return None;
        };
        let Some(answer) = self.answers.remove(call) else {
            return None;
        };
        Some((call, answer.into_answer()))
    }
}
