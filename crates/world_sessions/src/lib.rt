//! What goes over the device between the two sides of a world: a session in which the kernel keeps the rules.
//!
//! In a world requests and replies are values. Here each is a frame that says it, and the kernel of a world is one that is
//! driven over a device: so what is proved of driven kernels is true of it.
#![tactic(auto)]

ghost use Rattle.world_sessions.specs.AtRest.{CountsAtRest};
ghost use Rattle.world_sessions.specs.KernelRules.{KernelKeepsRules};

/// What goes over the device in a run of the world drives a kernel that ends as the world's does, mounts as often and keeps the
/// rules, whatever the events are.
pub fn kernel_keeps_rules()
    ensures { KernelKeepsRules }
{}

/// Where a world is at rest, each session of it counts each node exactly as often as the kernel does, and as the server does: in one
/// mount, where the session has of each reply what the kernel made of it, and is judged to its end, by agreements that carry the
/// codec's frames.
pub fn counts_at_rest()
    ensures { CountsAtRest }
{}
