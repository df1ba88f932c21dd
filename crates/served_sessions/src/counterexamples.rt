//! What a law asks of the kernel is needed: without it there is a session that breaks the law.

ghost use Rattle.served_sessions.specs.Groups.{IsAny, is_of_interrupts, is_of_kernel, is_of_notices, is_of_numbers};
ghost use Rattle.served_sessions.specs.Served.{NeverAccused};

/// A kernel that has no fault may send INIT under number 0. A server that answers it is accused of a malformed
/// notification. The definitions lack a rule: Linux numbers requests from 2 on.
pub fn number_is_needed()
    ensures { NeverAccused is_of_notices is_of_kernel IsAny → ⊥ }
{}

/// A kernel may send a NOTIFY_REPLY that nobody asked for. This server answers it ENOSYS, and is accused of a reply to
/// nothing. The server could be silent, as libfuse is.
pub fn no_notify_reply_is_needed()
    ensures { NeverAccused is_of_numbers is_of_interrupts IsAny → ⊥ }
{}
