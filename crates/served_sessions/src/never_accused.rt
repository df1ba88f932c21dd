//! The groups of faults of which the server is never accused.

ghost use Rattle.std.specs.Prelude.{List};
ghost use Rattle.fuse_spec.specs.Server.Server.{Server};
ghost use Rattle.fuse_device.specs.Transfers.{Transfer};
ghost use Rattle.fs_serve.specs.Serving.{Serves};
ghost use Rattle.served_sessions.specs.Exchanges.{AreExchanges};
ghost use Rattle.served_sessions.specs.Groups.{HasFewForgets, HasNumber, IsAny, IsNoNotifyReply, IsOrdinary};
ghost use Rattle.served_sessions.specs.Groups.{is_nothing, is_of_bodies, is_of_counts, is_of_entries, is_of_files, is_of_flags, is_of_generations, is_of_heads, is_of_interrupts, is_of_kernel, is_of_notices, is_of_numbers, is_of_pairs, is_of_second_init, is_of_server};
ghost use Rattle.served_sessions.specs.Served.{FreshNeverAccused, IsUnaccused, NeverAccused};

/// Behind each frame that is received at most one is sent, which answers it under its number.
pub fn served_in_exchanges()
    ensures { (old : Server) (log : List Transfer) (new : Server) → Serves old log new → AreExchanges log }
{}

/// Each frame that is sent has a whole header, and INIT's reply is of protocol 7, whatever the kernel does.
pub fn frames_are_whole()
    ensures { NeverAccused is_of_heads is_nothing IsAny }
{}

/// No notification is malformed, where no request has number 0. Under it each reply would be one.
pub fn notifications_are_whole()
    ensures { NeverAccused is_of_notices is_nothing HasNumber }
{}

/// Each reply is to a request that waits or to an INTERRUPT of one, where the kernel keeps the rules of INTERRUPTs and
/// sends no NOTIFY_REPLY.
pub fn replies_are_awaited()
    ensures { NeverAccused is_of_numbers is_of_interrupts IsNoNotifyReply }
{}

/// INIT's reply has no flag that was not offered, where the kernel sends one INIT.
pub fn flags_are_offered()
    ensures { NeverAccused is_of_flags is_of_second_init IsAny }
{}

/// The body of each reply is one of its request's opcode, of no more bytes than were asked for, whatever the kernel does.
pub fn bodies_fit()
    ensures { NeverAccused is_of_bodies is_nothing IsAny }
{}

/// No reply says of a WRITE that more was written than it has, whatever the kernel does.
pub fn no_more_is_counted()
    ensures { NeverAccused is_of_counts is_nothing IsAny }
{}

/// Each entry of a server that was just mounted is of a node, and not of the root, and its file is of a kind, that which
/// its request makes, whatever the kernel does.
pub fn entries_are_of_files()
    ensures { FreshNeverAccused is_of_entries is_nothing IsAny }
{}

/// A node that is counted is given under one generation by a server that was just mounted, where no BATCH_FORGET has more
/// than 16 MiB.
pub fn nodes_stay_of_one_generation()
    ensures { FreshNeverAccused is_of_generations is_nothing HasFewForgets }
{}

/// A node that is counted is given, and described, with one kind and one inode number by a server that was just mounted,
/// where no BATCH_FORGET has more than 16 MiB.
pub fn nodes_stay_of_one_file()
    ensures { FreshNeverAccused is_of_files is_nothing HasFewForgets }
{}

/// A node that is counted no more is given again under its generation for the same file alone by a server that was just
/// mounted, where no BATCH_FORGET has more than 16 MiB.
pub fn pairs_stay_of_one_file()
    ensures { FreshNeverAccused is_of_pairs is_nothing HasFewForgets }
{}

/// Where the kernel has no fault, a server that was just mounted has none of those that the definitions know. No request
/// may have number 0 or be a NOTIFY_REPLY.
pub fn server_has_no_fault()
    ensures { FreshNeverAccused is_of_server is_of_kernel IsOrdinary }
{}

/// All of these of one log: what `serve` sends is never accused of them. A call without effect, made where a contract rests
/// on that.
pub fn served_is_unaccused()
    ensures { (old : Server) (log : List Transfer) (new : Server) → Serves old log new → IsUnaccused old log }
{}
