//! The groups of faults of which the kernel is never accused.

ghost use Rattle.std.specs.Prelude.{Bool, List};
ghost use Rattle.fuse_device.specs.Transfers.{Transfer};
ghost use Rattle.fk_drive.specs.Driving.{Driven, Drives, first_driven};
ghost use Rattle.driven_sessions.specs.Transfers.{AllSent, IsShaped};
ghost use Rattle.driven_sessions.specs.Driven.{NeverAccused, NeverAccusedMountedOnce, NeverAccusedMountedOnceWhereTaken, NeverAccusedWhereCarried, NeverAccusedWhereTaken};
ghost use Rattle.driven_sessions.specs.Files.{DirectoriesAreUsedRightly, FilesAreUsedRightly};
ghost use Rattle.driven_sessions.specs.Forgets.{NamedAreKept, OpenedAreKept};
ghost use Rattle.driven_sessions.specs.Groups.{is_of_early_requests, is_of_empty_forgets, is_of_interrupt_numbers, is_of_large_forgets, is_of_large_writes, is_of_late_inits, is_of_odd_numbers, is_of_one_thread, is_of_resends, is_of_shapes, is_of_uncounted_nodes, is_of_used_numbers};

/// Each frame that is sent is a request of a row, under each agreement that carries the codec's frames: no extensions, names
/// of 255 bytes, and a minor version from 12 on.
pub fn frames_are_requests()
    ensures { (asks : Bool) (log : List Transfer) (new : Driven) → Drives (first_driven asks) log new → AllSent IsShaped log }
{}

/// No request is malformed, where each agreement of the session carries the codec's frames, as before INIT's reply.
pub fn requests_are_whole()
    ensures { NeverAccusedWhereCarried is_of_shapes }
{}

/// Each FORGET and BATCH_FORGET is of lookups, and of no root, however often the kernel mounts.
pub fn forgets_are_of_lookups()
    ensures { NeverAccused is_of_empty_forgets }
{}

/// Each INTERRUPT has its request's number with the lowest bit set, however often the kernel mounts.
pub fn interrupts_have_their_numbers()
    ensures { NeverAccused is_of_interrupt_numbers }
{}

/// Each request that is no INTERRUPT has an even number, however often the kernel mounts.
pub fn numbers_are_even()
    ensures { NeverAccused is_of_odd_numbers }
{}

/// No request has the number of another, in one mount: those of the kernel rise and stay below 2^62, where those of OPENDIR
/// and RELEASEDIR begin.
pub fn numbers_are_used_once()
    ensures { NeverAccusedMountedOnce is_of_used_numbers }
{}

/// No number is out of order, and no INTERRUPT is of nothing or comes too often, however often the kernel mounts: these are
/// faults where one thread uses the device, and the session says that several read it.
pub fn readers_are_several()
    ensures { NeverAccused is_of_one_thread }
{}

/// No request is one that is read once more, however often the kernel mounts: its numbers stay below 2^62, and those of
/// OPENDIR and RELEASEDIR below 2^63, the bit of such requests.
pub fn requests_are_not_resent()
    ensures { NeverAccused is_of_resends }
{}

/// INIT comes before any other request, in one mount.
pub fn init_is_first()
    ensures { NeverAccusedMountedOnce is_of_late_inits }
{}

/// No WRITE has more bytes than were agreed on: none has more than 4,096, which each server takes.
pub fn writes_are_small()
    ensures { NeverAccused is_of_large_writes }
{}

/// Nothing but INIT comes before its reply is accepted, however often the kernel mounts, where of each frame that the kernel
/// accepted the session says so too, and that its request waited then.
pub fn nothing_before_init()
    ensures { NeverAccusedWhereTaken is_of_early_requests }
{}

/// No forget is of more lookups than are counted, in one mount: where of each frame that the kernel accepted the session says
/// so too, and that its request waited then, and each agreement of it carries the codec's frames.
pub fn forgets_are_of_what_is_counted()
    ensures { NeverAccusedMountedOnceWhereTaken is_of_large_forgets }
{}

/// No request names a node that is not counted, in one mount: where of each frame that the kernel accepted the session says so
/// too, and that its request waited then, and each agreement of it carries the codec's frames. OPENDIR and RELEASEDIR are within
/// it.
pub fn nodes_are_counted()
    ensures { NeverAccusedMountedOnceWhereTaken is_of_uncounted_nodes }
{}

/// Each file that a request uses or releases is open, in one mount: where each reply is accepted, the server has no fault, each
/// agreement of the session carries the codec's frames, and no entry is of 2^63 bytes or more.
pub fn files_are_used_rightly()
    ensures { FilesAreUsedRightly }
{}

/// Each directory that a request uses or releases is open, in one mount, where OPENDIR is asked, fewer than 2^61 frames go over the
/// device, each reply is accepted, the server has no fault and opens directories, and each agreement of the session carries the
/// codec's frames.
pub fn directories_are_used_rightly()
    ensures { DirectoriesAreUsedRightly }
{}

/// As the last lookups of a node are forgotten no request that waits names it, in one mount: where each reply is accepted, the
/// server has no fault, and each agreement of the session carries the codec's frames.
pub fn named_nodes_are_kept()
    ensures { NamedAreKept }
{}

/// As the last lookups of a node are forgotten no directory of it is open, in one mount: where also each frame was sent, fewer than
/// 2^61 of them.
pub fn nodes_of_open_directories_are_kept()
    ensures { OpenedAreKept }
{}
