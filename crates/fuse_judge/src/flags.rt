//! What is known of a session as a whole.

ghost use Rattle.std.specs.Prelude.{◌≡◌, [], ◌∷◌, ◌++◌, Some};
ghost use Rattle.fuse_sessions.specs.Sessions.{Session};
ghost use Rattle.fuse_sessions.specs.Numbers as words;
ghost use Rattle.fuse_sessions.specs.Numbers.{shows_end};
ghost use Rattle.fuse_sessions.specs.Faults.{BreaksArrival, BreaksBeginning, BreaksWrite};
ghost use Rattle.fuse_judge.specs.Flags.{AreFlags, is_from, highest_with};
ghost use Rattle.fuse_judge.specs.Verdicts.{IsFault};

use crate::projections::is_forget;
use fuse_protocol::Opcode;
use fuse_sessions::{Act, Fault, OpenKind};

/// How many bytes a WRITE may have where fewer are said, or nothing yet.
const PAGE: u32 = 4096;

/// What is known of a session as a whole.
#[derive(Clone, Copy)]
pub struct Flags {
    /// A request was read.
    pub began: bool,
    /// INIT was accepted.
    pub agreed: bool,
    /// On WRITEs of at most how many bytes it agreed.
    pub max_write: Option<u32>,
    pub has_several_readers: bool,
    pub has_several_writers: bool,
    /// Requests that wait were asked for once more.
    pub has_resent: bool,
    pub ended: bool,
    pub opens_no_files: bool,
    pub opens_no_directories: bool,
    /// The highest number of a request that takes a reply.
    pub highest: Option<u64>,
}

/// Nothing is known.
pub(crate) const fn no_flags() -> Flags
    ensures { AreFlags [] result }
{
    Flags {
        began: false,
        agreed: false,
        max_write: None,
        has_several_readers: false,
        has_several_writers: false,
        has_resent: false,
        ended: false,
        opens_no_files: false,
        opens_no_directories: false,
        highest: None,
    }
}

/// Whether a number is below the highest, or that.
pub(crate) fn is_out_of_order(highest: Option<u64>, unique: u64) -> bool
    ensures { result ≡ is_from unique highest }
{
    match highest {
        Some(highest) => unique <= highest,
        None => false,
    }
}

/// Whether more than one thread uses the device.
pub(crate) fn has_several_threads(flags: Flags) -> bool
    ensures { (s : Session) → AreFlags s flags → result ≡ words.has_several_threads s }
{
    flags.has_several_readers | flags.has_several_writers
}

/// Whether the connection had ended before what stands next.
pub(crate) fn is_surely_over(flags: Flags) -> bool
    ensures { (s : Session) → AreFlags s flags → result ≡ words.is_surely_over s }
{
    flags.ended & !has_several_threads(flags)
}

/// The fault of a device at which a request is read.
pub(crate) fn fault_of_arrival(flags: Flags) -> Option<Fault>
    ensures { (s : Session) → AreFlags s flags → IsFault (BreaksArrival s) result }
{
    if is_surely_over(flags) {
        Some(Fault::ReadAfterTheEnd)
    } else {
        None
    }
}

/// The fault of a kernel that begins with a request.
pub(crate) fn fault_of_beginning(flags: Flags, opcode: Opcode) -> Option<Fault>
    ensures { (s : Session) → AreFlags s flags → IsFault (BreaksBeginning s opcode) result }
{
    match opcode {
        Opcode::Init if flags.began => Some(Fault::InitNotFirst),
        Opcode::Init => None,
        _ if !flags.agreed => Some(Fault::RequestBeforeInit),
        _ => None,
    }
}

/// The fault of a kernel that writes so many bytes.
pub(crate) fn fault_of_write(flags: Flags, size: u64) -> Option<Fault>
    ensures { (s : Session) → AreFlags s flags → IsFault (BreaksWrite s size) result }
{
    let most = match flags.max_write {
        Some(max_write) => max_write.max(PAGE),
        None => PAGE,
    };
    if u64::from(most) < size {
        Some(Fault::WriteTooLarge)
    } else {
        None
    }
}

/// The highest of a number and those before it.
fn higher(highest: Option<u64>, unique: u64) -> Option<u64>
    ensures { result ≡ highest_with highest (Some unique) }
{
    match highest {
        Some(highest) => Some(highest.max(unique)),
        None => Some(unique),
    }
}

/// Writes down what an act makes known, which shows the connection's end or not.
#[inline(always)]
pub(crate) fn note_flags(flags: &mut Flags, act: Act, shows: bool)
    ensures { (s : Session) → AreFlags s flags.old → shows ≡ shows_end (s, act)
        → AreFlags (s ++ act ∷ []) flags.new }
{
    flags.ended |= shows;
    match act {
        Act::Read { opcode, unique } => {
            flags.began = true;
            if !is_forget(opcode) {
                flags.highest = higher(flags.highest, unique);
            }
        }
        Act::Agrees(max_write) => {
            flags.agreed = true;
            flags.max_write = Some(max_write);
        }
        Act::SeveralReaders => flags.has_several_readers = true,
        Act::SeveralWriters => flags.has_several_writers = true,
        Act::Resends => flags.has_resent = true,
        Act::OpensNone(kind) => match kind {
            OpenKind::File => flags.opens_no_files = true,
            OpenKind::Directory => flags.opens_no_directories = true,
        },
        _ => {}
    }
}
