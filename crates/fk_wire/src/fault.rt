//! Why a frame could not be read or written.

ghost use Rattle.std.specs.Prelude.{◌≡◌};
ghost use Rattle.fk_wire.specs.WireFaults.{fault_number, fault_name};

use thiserror::Error;

/// What is wrong with a frame, or with a value that is to be written: the first fault that applies.
///
/// The faults of a frame are judged in the order `Short`, `Length`, `ErrorRange`, `Opcode`, `Body`,
/// `Name`; each call says which of them it can meet. The numbers are this project's own.
#[derive(Clone, Copy, Debug, PartialEq, Eq, Error)]
pub enum WireFault {
    /// Fewer bytes than a header has: 40 of a request, 16 of a reply.
    #[error("the frame is too short for its header")]
    Short = 1,
    /// The field `len` is not the frame's length.
    #[error("the frame has another length than it says")]
    Length = 2,
    /// The opcode is not known, or has no replies.
    #[error("the opcode is not known")]
    Opcode = 3,
    /// A name is missing, ends in no NUL byte or breaks the rules of names.
    #[error("a name breaks the rules of names")]
    Name = 4,
    /// The body has not the parts that its opcode asks for, or a number in it is out of range.
    #[error("the body is not of its kind")]
    Body = 5,
    /// The error of a reply is neither 0 nor between -511 and -1.
    #[error("the error number is out of range")]
    ErrorRange = 6,
    /// The vector could not grow. Reading has no such fault.
    #[error("out of memory")]
    Memory = 7,
}

impl WireFault {
    /// The fault's number, 1 to 7.
    pub fn number(self) -> u8
        ensures { result ≡ fault_number self }
    {
        self as u8
    }

    /// The fault's name, as `ErrorRange`.
    pub fn name(self) -> &'static str
        ensures { result.now ≡ fault_name self }
    {
        match self {
            WireFault::Short => "Short",
            WireFault::Length => "Length",
            WireFault::Opcode => "Opcode",
            WireFault::Name => "Name",
            WireFault::Body => "Body",
            WireFault::ErrorRange => "ErrorRange",
            WireFault::Memory => "Memory",
        }
    }
}
