//! What an end of the device must not do, and what is odd.

ghost use Rattle.std.specs.Prelude.{◌≡◌};
ghost use Rattle.fuse_sessions.specs.Parties.{party_of};

/// Whose fault it is.
#[derive(Clone, Copy, Debug, PartialEq, Eq)]
pub enum Party {
    Kernel,
    Server,
    Device,
    /// It is a warning, and no fault.
    Nobody,
}

/// A fault, or a warning. Each has its rule in `specs/Faults.antt` or `specs/Warnings.antt`, or is one of a frame by
/// itself in `specs/Frames.antt`.
#[derive(Clone, Copy, Debug, PartialEq, Eq)]
pub enum Fault {
    // Of the kernel.
    MalformedRequest,
    RequestBeforeInit,
    InitNotFirst,
    OddNumber,
    NumberUsedTwice,
    NumberOutOfOrder,
    ResendOfNothing,
    InterruptOfNothing,
    InterruptUnderAnotherNumber,
    InterruptTooOften,
    NodeNotCounted,
    ForgetOfTheRoot,
    ForgetOfNoLookup,
    ForgetOfMoreThanIsCounted,
    ForgetOfANodeInUse,
    HandleNotOpen,
    ReleaseOfWhatIsNotOpen,
    ReleaseBesideAUse,
    WriteTooLarge,
    /// Its rule is that of `name_sessions`.
    NameThatIsMissing,

    // Of the server.
    MalformedReply,
    ReplyToNothing,
    SecondReply,
    ReplyToForget,
    ReplyToNoInterrupt,
    BodyOfAnotherRequest,
    MoreThanWasAsked,
    EntryOfTheRoot,
    EntryOfNoNode,
    EntryOfNoKind,
    EntryOfAnotherKind,
    NodeOfTwoGenerations,
    NodeOfTwoKinds,
    NodeOfTwoInodeNumbers,
    InitOfAnotherVersion,
    FlagsThatWereNotOffered,
    MalformedNotification,

    // Of the device.
    ReadAfterTheEnd,
    AcceptedAfterTheEnd,
    AcceptedReplyToNothing,
    AcceptedWrongBody,
    RefusedReply,

    // Warnings: what the server does that is odd, and breaks no rule.
    NodeGivenAgain,
    HandleGivenAgain,
    NoSuchNode,
    InterruptedByNobody,
    AgainTooOften,
    OffsetGivenTwice,
    ListingWithoutEnd,
}

impl Fault {
    /// Whose fault it is.
    pub fn party(self) -> Party
        ensures { result ≡ party_of self }
    {
        match self {
            Fault::MalformedRequest
            | Fault::RequestBeforeInit
            | Fault::InitNotFirst
            | Fault::OddNumber
            | Fault::NumberUsedTwice
            | Fault::NumberOutOfOrder
            | Fault::ResendOfNothing
            | Fault::InterruptOfNothing
            | Fault::InterruptUnderAnotherNumber
            | Fault::InterruptTooOften
            | Fault::NodeNotCounted
            | Fault::ForgetOfTheRoot
            | Fault::ForgetOfNoLookup
            | Fault::ForgetOfMoreThanIsCounted
            | Fault::ForgetOfANodeInUse
            | Fault::HandleNotOpen
            | Fault::ReleaseOfWhatIsNotOpen
            | Fault::ReleaseBesideAUse
            | Fault::WriteTooLarge
            | Fault::NameThatIsMissing => Party::Kernel,
            Fault::ReadAfterTheEnd
            | Fault::AcceptedAfterTheEnd
            | Fault::AcceptedReplyToNothing
            | Fault::AcceptedWrongBody
            | Fault::RefusedReply => Party::Device,
            Fault::NodeGivenAgain
            | Fault::HandleGivenAgain
            | Fault::NoSuchNode
            | Fault::InterruptedByNobody
            | Fault::AgainTooOften
            | Fault::OffsetGivenTwice
            | Fault::ListingWithoutEnd => Party::Nobody,
            _ => Party::Server,
        }
    }
}
