//! Faults in words.

ghost use Rattle.std.specs.Prelude.{◌≡◌};
ghost use Rattle.fw_check.specs.FaultWords as words;

use fuse_sessions::{Fault, Party};

/// Whose fault it is.
pub fn party_word(party: Party) -> &'static str
    ensures { result.now ≡ words.party_word party }
{
    match party {
        Party::Kernel => "kernel",
        Party::Server => "server",
        Party::Device => "device",
        Party::Nobody => "warning",
    }
}

/// The rule that is broken.
pub fn fault_words(fault: Fault) -> &'static str
    ensures { result.now ≡ words.fault_words fault }
{
    match fault {
        Fault::MalformedRequest => "malformed request",
        Fault::RequestBeforeInit => "request before INIT",
        Fault::InitNotFirst => "INIT is not first",
        Fault::OddNumber => "odd number",
        Fault::NumberUsedTwice => "number used twice",
        Fault::NumberOutOfOrder => "number out of order",
        Fault::ResendOfNothing => "resend of nothing",
        Fault::InterruptOfNothing => "INTERRUPT of nothing",
        Fault::InterruptUnderAnotherNumber => "INTERRUPT under another number",
        Fault::InterruptTooOften => "INTERRUPT too often",
        Fault::NodeNotCounted => "node that is not counted",
        Fault::ForgetOfTheRoot => "forget of the root",
        Fault::ForgetOfNoLookup => "forget of no lookup",
        Fault::ForgetOfMoreThanIsCounted => "forget of more than is counted",
        Fault::ForgetOfANodeInUse => "forget of a node in use",
        Fault::HandleNotOpen => "file handle that is not open",
        Fault::ReleaseOfWhatIsNotOpen => "RELEASE of what is not open",
        Fault::ReleaseBesideAUse => "RELEASE beside a use",
        Fault::WriteTooLarge => "WRITE of more than was agreed",
        Fault::NameThatIsMissing => "removal of a name that is missing",
        Fault::MalformedReply => "malformed reply",
        Fault::ReplyToNothing => "reply to nothing",
        Fault::SecondReply => "second reply",
        Fault::ReplyToForget => "reply to FORGET",
        Fault::ReplyToNoInterrupt => "reply to no INTERRUPT",
        Fault::BodyOfAnotherRequest => "body that is not its request's",
        Fault::MoreThanWasAsked => "more than was asked",
        Fault::EntryOfTheRoot => "entry of the root",
        Fault::EntryOfNoNode => "entry of no node",
        Fault::EntryOfNoKind => "entry of no kind",
        Fault::EntryOfAnotherKind => "entry of another kind",
        Fault::NodeOfTwoGenerations => "node of two generations",
        Fault::NodeOfTwoKinds => "node of two kinds",
        Fault::NodeOfTwoInodeNumbers => "node of two inode numbers",
        Fault::InitOfAnotherVersion => "INIT of another version",
        Fault::FlagsThatWereNotOffered => "flags that were not offered",
        Fault::MalformedNotification => "malformed notification",
        Fault::ReadAfterTheEnd => "read after the end",
        Fault::AcceptedAfterTheEnd => "reply accepted after the end",
        Fault::AcceptedReplyToNothing => "reply to nothing accepted",
        Fault::AcceptedWrongBody => "body of another request accepted",
        Fault::RefusedReply => "right reply refused",
        Fault::NodeGivenAgain => "node given again under its generation",
        Fault::HandleGivenAgain => "file handle that is open given again",
        Fault::NoSuchNode => "counted node that is said not to be there",
        Fault::InterruptedByNobody => "EINTR without an INTERRUPT",
        Fault::AgainTooOften => "INTERRUPT answered EAGAIN more than 1000 times",
        Fault::OffsetGivenTwice => "offset given twice in a row",
        Fault::ListingWithoutEnd => "listing that ends where it began",
    }
}
