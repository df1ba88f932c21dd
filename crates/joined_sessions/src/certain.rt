//! Which faults are certain.

ghost use Rattle.std.specs.Prelude.{◌≡◌, IsTrue};
ghost use Rattle.joined_sessions.specs.Joined as words;

use fuse_sessions::Fault;

/// Whether a fault of a session that was joined is one whatever went before.
pub fn is_certain(fault: Fault) -> bool
    ensures is { result ≡ words.is_certain fault }
    ensures law { IsTrue result → words.IsCertain fault }
{
    match fault {
        Fault::MalformedRequest
        | Fault::RequestBeforeInit
        | Fault::ResendOfNothing
        | Fault::InterruptOfNothing
        | Fault::NodeNotCounted
        | Fault::ForgetOfMoreThanIsCounted
        | Fault::ForgetOfANodeInUse
        | Fault::HandleNotOpen
        | Fault::ReleaseOfWhatIsNotOpen
        | Fault::ReleaseBesideAUse
        | Fault::WriteTooLarge
        | Fault::NameThatIsMissing
        | Fault::ReplyToNothing
        | Fault::FlagsThatWereNotOffered
        | Fault::MalformedNotification
        | Fault::AcceptedReplyToNothing
        | Fault::NodeGivenAgain => false,
        _ => true,
    }
}
