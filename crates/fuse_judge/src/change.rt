//! What an act does to the requests that wait.

ghost use Rattle.std.specs.Prelude.{◌≡◌};
ghost use Rattle.fuse_sessions.specs.Waiting as words;
ghost use Rattle.fuse_judge.specs.Pending.{IsChange};

use fuse_sessions::{Act, Asked, Taken};

/// What an act does to the requests that wait.
#[derive(Clone, Copy)]
pub enum Change {
    Nothing,
    /// This request waits, in place of any under its number.
    Asks { unique: u64, asked: Asked },
    /// None waits under this number any more.
    Ends(u64),
    /// What waits under this number is interrupted.
    Interrupts(u64),
    /// Its INTERRUPT was answered EAGAIN.
    Again(u64),
}

/// Whether the device takes a reply, or refuses it for another reason than that nothing waits for it.
pub(crate) fn reaches(taken: Taken) -> bool
    ensures { result ≡ words.reaches taken }
{
    !matches!(taken, Taken::NoEntry)
}

/// What an act does to the requests that wait.
pub(crate) fn change_of(act: Act) -> Change
    ensures { IsChange act result }
{
    match act {
        Act::Asks { unique, asked } => Change::Asks { unique, asked },
        Act::Replies { unique, taken } if reaches(taken) => Change::Ends(unique),
        Act::Resent { original, .. } => Change::Ends(original),
        Act::Interrupts { original, .. } => Change::Interrupts(original),
        Act::RepliesToInterrupt {
            original,
            is_again,
            taken,
        } if is_again && reaches(taken) => Change::Again(original),
        _ => Change::Nothing,
    }
}
