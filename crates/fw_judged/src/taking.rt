//! As what a reply is taken of which the other side says nothing.

ghost use Rattle.std.specs.Prelude.{◌≡◌, ℕ, IfOk};
ghost use Rattle.fuse_device.specs.Transfers.{received};
ghost use Rattle.fw_judged.specs.Judged.{HasJudged, Seen};
ghost use Rattle.fw_judged.specs.Sides as sides;
ghost use Rattle.fw_judged.specs.Sides.{OfServer};

use fuse_judge::SessionJudge;
use fuse_sessions::{Act, Asked, Fit, Known, Taken, Transfer};
use session_frames::{reply_number, write_transfer};
use std::alloc::{AllocError, Allocator};

/// As what a reply is taken, by what waits for it and whether its body fits.
fn taking(asked: Option<Asked>, fit: Fit) -> Taken
    ensures { result ≡ sides.taking asked fit }
{
    match (asked, fit) {
        (None, _) => Taken::NoEntry,
        (Some(_), Fit::FitsNot) => Taken::Invalid,
        (Some(_), Fit::Fits | Fit::MayFit) => Taken::Accepted,
    }
}

/// The same by the acts of a frame that is accepted: the first that takes a reply decides.
fn taking_by(asked: Option<Asked>, acts: &[Act]) -> Taken
    ensures { result ≡ sides.taking_by asked acts.now }
{
    for act in acts {
        if let Act::Takes { fit, .. } = *act {
            return taking(asked, fit);
        }
    }
    Taken::Accepted
}

/// What a server writes, as it is taken. What the vector had goes.
///
/// # Errors
///
/// Out of memory.
pub(crate) fn read_written<'a, A: Allocator + Copy>(
    judge: &SessionJudge<A>,
    acts: &mut Vec<Act, A>,
    frame: &'a [u8],
) -> Result<Transfer<'a>, AllocError>
    ensures { IfOk result (λ t. (s : Seen) (number : ℕ) → HasJudged s judge.now number
        → OfServer s (received frame.now) t) }
{
    let accepted = Transfer::Written(frame, Taken::Accepted);
    let asked = judge.waiting(reply_number(accepted));
    let mut known = Known {
        offered: None,
        agreed: judge.agreed(),
        has_resent: false,
        unjudged: judge.unjudged(),
    };
    write_transfer(acts, &mut known, asked.as_ref(), accepted)?;
    Ok(Transfer::Written(frame, taking_by(asked, acts.as_slice())))
}
