//! The tables that an act may change.

ghost use Rattle.std.specs.Prelude.{◌≡◌};
ghost use Rattle.fuse_judge.specs.Concerns.{concern_in};

use fuse_sessions::{Act, Taken};

/// The tables that an act may change.
#[derive(Clone, Copy)]
pub enum Concern {
    Nothing,
    /// The requests that wait.
    Requests,
    /// The counts of nodes.
    Nodes,
    /// The files that are open.
    OpenFiles,
    /// Others, or several.
    Several,
}

/// The tables that an act may change.
pub(crate) fn concern_of(act: Act) -> Concern
    ensures { result ≡ concern_in act }
{
    match act {
        Act::Faulty(_)
        | Act::Arrives
        | Act::Begins(_)
        | Act::Names(_)
        | Act::Uses(_)
        | Act::Writes(_)
        | Act::Interrupted(_)
        | Act::Describes { .. }
        | Act::Missing { .. }
        | Act::Takes {
            taken: Taken::Accepted | Taken::Invalid | Taken::Failed,
            ..
        } => Concern::Nothing,
        Act::Asks { .. } | Act::Interrupts { .. } | Act::Replies { .. } => Concern::Requests,
        Act::Gives { .. } | Act::Forgets(_, _) => Concern::Nodes,
        Act::Opens(_) | Act::Releases(_) => Concern::OpenFiles,
        _ => Concern::Several,
    }
}
