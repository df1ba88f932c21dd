//! What a link that gives each side what the other put, in order, makes of a session.

ghost use Rattle.std.specs.Prelude.{◌≡◌, false, true, List};
ghost use Rattle.fuse_spec.specs.World.Events.{Event};
ghost use Rattle.fuse_spec.specs.World.Records.{Record};
ghost use Rattle.fuse_spec.specs.Claim.Sessions.{Session};
ghost use Rattle.fw_link.specs.Traffic.{HasFailed};
ghost use Rattle.fw_world.specs.OverLinks.{RecordedOver};

use fw_link::LinkInOrder;

/// The law of sessions over a link in order, from a state in which nothing is outstanding: the link is lost in a list
/// of events exactly where it has failed, and while it is not lost its count of failures stays. It does nothing.
pub fn lost_where_failed<L: LinkInOrder>()
    ensures lost { (s after : Session) (first last : L) (events : List Event) (records : List Record) →
        RecordedOver L.carries L.failed s first events records after last → L.is_idle first →
        s.is_lost ≡ false → after.is_lost ≡ true → HasFailed (L.failed first) (L.failed last) }
    ensures kept { (s after : Session) (first last : L) (events : List Event) (records : List Record) →
        RecordedOver L.carries L.failed s first events records after last →
        after.is_lost ≡ false → L.failed last ≡ L.failed first }
{}
