//! The lookups that a kernel counts, in a session of what it sends and receives.

ghost use Rattle.driven_sessions.specs.Counted.{LookupsAreCounted, LookupsAreSame};

/// Each lookup of a node that the kernel counts, or has to forget, is counted in the session, in one mount: where of each frame
/// that the kernel accepted the session says so too, and that its request waited then, and where it is judged to its end, by
/// agreements that carry the codec's frames.
pub fn lookups_are_counted()
    ensures { LookupsAreCounted }
{}

/// Each node is counted in the session exactly as often as the kernel counts it or has to forget it, in one mount, while it is
/// live: where each request is the kernel's and is sent, each frame received is for it, the session has as accepted what the
/// kernel accepted, and no more, and it is judged to its end, by agreements that carry the codec's frames.
pub fn lookups_are_the_same()
    ensures { LookupsAreSame }
{}
