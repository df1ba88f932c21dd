//! Which orders of the messages of some calls come to the same: a reply may as well be taken before another request is
//! read.
#![tactic(auto)]

ghost use Rattle.order_law.specs.Commuting.{RepliesCommute};

/// What is read and then answered elsewhere might have been answered first: the law by which orders that differ in
/// that alone are one. It does nothing.
pub fn replies_commute()
    ensures { RepliesCommute }
{}
