//! That a server without a fault is heard as one whose replies are accepted.

ghost use Rattle.fw_judged.specs.Accepted.{AcceptedWhereServed, AllAcceptedWhereServed};

/// Each reply that a `JudgedServer` hears is taken as accepted, or the server has a fault in it: so where a whole session has
/// no fault of the server, all its replies are.
pub fn replies_are_accepted()
    ensures one { AcceptedWhereServed }
    ensures all { AllAcceptedWhereServed }
{}
