//! What a session shows of its nodes in which nobody breaks a rule.

ghost use Rattle.fuse_sessions.specs.declared.fault.Party.TheVariants.{Kernel, Server};
ghost use Rattle.fuse_sessions.specs.Sessions.{Session};
ghost use Rattle.fuse_sessions.specs.Faultless.{Balances, HasNoFaultOf, StaysOfOneFile, StaysOfOneKind};

/// Where a kernel has no fault, each lookup that it was given is given back or still counted. Where a server has none, a
/// node is of one file for as long as it stays counted, by each of its entries and attributes. So a kernel that counts as
/// Linux does never takes one file for another.
pub fn faultless_sessions()
    ensures balances { (s : Session) → HasNoFaultOf Kernel s → Balances s }
    ensures one_file { (s : Session) → HasNoFaultOf Server s → StaysOfOneFile s }
    ensures one_kind { (s : Session) → HasNoFaultOf Server s → StaysOfOneKind s }
{}
