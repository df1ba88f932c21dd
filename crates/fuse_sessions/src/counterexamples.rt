//! Sessions that a stricter rule would find at fault, and in which nobody is.

ghost use Rattle.std.specs.Prelude.{◌≡◌, true};
ghost use Rattle.fuse_sessions.specs.declared.act.Act.TheVariants.{Releases};
ghost use Rattle.fuse_sessions.specs.declared.fault.Fault.{Fault};
ghost use Rattle.fuse_sessions.specs.Counterexamples.{listed_without_opening, root_under_zero};
ghost use Rattle.fuse_sessions.specs.Faults.{Breaks};
ghost use Rattle.fuse_sessions.specs.OpenFiles.{opened};
ghost use Rattle.fuse_sessions.specs.Waiting.{is_used};

/// A kernel may release the last open directory while a waiting request uses its file handle: where the handle is 0 and
/// the server opens no more of them, that request needs no open directory.
pub fn a_release_may_stand_beside_a_use()
    ensures open_once { opened listed_without_opening root_under_zero ≡ 1 }
    ensures used { is_used listed_without_opening root_under_zero ≡ true }
    ensures faultless { (f : Fault) → Breaks listed_without_opening (Releases root_under_zero) f → ⊥ }
{}
