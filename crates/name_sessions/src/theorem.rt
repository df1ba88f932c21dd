//! When a removal is a fault.

ghost use Rattle.std.specs.Prelude.{◌≡◌, ◌↔◌, false, true};
ghost use Rattle.name_sessions.specs.Names.{Name};
ghost use Rattle.name_sessions.specs.NameActs.{Removes};
ghost use Rattle.name_sessions.specs.NameSessions.{NameSession, is_fault, is_unsure};
ghost use Rattle.name_sessions.specs.NameTheorems.{IsGiven, SeveralAreUnsure, StaysUnsure};

/// In every session a removal is a fault exactly where names are certain, and no act gives the name a file that no later
/// act takes away.
pub fn fault_of_a_removal()
    ensures { (s : NameSession) (name : Name) → is_fault s (Removes name) ≡ true
        ↔ (is_unsure s ≡ false) × (IsGiven s name → ⊥) }
{}

/// Where a session says that several threads read the device, and from there on, no removal is a fault.
pub fn several_readers_hide_removals()
    ensures several { SeveralAreUnsure }
    ensures stays { StaysUnsure }
{}
