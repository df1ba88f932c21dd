//! The machine by cases: which refusal each event has and what it leads to, said as relations (`Refusals.antt` of
//! `fuse_spec`), are exactly what its step function gives.

ghost use Rattle.std.specs.Prelude.{◌≡◌, ◌≢◌, ◌⊎◌, ℕ, true, false, Ok, Err};
ghost use Rattle.fuse_spec.specs.declared.Refusal.{Refusal};
ghost use Rattle.fuse_spec.specs.declared.Refusal.TheVariants.{LinkLost, NoMemory};
ghost use Rattle.fuse_spec.specs.World.Worlds.{World};
ghost use Rattle.fuse_spec.specs.World.Events.{Event, Outcome};
ghost use Rattle.fuse_spec.specs.World.Steps.{step, is_past, Happens, MayStep, IsRefused, RefusedWith};
ghost use Rattle.fuse_spec.specs.World.Refusals.{Leads, Refuses, allocates};

/// An event gets a refusal exactly where a case of `Refuses` has it. The server's choice of ids is given.
pub fn refused_by_cases()
    ensures only { (choice : ℕ → ℕ) (w : World) (e : Event) (r : Refusal) → step choice w e ≡ Err r
        → Refuses choice w e r }
    ensures also { (choice : ℕ → ℕ) (w : World) (e : Event) (r : Refusal) → Refuses choice w e r
        → step choice w e ≡ Err r }
{}

/// An event that is not refused results in exactly what a case of `Leads` has, with no counter past its end where it
/// may allocate a number.
pub fn accepted_by_cases()
    ensures only { (choice : ℕ → ℕ) (w : World) (e : Event) (o : Outcome) (after : World)
        → step choice w e ≡ Ok (o, after) → Leads choice w e o after }
    ensures within { (choice : ℕ → ℕ) (w : World) (e : Event) (o : Outcome) (after : World)
        → step choice w e ≡ Ok (o, after) → allocates e ≡ true → is_past after ≡ false }
    ensures also { (choice : ℕ → ℕ) (w : World) (e : Event) (o : Outcome) (after : World) → Leads choice w e o after
        → (allocates e ≡ true → is_past after ≡ false) → step choice w e ≡ Ok (o, after) }
{}

/// An event has one refusal at most: no two cases give it different ones.
pub fn refused_once()
    ensures { (choice : ℕ → ℕ) (w : World) (e : Event) (r s : Refusal) → Refuses choice w e r → Refuses choice w e s
        → r ≡ s }
{}

/// An event gets a refusal whatever free nodeids the server gives, exactly where the cases have it for each choice of
/// them.
pub fn refused_for_any_choice()
    ensures only { (w : World) (e : Event) (r : Refusal) → IsRefused w e r → (choice : ℕ → ℕ) → MayStep choice w e
        → Refuses choice w e r }
    ensures also { (w : World) (e : Event) (r : Refusal)
        → ((choice : ℕ → ℕ) → MayStep choice w e → Refuses choice w e r) → IsRefused w e r }
{}

/// The server always has ids to choose. So an event that is refused whatever it chooses has one refusal, and is not
/// accepted.
pub fn refused_or_accepted()
    ensures choice { (w : World) (e : Event) → (choice : ℕ → ℕ) × MayStep choice w e }
    ensures once { (w : World) (e : Event) (r s : Refusal) → IsRefused w e r → IsRefused w e s → r ≡ s }
    ensures apart { (w : World) (e : Event) (r : Refusal) → IsRefused w e r → (o : Outcome) (after : World)
        → Happens w e o after → ⊥ }
{}

/// What one choice of free nodeids is refused, every other choice is refused too: which nodeids the server gives is no
/// matter for a refusal.
pub fn same_refusal_for_each_choice()
    ensures { (w : World) (e : Event) (c d : ℕ → ℕ) → MayStep c w e → MayStep d w e → (r : Refusal)
        → step c w e ≡ Err r → step d w e ≡ Err r }
{}

/// Each event happens, or it is refused whatever the server chooses.
pub fn happens_or_refused()
    ensures { (w : World) (e : Event) → ((o : Outcome) × (after : World) × Happens w e o after)
        ⊎ ((r : Refusal) × IsRefused w e r) }
{}

/// No event is refused for a lost link, and by the machine itself none as out of memory.
pub fn never_for_the_link()
    ensures memory { (w : World) (e : Event) (r : Refusal) → IsRefused w e r → r ≢ NoMemory }
    ensures link { (w : World) (e : Event) (r : Refusal) → RefusedWith w e r → r ≢ LinkLost }
{}
