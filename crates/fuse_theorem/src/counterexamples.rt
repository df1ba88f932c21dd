//! Laws that fail once one of their premises is left out, each by a world in which it does.

ghost use Rattle.std.specs.Prelude.{◌≡◌, ℕ, [], ◌∷◌};
ghost use Rattle.fuse_spec.specs.Claim.Alike.{Alike};
ghost use Rattle.fuse_spec.specs.Claim.Counts.{Protocol, SameNode};
ghost use Rattle.fuse_spec.specs.World.Events as event;
ghost use Rattle.fuse_spec.specs.Values.Maps.{get};
ghost use Rattle.fuse_spec.specs.Reference.Plain.{Plain, first_plain};
ghost use Rattle.fuse_spec.specs.World.Records.{outcome};
ghost use Rattle.fuse_spec.specs.Claim.Runs.{AnswersOnce, Run};
ghost use Rattle.fuse_spec.specs.World.Steps.{Happens, IsRefused};
ghost use Rattle.fuse_spec.specs.World.Refusals.{Refuses};
ghost use Rattle.fuse_spec.specs.declared.Refusal.TheVariants.{Exhausted};
ghost use Rattle.fuse_spec.specs.World.Worlds.{World, after_tick, first_world};
ghost use Rattle.fuse_theorem.specs.Counterexamples.{a_millisecond_later, answered_twice, with_a_copy_left, with_a_late_request, with_a_node_left, with_a_stray_forget, with_an_early_answer, with_no_generation};
ghost use Rattle.fuse_theorem.specs.EachEvent.{IsRooted, Needs};
ghost use Rattle.fuse_theorem.specs.Lookups.{LookupsSound};
ghost use Rattle.fuse_theorem.specs.Numbering.{IsNumbered, IsNumberedWhileLive};
ghost use Rattle.fuse_theorem.specs.Recorded.{Recorded};
ghost use Rattle.fuse_theorem.specs.WorldSound.{WorldSound};

/// That two worlds are alike does not give the reference protocol: `headline::protocol_is_kept` needs all that is
/// sound.
pub fn alike_is_not_enough()
    ensures { Alike with_a_stray_forget first_plain × (Protocol with_a_stray_forget → ⊥) }
{}

/// A call is answered twice where it was unanswered and answered at first: `any_event::each_call_answered_once` needs
/// sound answers.
pub fn answers_have_to_be_sound()
    ensures { IsRooted with_an_early_answer.kernel.vfs × (after : World)
        × Recorded with_an_early_answer (event.tick 1 ∷ event.abort ∷ []) answered_twice after
        × (AnswersOnce answered_twice → ⊥) }
{}

/// Where something is under way the two sides count other nodes: `any_event::same_nodes_at_rest` needs rest.
pub fn nodes_differ_before_rest()
    ensures { LookupsSound with_a_node_left × (SameNode (get with_a_node_left.kernel.nodes 2)
        (get with_a_node_left.server.nodes.rows 2) → ⊥) }
{}

/// A sound world may hold a request of which a node is gone: `any_event::worlds_stay_sound` does not give what
/// performing it needs.
pub fn performing_needs_more()
    ensures { WorldSound with_a_late_request × ((choice : ℕ → ℕ)
        → Needs choice with_a_late_request first_plain (event.perform 2) → ⊥) }
{}

/// A run leads from the world before: there is none from the world after (`headline::every_list_runs`).
pub fn a_run_begins_before()
    ensures recorded { Recorded first_world (event.tick 1 ∷ []) (outcome (event.now 1) ∷ []) a_millisecond_later }
    ensures no_run { (q : Plain) → Run a_millisecond_later first_plain (event.tick 1 ∷ [])
        (outcome (event.now 1) ∷ []) a_millisecond_later q → ⊥ }
{}

/// Where no mount is live a copy may stand on its link under a number that was not allocated since:
/// `any_event::numbers_stay_in_order` speaks of live mounts.
pub fn numbers_need_a_mount()
    ensures { IsNumberedWhileLive with_a_copy_left × Happens with_a_copy_left (event.tick 1) (event.now 1)
        (after_tick with_a_copy_left 1) × (IsNumbered (after_tick with_a_copy_left 1) → ⊥) }
{}

/// A nodeid in use by another file allocates no generation, so what every free one is refused for it is not:
/// `refusals::refused_for_any_choice` speaks of ids that the server may choose.
pub fn free_ids_alone_are_refused_alike()
    ensures { IsRefused with_no_generation (event.perform 2) Exhausted × (choice : ℕ → ℕ)
        × (Refuses choice with_no_generation (event.perform 2) Exhausted → ⊥) }
{}
