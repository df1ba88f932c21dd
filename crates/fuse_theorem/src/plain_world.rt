//! The plain world alone: its steps, as the theorem takes them, in words of its own.

ghost use Rattle.fuse_spec.specs.World.Events.{Event, Outcome};
ghost use Rattle.fuse_spec.specs.Reference.Plain.{Plain};
ghost use Rattle.fuse_spec.specs.Reference.PlainSteps.{Takes};
ghost use Rattle.fuse_spec.specs.Reference.PlainWords.{Steps};

/// Each step of the plain world, as the theorem has it, is one in the plain world's own words.
pub fn steps_in_words()
    ensures { (p q : Plain) (e : Event) (o : Outcome) → Takes p e o q → Steps p e o q }
{}
