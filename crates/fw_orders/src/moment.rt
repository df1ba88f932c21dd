//! How far an order has come: a world of this project's own, and the script so far.

ghost use Rattle.std.specs.Prelude.{◌≡◌, ◌++◌, ◌∷◌, [], ℕ, IfOk, MatchBool, OnOk, codes, decimal, nat_lt, option_map};
ghost use Rattle.fuse_spec.specs.World.Events.{is_read, read_forgets};
ghost use Rattle.fw_orders.specs.Attempts.{AreTried, Attempted, AttemptedIn, CannotHappen, ForgetRead, IsTried, ReplyTaken};
ghost use Rattle.fw_orders.specs.Attempts.{one_more_left, then_said, unique_read};
ghost use Rattle.fuse_text.specs.HexTexts.{hex_or_none};
ghost use Rattle.fw_orders.specs.Following.{IsMounted};
ghost use Rattle.fw_orders.specs.Saying.{act_of, write_event};
ghost use Rattle.fw_world.specs.Values.{event_of, outcome_of, read_of};
ghost use Rattle.order_law.specs.Moments.{Acts, Answered, Asked, Carried, Carries, Forgotten, InterruptRead, IsLacking};
ghost use Rattle.order_law.specs.Moments.{RepliesTaken, Stepped, line};

use crate::act::{Act, WriteCall};
use crate::stop::Stop;
use fuse_text::{is_hex_or_none, read_hex_or_none, write_number};
use fw_world::{Call, Event, Minor, Outcome, Pick, Refusal, Tables, WorldOf};
use std::marker::Model;

/// The most messages of an order: requests that are read, and replies that are taken.
pub(crate) const MAX_MESSAGES: u64 = 256;

/// How far an order has come.
#[derive(Drop)]
pub(crate) struct Moment<T: Tables> {
    alloc: T::Heap,
    world: WorldOf<T>,
    script: Vec<u8, T::Heap>,
    /// How many replies were left.
    left: u64,
    /// How many messages are in the script.
    messages: u64,
}

impl<T: Tables> Model for Moment<T> {
    ghost use Rattle.std.specs.Coded.{codes};
    ghost use Rattle.order_law.specs.Moments.{Moment as MomentValue};

    ghost Value = { MomentValue };

    ghost coded = { Prim.hlevel (codes) };

    ghost view = { λ m. record { world = m.world.sides; script = m.script.items; left = m.left } };
}

/// The number of the request that was read, where one was.
fn unique_of(outcome: Outcome) -> Option<u64>
    ensures { result ≡ unique_read outcome }
{
    match outcome {
        Outcome::Read { unique, .. } => Some(unique),
        _ => None,
    }
}

/// An event happens in a world, or is refused and changes nothing.
fn attempt_in<T: Tables>(world: &mut WorldOf<T>, event: &Event<'_>) -> Result<Option<Outcome>, Stop>
    ensures { IfOk result (λ outcome. AttemptedIn world.old.sides (event_of event.now)
        (option_map outcome_of outcome) world.new.sides) }
{
    match world.step(event) {
        Ok(outcome) => Ok(Some(outcome)),
        Err(Refusal::NoMemory) => Err(Stop::NoMemory),
        Err(_) => Ok(None),
    }
}

impl<T: Tables> Moment<T> {
    /// A mounted world, whose INIT is answered. Names are valid there for no time, so that each is looked up anew.
    pub(crate) fn new(alloc: T::Heap) -> Result<Self, Stop>
        ensures { IfOk result IsMounted }
    {
        let Ok(world) = WorldOf::<T>::new(alloc) else {
            return Err(Stop::NoMemory);
        };
        let mut moment = Moment {
            alloc,
            world,
            script: Vec::new(alloc),
            left: 0,
            messages: 0,
        };
        let mounted = moment.carry(&Act::Event {
            event: Event::Mount {
                found_ms: 0,
                missing_ms: 0,
                minor: Minor::M31,
            },
            text: b"mount 0 0",
        });
        match mounted {
            Ok(_) => Ok(moment),
            Err(stop) => {
                moment.end();
                Err(stop)
            }
        }
    }

    /// Ends the moment.
    pub(crate) fn end(self) {
        self.world.end();
    }

    /// Ends the moment, and gives its script.
    pub(crate) fn into_script(self) -> Vec<u8, T::Heap>
        ensures { result.items ≡ self.script }
    {
        let Moment {
            alloc: _,
            world,
            script,
            left: _,
            messages: _,
        } = self;
        world.end();
        script
    }

    /// Whether a reply was left.
    pub(crate) fn has_left(&self) -> bool
        ensures { result ≡ nat_lt 0 self.now.left }
    {
        self.left > 0
    }

    /// The script has further bytes.
    fn say(&mut self, text: &[u8]) -> Result<(), Stop>
        ensures { OnOk result (self.new ≡ then_said self.old text.now) }
    {
        match self.script.extend_from_slice(text) {
            Ok(()) => Ok(()),
            Err(_) => Err(Stop::NoMemory),
        }
    }

    /// The script has a number more.
    fn say_number(&mut self, number: u64) -> Result<(), Stop>
        ensures { OnOk result (self.new ≡ then_said self.old (decimal number)) }
    {
        match write_number(&mut self.script, number) {
            Ok(()) => Ok(()),
            Err(_) => Err(Stop::NoMemory),
        }
    }

    /// There is one message more.
    fn count_message(&mut self) -> Result<(), Stop>
        ensures { OnOk result (self.new ≡ self.old) }
    {
        if self.messages >= MAX_MESSAGES {
            return Err(Stop::TooLong);
        }
        self.messages += 1;
        Ok(())
    }

    /// The script has one message more.
    fn say_message(&mut self, text: &[u8]) -> Result<(), Stop>
        ensures { OnOk result (self.new ≡ then_said self.old text.now) }
    {
        self.count_message()?;
        self.say(text)
    }

    /// The script has one message more, with a number behind its words.
    fn say_numbered(&mut self, words: &[u8], number: u64) -> Result<(), Stop>
        ensures { OnOk result (self.new ≡ then_said self.old (words.now ++ decimal number ++ codes "\n")) }
    {
        self.say_message(words)?;
        self.say_number(number)?;
        self.say(b"\n")
    }

    /// One reply more is left.
    fn leave_reply(&mut self) -> Result<(), Stop>
        ensures { OnOk result (self.new ≡ one_more_left self.old) }
    {
        let Some(left) = self.left.checked_add(1) else {
            return Err(Stop::TooLong);
        };
        self.left = left;
        Ok(())
    }

    /// An event happens, or is refused and changes nothing.
    fn attempt(&mut self, event: &Event<'_>) -> Result<Option<Outcome>, Stop>
        ensures { IfOk result (λ outcome. Attempted self.old (event_of event.now)
            (option_map outcome_of outcome) self.new) }
    {
        attempt_in(&mut self.world, event)
    }

    /// An event is tried.
    fn try_event(&mut self, event: &Event<'_>) -> Result<(), Stop>
        ensures { OnOk result (IsTried self.old (event_of event.now) self.new) }
    {
        self.attempt(event)?;
        Ok(())
    }

    /// Two events are tried, one after the other.
    fn try_both(&mut self, first: &Event<'_>, second: &Event<'_>) -> Result<(), Stop>
        ensures { OnOk result (AreTried self.old (event_of first.now ∷ event_of second.now ∷ []) self.new) }
    {
        self.try_event(first)?;
        self.try_event(second)
    }

    /// A request is read, if there is one, and its number given.
    fn read(&mut self, pick: Pick) -> Result<Option<u64>, Stop>
        ensures { IfOk result (λ unique. Attempted self.old (read_of pick) (option_map is_read unique) self.new) }
    {
        match self.attempt(&Event::Read(pick))? {
            Some(outcome) => Ok(unique_of(outcome)),
            None => Ok(None),
        }
    }

    /// What a line says happens, or is refused and changes nothing.
    fn follow_line(&mut self, text: &[u8], event: &Event<'_>) -> Result<(), Stop>
        ensures { OnOk result (Acts self.old (line text.now (event_of event.now)) self.new) }
    {
        self.say(text)?;
        self.say(b"\n")?;
        self.try_event(event)
    }

    /// The same of a call, with the bytes that its hex spells.
    fn follow_bytes(&mut self, text: &[u8], call: WriteCall<'_>, bytes: &[u8]) -> Result<(), Stop>
        requires { call.hex.now ≡ hex_or_none bytes.now }
        ensures { OnOk result (Acts self.old (line text.now (write_event call.entry)) self.new) }
    {
        let made = Call::Write {
            open_call: call.open_call,
            offset: call.offset,
            bytes,
        };
        self.follow_line(text, &Event::Call(made))
    }

    /// The same of a call whose bytes are in hex.
    fn follow_write(&mut self, text: &[u8], call: WriteCall<'_>) -> Result<(), Stop>
        ensures { OnOk result (Acts self.old (line text.now (write_event call.entry)) self.new) }
    {
        if !is_hex_or_none(call.hex) {
            return Err(Stop::NoMemory);
        }
        let mut bytes = Vec::new(self.alloc);
        match read_hex_or_none(&mut bytes, call.hex) {
            Ok(()) => {
                let spelled = bytes.as_slice();
                self.follow_bytes(text, call, spelled)
            }
            Err(_) => Err(Stop::NoMemory),
        }
    }

    /// The INTERRUPT that a signal queued is read, if it queued one.
    fn read_interrupt(&mut self) -> Result<(), Stop>
        ensures { OnOk result (InterruptRead self.old self.new) }
    {
        let Some(_unique) = self.read(Pick::Interrupt)? else {
            return Ok(());
        };
        self.say_message(b"read i\n")?;
        self.try_event(&Event::Take(0))
    }

    /// The request at a place of the pending ones is read, and the server performs it. Says whether there is one.
    pub(crate) fn ask(&mut self, place: u64) -> Result<bool, Stop>
        ensures { IfOk result (λ is_there. MatchBool is_there (Asked self.old place self.new)
            (IsLacking self.old place × (self.new ≡ self.old))) }
    {
        let Some(unique) = self.read(Pick::Pending(place))? else {
            return Ok(false);
        };
        self.say_numbered(b"read p ", place)?;
        self.try_both(&Event::Take(0), &Event::Do(unique))?;
        self.leave_reply()?;
        self.read_interrupt()?;
        Ok(true)
    }

    /// One reply less is left. Says whether one was.
    fn count_reply(&mut self) -> bool
        ensures { MatchBool result (self.old ≡ one_more_left self.new) ((self.old.left ≡ 0) × (self.new ≡ self.old)) }
    {
        if self.left == 0 {
            return false;
        }
        self.left -= 1;
        true
    }

    /// The oldest reply that was left is taken. Says whether there was one.
    fn take_reply(&mut self) -> Result<bool, Stop>
        ensures { IfOk result (λ is_taken. MatchBool is_taken (ReplyTaken self.old self.new)
            ((self.old.left ≡ 0) × (self.new ≡ self.old))) }
    {
        if !self.count_reply() {
            return Ok(false);
        }
        self.say_message(b"write\n")?;
        self.try_both(&Event::Write(0), &Event::Settle(0))?;
        Ok(true)
    }

    /// All replies that were left are taken.
    fn take_replies(&mut self) -> Result<(), Stop>
        ensures { OnOk result (RepliesTaken self.old self.new) }
    {
        for _message in 0..=MAX_MESSAGES {
            if !self.take_reply()? {
                return Ok(());
            }
        }
        Err(Stop::TooLong)
    }

    /// The request at a place of the pending ones is read, and its reply taken. Says whether there is one.
    pub(crate) fn trip(&mut self, place: u64) -> Result<bool, Stop>
        ensures { IfOk result (λ is_there. MatchBool is_there (Answered self.old place self.new)
            (IsLacking self.old place × (self.new ≡ self.old))) }
    {
        if !self.ask(place)? {
            return Ok(false);
        }
        self.take_replies()?;
        Ok(true)
    }

    /// A forget that is queued is read. Says whether there was one.
    fn read_forget(&mut self) -> Result<bool, Stop>
        ensures { IfOk result (λ is_there. MatchBool is_there (ForgetRead self.old self.new)
            (CannotHappen self.old (read_forgets 1) × (self.new ≡ self.old))) }
    {
        let Some(_unique) = self.read(Pick::Forgets(1))? else {
            return Ok(false);
        };
        self.say_message(b"read f 1\n")?;
        self.try_event(&Event::Take(0))?;
        Ok(true)
    }

    /// All forgets that are queued are read, one by one.
    fn forget(&mut self) -> Result<(), Stop>
        ensures { OnOk result (Forgotten self.old self.new) }
    {
        for _message in 0..=MAX_MESSAGES {
            if !self.read_forget()? {
                return Ok(());
            }
        }
        Err(Stop::TooLong)
    }

    /// A step of the kernel.
    pub(crate) fn act(&mut self, act: &Act<'_>) -> Result<(), Stop>
        ensures { OnOk result (Acts self.old (act_of act.now) self.new) }
    {
        match *act {
            Act::Event { event, text } => self.follow_line(text, &event),
            Act::Write { call, text } => self.follow_write(text, call),
            Act::Forget => self.forget(),
        }
    }

    /// A step of the kernel, after which all replies that were left are taken.
    pub(crate) fn step(&mut self, act: &Act<'_>) -> Result<(), Stop>
        ensures { OnOk result (Stepped self.old (act_of act.now) self.new) }
    {
        self.act(act)?;
        self.read_interrupt()?;
        self.take_replies()
    }

    /// All requests that are pending are answered, the oldest first.
    fn answer_all(&mut self) -> Result<(), Stop>
        ensures { OnOk result (Carried self.old self.new) }
    {
        for _message in 0..=MAX_MESSAGES {
            if !self.trip(0)? {
                return Ok(());
            }
        }
        Err(Stop::TooLong)
    }

    /// A step of the kernel whose requests are answered, the oldest first.
    pub(crate) fn carry(&mut self, act: &Act<'_>) -> Result<(), Stop>
        ensures { OnOk result (Carries self.old (act_of act.now) self.new) }
    {
        self.act(act)?;
        self.answer_all()
    }
}
