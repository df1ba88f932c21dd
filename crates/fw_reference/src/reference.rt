//! Calls, each made and carried to its answer.

ghost use Rattle.std.specs.Prelude.{◌≡◌, ◌≢◌, [], None, IfErr, IfOk, IfSome, OnErr, OnOk, option_map, slice_get};
ghost use Rattle.fuse_spec.specs.Values.Maps.{put};
ghost use Rattle.fuse_spec.specs.World.Worlds.{first_world};
ghost use Rattle.fuse_spec.specs.declared.Refusal.TheVariants.{NoMemory};
ghost use Rattle.fk_syscalls.specs.Values.{answer_of, call_of};
ghost use Rattle.fw_reference.specs.Reference.{GoesOn, IsMade, call_here, number_here, numbers_with};

use fuse_tables::RisingTable;
use fw_world::{Answer, Call, Event, Minor, Outcome, Pick, Refusal, Tables, Taken, WorldOf};

/// How long a name is valid: names are looked up each time.
const VALID_MS: u64 = 0;

/// The number of no call.
const NO_CALL: u64 = 0;

/// A world whose server performs each request at once, beside a kernel of which the same calls are asked. Calls have
/// numbers of their own here.
#[derive(Drop)]
pub struct Reference<T: Tables> {
    world: WorldOf<T>,
    /// The number here of each call that may have opened a file, by its number there.
    numbers: RisingTable<u64, T::Heap>,
}

impl<T: Tables> Reference<T> {
    /// A world before its first mount.
    ///
    /// # Errors
    ///
    /// `NoMemory`.
    pub fn new(alloc: T::Heap) -> Result<Self, Refusal>
        ensures first { IfOk result (λ reference. reference.world.sides ≡ first_world) }
        ensures numbers { IfOk result (λ reference. reference.numbers.entries ≡ []) }
        ensures refusal { IfErr result (λ refusal. refusal ≡ NoMemory) }
    {
        let world = WorldOf::<T>::new(alloc)?;
        Ok(Reference {
            world,
            numbers: RisingTable::new(alloc),
        })
    }

    /// Ends the world.
    pub fn end(self) {
        self.world.end();
    }

    /// One event happens, or is refused.
    fn step(&mut self, event: &Event<'_>) -> Result<Outcome, Refusal>
        ensures { GoesOn self.old.world.sides self.new.world.sides × (self.new.numbers ≡ self.old.numbers) }
    {
        self.world.step(event)
    }

    /// The request that has waited longest is served. Says whether there was one.
    fn serve_one(&mut self) -> Result<bool, Refusal>
        ensures { GoesOn self.old.world.sides self.new.world.sides × (self.new.numbers ≡ self.old.numbers) }
    {
        let unique = match self.step(&Event::Read(Pick::Pending(0))) {
            Ok(Outcome::Read { unique, .. }) => unique,
            Ok(_) | Err(Refusal::NoSuch | Refusal::NotReady) => return Ok(false),
            Err(refusal) => return Err(refusal),
        };
        if let Outcome::Taken {
            word: Taken::Held,
            ..
        } = self.step(&Event::Take(0))?
        {
            self.step(&Event::Do(unique))?;
            self.step(&Event::Write(0))?;
            self.step(&Event::Settle(0))?;
        }
        Ok(true)
    }

    /// All requests are served.
    fn serve_all(&mut self) -> Result<(), Refusal>
        ensures { GoesOn self.old.world.sides self.new.world.sides × (self.new.numbers ≡ self.old.numbers) }
    {
        for _request in 0..u64::MAX {
            if !self.serve_one()? {
                break;
            }
        }
        Ok(())
    }

    /// An event happens, if it is not refused, and then all requests are served.
    ///
    /// # Errors
    ///
    /// `NoMemory`, or another refusal as requests are served.
    pub fn follow(&mut self, event: &Event<'_>) -> Result<(), Refusal>
        ensures { GoesOn self.old.world.sides self.new.world.sides × (self.new.numbers ≡ self.old.numbers) }
    {
        match self.step(event) {
            Err(Refusal::NoMemory) => Err(Refusal::NoMemory),
            _ => self.serve_all(),
        }
    }

    /// The world mounts, with names that are looked up each time, and INIT is answered.
    ///
    /// # Errors
    ///
    /// `NoMemory`, or another refusal: calls wait, or files are open.
    pub fn mount(&mut self) -> Result<(), Refusal>
        ensures { GoesOn self.old.world.sides self.new.world.sides × (self.new.numbers ≡ self.old.numbers) }
    {
        let _mounted = self.step(&Event::Mount {
            found_ms: VALID_MS,
            missing_ms: VALID_MS,
            minor: Minor::M31,
        })?;
        self.serve_all()
    }

    /// Makes a call, by the numbers here, and serves all requests. Gives its number here, where it is accepted.
    ///
    /// # Errors
    ///
    /// `NoMemory`, or another refusal as requests are served.
    pub fn carry(&mut self, call: &Call<'_>) -> Result<Option<u64>, Refusal>
        ensures made { IfOk result (λ number. IsMade self.old.world.sides (call_of call.now) number self.new.world.sides) }
        ensures goes_on { GoesOn self.old.world.sides self.new.world.sides × (self.new.numbers ≡ self.old.numbers) }
    {
        let outcome = match self.world.step(&Event::Call(*call)) {
            Ok(outcome) => outcome,
            Err(refusal) => return unless_memory(refusal),
        };
        let Outcome::Begun { call } = outcome else {
            return Ok(None);
        };
        self.serve_all()?;
        Ok(Some(call))
    }

    /// The number here of the call that opened a file. One that opened none has none.
    fn number_here(&self, open_call: u64) -> u64
        ensures { result ≡ number_here self.now.numbers.entries open_call }
    {
        match self.numbers.get(open_call) {
            Some(number) => *number,
            None => NO_CALL,
        }
    }

    /// A call by the numbers here.
    fn call_here<'a>(&self, call: &Call<'a>) -> Call<'a>
        ensures { result ≡ call_here self.now.numbers.entries call.now }
    {
        match *call {
            Call::Read {
                open_call,
                offset,
                size,
            } => Call::Read {
                open_call: self.number_here(open_call),
                offset,
                size,
            },
            Call::Write {
                open_call,
                offset,
                bytes,
            } => Call::Write {
                open_call: self.number_here(open_call),
                offset,
                bytes,
            },
            Call::Close { open_call } => Call::Close {
                open_call: self.number_here(open_call),
            },
            call => call,
        }
    }

    /// Notes that the call which has a number there, and may have opened a file, has this number here.
    ///
    /// # Errors
    ///
    /// `NoMemory`.
    pub fn note_number(&mut self, number: u64, here: u64) -> Result<(), Refusal>
        ensures noted { OnOk result (self.new.numbers.entries ≡ put self.old.numbers.entries number here) }
        ensures refused { OnErr result (self.new.numbers.entries ≡ self.old.numbers.entries) }
        ensures refusal { IfErr result (λ refusal. refusal ≡ NoMemory) }
        ensures world { self.new.world ≡ self.old.world }
    {
        if self.numbers.replace(number, here).is_some() {
            return Ok(());
        }
        if self.numbers.reserve(1).is_err() {
            return Err(Refusal::NoMemory);
        }
        self.numbers.put(number, here);
        Ok(())
    }

    /// Makes a call that has a number there, and notes its number here, if it may open a file. Gives that number, where the
    /// call is accepted.
    ///
    /// # Errors
    ///
    /// As `carry` and `note_number`.
    pub fn make(&mut self, call: &Call<'_>, number: u64) -> Result<Option<u64>, Refusal>
        ensures made { IfOk result (λ here. IsMade self.old.world.sides
            (call_of (call_here self.old.numbers.entries call.now)) here self.new.world.sides) }
        ensures numbers { IfOk result (λ here. self.new.numbers.entries
            ≡ numbers_with self.old.numbers.entries call.now number here) }
        ensures goes_on { GoesOn self.old.world.sides self.new.world.sides }
    {
        let call_here = self.call_here(call);
        let Some(here) = self.carry(&call_here)? else {
            return Ok(None);
        };
        if matches!(call, Call::Open { .. } | Call::Create { .. }) {
            self.note_number(number, here)?;
        }
        Ok(Some(here))
    }

    /// Collects the answer of the call that was made, if it is answered.
    pub fn collect(&mut self) -> Option<Answer<T::Heap>>
        ensures answer { option_map (λ answer. answer_of answer) result
            ≡ option_map (λ answered. answered.1) (slice_get self.old.world.sides.kernel.vfs.answers 0) }
        ensures goes_on { GoesOn self.old.world.sides self.new.world.sides × (self.new.numbers ≡ self.old.numbers) }
    {
        match self.world.collect() {
            Some((_call, answer)) => Some(answer),
            None => None,
        }
    }
}

/// What comes of a call that is refused: nothing, unless memory ran out.
fn unless_memory(refusal: Refusal) -> Result<Option<u64>, Refusal>
    ensures out { IfErr result (λ why. why ≡ refusal) }
    ensures none { IfOk result (λ number. (number ≡ None) × (refusal ≢ NoMemory)) }
{
    match refusal {
        Refusal::NoMemory => Err(refusal),
        _ => Ok(None),
    }
}
