//! A source of lines in which calls have names.

ghost use Rattle.std.specs.Prelude.{◌≡◌, [], IfOk, None, OnOk, if◌then◌else◌, option_copied, option_map};
ghost use Rattle.fw_call_names.specs.CallNames.{begun_of, names_of};
ghost use Rattle.fw_call_names.specs.Naming as naming;
ghost use Rattle.fw_call_names.specs.Naming.{call_begun, given_line, names_bound};

use crate::name::{CallName, NO_CALL};
use crate::named::make_given;
use fw_drive::{KernelView, LineSource, NoLine, Standing};
use std::alloc::{AllocError, Allocator};
use std::io::Write;

/// The lines that stand for those of another source, in which calls have names.
///
/// A line of five words or more that begins with `call` and ends with `as` and a name, which is a word that begins with a
/// letter, names its call; these two words are left out. In later lines the name stands for the number of the call: behind
/// `intr`, and behind `call read`, `call write` and `call close`. It stands for 0, the number of no call, if the call was
/// refused, and for the newest call if it is given again. A name that no call has stays, and so does all else.
#[derive(Drop)]
pub struct NamedLines<S: Drop, A: Allocator + Copy> {
    source: S,
    alloc: A,
    /// The calls that have names, the newest last.
    names: Vec<CallName<A>, A>,
    /// The call that the line before began, with the number that it got if it was not refused.
    begun: Option<CallName<A>>,
    /// The line that the other source gave.
    raw: Vec<u8, A>,
}

/// The number of a call that was begun, by the one that the next call gets.
fn number_made(number: u64, next_call: u64) -> u64
    ensures { result ≡ naming.number_made number next_call }
{
    if next_call == number { NO_CALL } else { number }
}

/// The call that was begun has its name from now on.
fn bind<A: Allocator>(
    names: &mut Vec<CallName<A>, A>,
    begun: Option<CallName<A>>,
    next_call: u64,
) -> Result<(), AllocError>
    ensures { OnOk result (names_of names.new.items
        ≡ names_bound (names_of names.old.items) (begun_of begun) next_call) }
{
    let Some(mut call) = begun else {
        return Ok(());
    };
    call.number = number_made(call.number, next_call);
    names.push(call)?;
    Ok(())
}

/// The call that a line begins with a name.
pub(crate) fn begin<A: Allocator>(
    alloc: A,
    name: Option<&[u8]>,
    next_call: u64,
) -> Result<Option<CallName<A>>, AllocError>
    ensures { IfOk result (λ begun. begun_of begun
        ≡ option_map (λ word. (word, next_call)) (option_copied name.entry)) }
{
    match name {
        Some(name) => Ok(Some(CallName {
            name: Vec::from_slice(alloc, name)?,
            number: next_call,
        })),
        None => Ok(None),
    }
}

impl<S: Drop, A: Allocator + Copy> NamedLines<S, A> {
    /// The lines that stand for those of a source. No call has a name yet.
    pub fn new(alloc: A, source: S) -> Self
        ensures source { result.source ≡ source }
        ensures names { result.names.items ≡ [] }
        ensures begun { result.begun ≡ None }
    {
        NamedLines {
            source,
            alloc,
            names: Vec::new(alloc),
            begun: None,
            raw: Vec::new(alloc),
        }
    }

    /// Makes a text the line that stands for the raw one.
    fn give<B: Allocator>(
        &mut self,
        next_call: u64,
        line: &mut Vec<u8, B>,
    ) -> Result<(), AllocError>
        ensures line { OnOk result (line.new.items ≡ given_line
            (names_bound (names_of self.old.names.items) (begun_of self.old.begun) next_call) self.old.raw.items) }
        ensures names { OnOk result (names_of self.new.names.items
            ≡ names_bound (names_of self.old.names.items) (begun_of self.old.begun) next_call) }
        ensures begun { OnOk result (begun_of self.new.begun ≡ call_begun next_call self.old.raw.items) }
        ensures same { (self.new.source ≡ self.old.source) × (self.new.raw ≡ self.old.raw) }
    {
        bind(&mut self.names, self.begun.take(), next_call)?;
        let name = make_given(self.alloc, self.names.as_slice(), self.raw.as_slice(), line)?;
        self.begun = begin(self.alloc, name, next_call)?;
        Ok(())
    }
}

impl<S: LineSource<O> + Drop, A: Allocator + Copy, O: Write> LineSource<O> for NamedLines<S, A> {
    ghost use Rattle.std.specs.Prelude.{◌∷◌, MatchBool};
    ghost use Rattle.std.specs.Io.KnownBytes.{Keeps as KeepsContents};
    ghost use Rattle.fw_call_names.specs.Given.{GivesNamed, lines_in_turn, none_named};

    ghost gives = { λ old new lines. GivesNamed S.gives old new lines };

    ghost is_over = { λ lines. S.is_over lines.source };

    /// Gives the line that stands for the next one of the other source. The call that the line before began was refused
    /// if the next call still gets its number.
    ///
    /// # Errors
    ///
    /// Why the other source gives none; or out of memory, and then the line that it gave is lost.
    fn next_line<B: Allocator, V: KernelView>(
        &mut self,
        standing: Standing,
        kernel: &V,
        out: &mut O,
        line: &mut Vec<u8, B>,
    ) -> Result<bool, NoLine>
        ensures silent { KeepsContents (O.contents out.old) (O.contents out.new) }
        ensures given { IfOk result (λ is_given. MatchBool is_given
            (GivesNamed S.gives self.old self.new (line.new.items ∷ []))
            (GivesNamed S.gives self.old self.new [] × S.is_over self.new.source)) }
        ensures names { IfOk result (λ is_given. names_of self.new.names.items
            ≡ (if is_given then names_bound (names_of self.old.names.items) (begun_of self.old.begun) standing.next_call
            else names_of self.old.names.items)) }
        ensures begun { IfOk result (λ is_given. begun_of self.new.begun
            ≡ (if is_given then call_begun standing.next_call self.new.raw.items else begun_of self.old.begun)) }
    {
        match self.source.next_line(standing, kernel, out, &mut self.raw) {
            Ok(true) => match self.give(standing.next_call, line) {
                Ok(()) => Ok(true),
                Err(_) => Err(NoLine::NoMemory),
            },
            Ok(false) => Ok(false),
            Err(why) => Err(why),
        }
    }

    ghost stays = { none_named S.gives S.stays };

    ghost goes_on = { lines_in_turn S.gives S.goes_on };
}
