//! A source of lines, for one whose lines may stand for several.

ghost use Rattle.std.specs.Prelude.{◌≡◌, ◌∷◌, [], ℕ, IfOk, List, MatchBool, Option};
ghost use Rattle.std.specs.Io.KnownBytes.{Keeps as KeepsContents};
ghost use Rattle.fw_expand.specs.Expanding as expanding;
ghost use Rattle.fw_expand.specs.Expanding.{Gives, IsOver, Now, begun};
ghost use Rattle.fw_expand.specs.declared.rest.Rest.TheVariants.{Nothing};

use crate::beginning::begin;
use crate::giving::give;
use crate::rest::Rest;
use fw_drive::{Form, KernelView, LineSource, NoLine, Standing};
use std::alloc::{AllocError, Allocator};
use std::io::Write;

/// The lines that stand for those of another source, of which some stand for several. What these give is what the kernel
/// has as they do:
///
/// - `forget`: `read f 1` as long as a forget may be read; nothing in a script of calls, where forgets are sent without it
/// - `evict all`: `drop DIR NAME` as long as a name is cached, and then `evict NODE` as long as a node may be evicted
/// - `evict PATH`, with a slash before the path: `drop DIR NAME` of its last name, and `evict NODE` of its node; or `evict 0`,
///   which the kernel refuses, where the cached names do not lead to one
/// - `call list PATH all` and `call listplus PATH all`, in a script of calls: `call list PATH 0`, and then the same behind the
///   last name that was listed, until none is or the call fails, 10,000 calls at most
///
/// All other lines are given as they are.
#[derive(Drop)]
pub struct ExpandedLines<S: Drop, A: Allocator + Copy> {
    source: S,
    alloc: A,
    /// Whether the script is one of calls.
    is_of_calls: bool,
    /// The line that the other source gave.
    raw: Vec<u8, A>,
    /// What the lines have that are to come.
    text: Vec<u8, A>,
    rest: Rest,
}

/// Whether a script is one of calls.
pub(crate) fn is_of_calls(form: Form) -> bool
    ensures { result ≡ expanding.is_of_calls form }
{
    match form {
        Form::Events => false,
        Form::Calls | Form::CallsBeside => true,
    }
}

impl<S: Drop, A: Allocator + Copy> ExpandedLines<S, A> {
    /// The lines that stand for those of a source, in a script of this form.
    pub fn new(alloc: A, form: Form, source: S) -> Self
        ensures source { result.source ≡ source }
        ensures form { result.is_of_calls ≡ expanding.is_of_calls form }
        ensures rest { result.rest ≡ Nothing }
    {
        ExpandedLines {
            source,
            alloc,
            is_of_calls: is_of_calls(form),
            raw: Vec::new(alloc),
            text: Vec::new(alloc),
            rest: Rest::Nothing,
        }
    }

    /// Gives the next line of those that are to come. Says whether there is one.
    fn give_next<V: KernelView, B: Allocator>(
        &mut self,
        standing: Standing,
        kernel: &V,
        line: &mut Vec<u8, B>,
    ) -> Result<bool, AllocError>
        ensures given { (name : Option (ℕ × List ℕ)) × V.drops kernel.now name
            × (let now : Now = (standing.is_forgetting, expanding.sayable name, V.evicts kernel.now) in
            IfOk result (λ is_given. MatchBool is_given
            (Gives now self.old.text.items self.old.rest line.new.items self.new.rest)
            (IsOver now self.old.rest × (self.new.rest ≡ self.old.rest)))) }
        ensures same { (self.new.source ≡ self.old.source) × (self.new.text.items ≡ self.old.text.items)
            × (self.new.is_of_calls ≡ self.old.is_of_calls) }
    {
        let text = self.text.as_slice();
        match give(kernel, standing.is_forgetting, text, self.rest, line)? {
            Some(rest) => {
                self.rest = rest;
                Ok(true)
            }
            None => Ok(false),
        }
    }

    /// Takes the next line of the other source. Says whether there was one.
    fn take_next<O: Write, V: KernelView>(
        &mut self,
        standing: Standing,
        kernel: &V,
        out: &mut O,
    ) -> Result<bool, NoLine>
    where
        S: LineSource<O>,
        ensures silent { KeepsContents (O.contents out.old) (O.contents out.new) }
        ensures taken { IfOk result (λ is_given. MatchBool is_given
            (S.gives self.old.source self.new.source (self.new.raw.items ∷ [])
            × ((self.new.text.items, self.new.rest) ≡ begun (V.leads kernel.now) self.old.is_of_calls self.new.raw.items))
            (S.gives self.old.source self.new.source [] × S.is_over self.new.source
            × (self.new.text.items ≡ self.old.text.items) × (self.new.rest ≡ self.old.rest))) }
        ensures same { self.new.is_of_calls ≡ self.old.is_of_calls }
    {
        match self.source.next_line(standing, kernel, out, &mut self.raw) {
            Ok(true) => {
                let raw = self.raw.as_slice();
                match begin(self.alloc, kernel, self.is_of_calls, raw, &mut self.text) {
                    Ok(rest) => {
                        self.rest = rest;
                        Ok(true)
                    }
                    Err(_) => Err(NoLine::NoMemory),
                }
            }
            Ok(false) => Ok(false),
            Err(why) => Err(why),
        }
    }
}

impl<S: LineSource<O> + Drop, A: Allocator + Copy, O: Write> LineSource<O> for ExpandedLines<S, A> {
    ghost use Rattle.fw_expand.specs.Given.{GivesExpanded, lines_in_turn, none_expanded};

    ghost gives = { λ old new lines. GivesExpanded S.gives old new lines };

    ghost is_over = { λ lines. S.is_over lines.source };

    /// Gives the next line of those that a line of the other source stands for.
    ///
    /// # Errors
    ///
    /// Why the other source gives none; or out of memory, and then the line that it gave is lost.
    fn next_line<B: Allocator, V: KernelView>(
        &mut self,
        standing: Standing,
        kernel: &V,
        out: &mut O,
        line: &mut Vec<u8, B>,
    ) -> Result<bool, NoLine> {
        for _taken in 0..u64::MAX {
            match self.give_next(standing, kernel, line) {
                Ok(true) => return Ok(true),
                Ok(false) => {}
                Err(_) => return Err(NoLine::NoMemory),
            }
            match self.take_next(standing, kernel, out) {
                Ok(true) => {}
                Ok(false) => return Ok(false),
                Err(why) => return Err(why),
            }
        }
        Err(NoLine::NoMemory)
    }

    ghost stays = { none_expanded S.gives S.stays };

    ghost goes_on = { lines_in_turn S.gives S.goes_on };
}
