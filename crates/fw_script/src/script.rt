//! The run of a script.

ghost use Rattle.std.specs.Prelude.{◌≡◌, ◌≢◌, ◌⊎◌, ◌++◌, ◌∷◌, [], ℕ, List, Option, All, Contains, IfErr, IfOk, IfSome};
ghost use Rattle.std.specs.Prelude.{Bool, true, false, OnErr, OnOk, codes, option_map};
ghost use Rattle.std.specs.Io.KnownBytes.{Appends, Keeps};
ghost use Rattle.fuse_text.specs.HexTexts.{IsHexOrNone};
ghost use Rattle.fw_script.specs.Lines.{IsWritten, LineHasWords};
ghost use Rattle.fuse_text.specs.Outputs.{AppendsSome};
ghost use Rattle.fuse_text.specs.Nodes.{nodes_text};
ghost use Rattle.fw_script.specs.Records.{event_text};
ghost use Rattle.fw_script.specs.Endings.{EndsScript};
ghost use Rattle.fw_script.specs.Running.{InputEnds, IsEither, LineEnds, LinesEnd, OverEnds, ReadingEnds, RunEnds, Say};
ghost use Rattle.fw_script.specs.Running.{SessionEnds, UnreadEnds};
ghost use Rattle.fw_script.specs.Scripts.{IsGoodScript, IsPut, IsRunOf, IsRunOver, PrintsAll, PrintsFirst};
ghost use Rattle.fw_script.specs.Scripts.{PrintsSome, LineSaysEvent, SaysShow};
ghost use Rattle.fuse_text.specs.Lines.{lines_of};
ghost use Rattle.fw_script.specs.Stops.{SaysFault};
ghost use Rattle.fuse_text.specs.Stops.{status_of};
ghost use Rattle.fuse_text.specs.Words.{words_of};

use crate::line::{Line, LineFault};
use crate::lines::read_lines;
use crate::machine::Machine;
use crate::records::write_event;
use fuse_spec::NodeCount;
use fuse_text::{LOST, OutputRefused, Stop, read_hex_or_none, write_nodes};
use fw_link::Link;
use fw_world::{Call, Event, Lists, Maps, Record, SessionOf, Tables, WorldOf};
use std::alloc::{AllocError, Allocator, Global};
use std::io::{ErrorKind, Read, Write};
use std::marker::Model;

/// The most records that one event results in: its own, one of a lost link, and an answer for each
/// of 64 calls.
const MAX_RECORDS: usize = 66;

/// Room that one event after another uses: its records, and the bytes that a call puts into a file.
#[derive(Drop)]
struct Room<A: Allocator> {
    records: Vec<Record<A>, A>,
    bytes: Vec<u8, A>,
}

/// The frame that the event with these records put, if frames are printed.
fn frame_put<'m, A: Allocator + Copy, M: Machine<A>>(
    machine: &'m M,
    records: &[Record<A>],
    hex: bool,
) -> Option<&'m [u8]>
    ensures { IsPut M.acts hex (M.state machine.now) records.now (option_map (λ bytes. bytes.now) result) }
{
    match records.first() {
        Some(Record::Outcome(outcome)) if hex => machine.frame_of(outcome),
        _ => None,
    }
}

/// Writes what an event with these records came to.
#[inline(always)]
fn write_records<A: Allocator + Copy, M: Machine<A>, W: Write>(
    machine: &M,
    records: &[Record<A>],
    hex: bool,
    out: &mut W,
) -> Result<(), OutputRefused>
    ensures ok { OnOk result ((put : Option (List ℕ)) × IsPut M.acts hex (M.state machine.now) records.now put
        × Appends (W.contents out.old) (W.contents out.new) (event_text records.now put)) }
    ensures refused { OnErr result ((put : Option (List ℕ)) × IsPut M.acts hex (M.state machine.now) records.now put
        × AppendsSome (W.contents out.old) (W.contents out.new) (event_text records.now put)) }
{
    let frame = frame_put(machine, records, hex);
    write_event(out, records, frame)
}

/// Runs one event, and writes what it came to.
#[inline(always)]
fn run_event<A: Allocator + Copy, M: Machine<A>, W: Write>(
    machine: &mut M,
    event: &Event<'_>,
    records: &mut Vec<Record<A>, A>,
    hex: bool,
    out: &mut W,
) -> Result<(), Stop<LineFault>>
    ensures { LineEnds M.acts hex (M.state machine.old) (λ line. LineSaysEvent line event.now) (M.state machine.new)
        result (W.contents out.old) (W.contents out.new) }
{
    records.clear();
    if machine.run(event, records).is_err() {
        return Err(Stop::NoMemory);
    }
    match write_records(machine, records.as_slice(), hex, out) {
        Ok(()) => Ok(()),
        Err(_) => Err(Stop::OutputRefused),
    }
}

/// The event that a call is which puts bytes into an open file. Its bytes are read from hex.
fn event_of_write<'a, A: Allocator>(
    bytes: &'a mut Vec<u8, A>,
    open_call: u64,
    offset: u64,
    hex: &[u8],
) -> Result<Event<'a>, AllocError>
    requires { IsHexOrNone hex.now }
    ensures { IfOk result (λ event. (line : List ℕ) → LineHasWords (Line.CallWrite open_call offset hex.entry) (words_of line)
        → LineSaysEvent line event) }
{
    read_hex_or_none(bytes, hex)?;
    Ok(Event::Call(Call::Write {
        open_call,
        offset,
        bytes: bytes.as_slice(),
    }))
}

/// Writes the lines of both sides' nodes.
fn write_tables<W: Write>(
    out: &mut W,
    kernel: &[NodeCount],
    server: &[NodeCount],
) -> Result<(), OutputRefused>
    ensures ok { OnOk result (Appends (W.contents out.old) (W.contents out.new)
        (nodes_text (codes "kernel") kernel.now ++ nodes_text (codes "server") server.now)) }
    ensures refused { OnErr result (AppendsSome (W.contents out.old) (W.contents out.new)
        (nodes_text (codes "kernel") kernel.now ++ nodes_text (codes "server") server.now)) }
{
    write_nodes(out, b"kernel", kernel)?;
    write_nodes(out, b"server", server)
}

/// Writes these nodes, which the kernel counts and the server holds.
fn show_nodes<A: Allocator + Copy, M: Machine<A>, W: Write>(
    machine: &M,
    kernel: &[NodeCount],
    server: &[NodeCount],
    out: &mut W,
) -> Result<(), Stop<LineFault>>
    requires counted { kernel.now ≡ M.acts.counted (M.state machine.now) }
    requires held { server.now ≡ M.acts.held (M.state machine.now) }
    ensures { (hex : Bool) → LineEnds M.acts hex (M.state machine.now) SaysShow (M.state machine.now)
        result (W.contents out.old) (W.contents out.new) }
{
    let _ = machine;
    match write_tables(out, kernel, server) {
        Ok(()) => Ok(()),
        Err(_) => Err(Stop::OutputRefused),
    }
}

/// Writes the nodes that the kernel counts and those that the server holds.
fn show<A: Allocator + Copy, M: Machine<A>, W: Write>(
    machine: &M,
    out: &mut W,
) -> Result<(), Stop<LineFault>>
    ensures { (hex : Bool) → LineEnds M.acts hex (M.state machine.now) SaysShow (M.state machine.now)
        result (W.contents out.old) (W.contents out.new) }
{
    let Ok(kernel) = machine.kernel_nodes() else {
        return Err(Stop::NoMemory);
    };
    let Ok(server) = machine.server_nodes() else {
        return Err(Stop::NoMemory);
    };
    show_nodes(machine, kernel.as_slice(), server.as_slice(), out)
}

/// Does what a line says, and writes what it came to.
fn run_line<A: Allocator + Copy, M: Machine<A>, W: Write>(
    machine: &mut M,
    line: &Line<'_>,
    room: &mut Room<A>,
    hex: bool,
    out: &mut W,
) -> Result<(), Stop<LineFault>>
    requires { IsWritten line.now }
    ensures { LineEnds M.acts hex (M.state machine.old) (λ text. LineHasWords line.now (words_of text)) (M.state machine.new)
        result (W.contents out.old) (W.contents out.new) }
{
    match line {
        Line::Event(event) => run_event(machine, event, &mut room.records, hex, out),
        Line::CallWrite {
            open_call,
            offset,
            hex: bytes,
        } => match event_of_write(&mut room.bytes, *open_call, *offset, bytes) {
            Ok(event) => run_event(machine, &event, &mut room.records, hex, out),
            Err(_) => Err(Stop::NoMemory),
        },
        Line::Show => show(machine, out),
    }
}

/// Does what the lines of a script say, one after another.
fn run_lines<A: Allocator + Copy, M: Machine<A>, W: Write>(
    machine: &mut M,
    lines: &[Line<'_>],
    room: &mut Room<A>,
    hex: bool,
    out: &mut W,
) -> Result<(), Stop<LineFault>>
    requires { All IsWritten lines.now }
    ensures { (texts : List (List ℕ)) → Say texts lines.now → LinesEnd M.acts hex (M.state machine.old) texts
        (M.state machine.new) result (W.contents out.old) (W.contents out.new) }
{
    for line in lines {
        if let Err(stop) = run_line(machine, line, room, hex, out) {
            return Err(stop);
        }
    }
    flush(out)
}

/// Room for what one event results in.
fn make_room<A: Allocator + Copy>(alloc: A) -> Result<Room<A>, AllocError> {
    let records = Vec::with_capacity(alloc, MAX_RECORDS)?;
    Ok(Room {
        records,
        bytes: Vec::new(alloc),
    })
}

/// Runs the lines of a script on a new world.
fn run_events<T: Tables, W: Write>(
    alloc: T::Heap,
    lines: &[Line<'_>],
    hex: bool,
    out: &mut W,
) -> Result<(), Stop<LineFault>>
    requires { All IsWritten lines.now }
    ensures { (texts : List (List ℕ)) → Say texts lines.now → RunEnds (IsRunOf T.Heap hex) texts result
        (W.contents out.old) (W.contents out.new) }
{
    let Ok(mut room) = make_room(alloc) else {
        return Err(Stop::NoMemory);
    };
    let Ok(mut world) = WorldOf::<T>::new(alloc) else {
        return Err(Stop::NoMemory);
    };
    world.lemma_protocol();
    let ended = run_lines(&mut world, lines, &mut room, hex, out);
    world.end();
    ended
}

/// Runs the lines of a script on a new session over a link, and says whether the link was lost.
fn run_session<T: Tables, L: Link + Drop, W: Write>(
    alloc: T::Heap,
    link: L,
    lines: &[Line<'_>],
    hex: bool,
    out: &mut W,
) -> Result<bool, Stop<LineFault>>
    requires { All IsWritten lines.now }
    ensures { (texts : List (List ℕ)) → Say texts lines.now → SessionEnds (IsRunOver T.Heap L.carries L.failed link hex)
        texts result (W.contents out.old) (W.contents out.new) }
{
    let Ok(mut room) = make_room(alloc) else {
        return Err(Stop::NoMemory);
    };
    let Ok(mut session) = SessionOf::<T, L>::new(alloc, link) else {
        return Err(Stop::NoMemory);
    };
    session.lemma_protocol();
    let ended = run_lines(&mut session, lines, &mut room, hex, out);
    let is_lost = session.is_lost();
    session.end();
    match ended {
        Ok(()) => Ok(is_lost),
        Err(stop) => Err(stop),
    }
}

/// Hands on all that was written.
fn flush<W: Write>(out: &mut W) -> Result<(), Stop<LineFault>>
    ensures refused { IfErr result (λ stop. stop ≡ Stop.OutputRefused) }
    ensures bytes { Keeps (W.contents out.old) (W.contents out.new) }
{
    match out.flush() {
        Ok(()) => Ok(()),
        Err(_) => Err(Stop::OutputRefused),
    }
}

/// The bytes of a script.
fn read_script<A: Allocator, R: Read>(
    alloc: A,
    input: &mut R,
) -> Result<Vec<u8, A>, Stop<LineFault>>
    ensures ok { IfOk result (λ script. IfSome (R.remaining input.old) (λ bytes. script.items ≡ bytes)) }
    ensures err { IfErr result ReadingEnds }
{
    let mut script = Vec::new(alloc);
    match input.read_to_end(&mut script) {
        Ok(_) => Ok(script),
        Err(error) if error.kind() == ErrorKind::OutOfMemory => Err(Stop::NoMemory),
        Err(_) => Err(Stop::CannotRead),
    }
}

/// Runs a text whose lines are good over a link, so that only memory can run out to read them. Says whether the link
/// was lost.
fn run_text<A: Allocator + Copy, L: Link + Drop, W: Write>(
    alloc: A,
    link: L,
    text: &[u8],
    hex: bool,
    out: &mut W,
) -> Result<bool, Stop<LineFault>>
    ensures { SessionEnds (IsRunOver A L.carries L.failed link hex) (lines_of text.now) result
        (W.contents out.old) (W.contents out.new) }
{
    let Ok(lines) = read_lines(alloc, text) else {
        return Err(Stop::NoMemory);
    };
    run_session::<Maps<A>, L, W>(alloc, link, lines.as_slice(), hex, out)
}

/// A script whose lines are good.
#[derive(Drop)]
pub struct Script<A: Allocator = Global> {
    text: Vec<u8, A>,
}

impl<A: Allocator> Model for Script<A> {
    ghost use Rattle.std.specs.Prelude.{ℕ, List};
    ghost use Rattle.fw_script.specs.Scripts.{IsGoodScript};

    ghost Value = { List ℕ };

    ghost view = { λ script. script.text.items };

    ghost invariant = { λ script. IsGoodScript script.text.items };
}

impl<A: Allocator + Copy> Script<A> {
    /// Reads a script, and judges its lines.
    fn read_from<R: Read>(alloc: A, input: &mut R) -> Result<Script<A>, Stop<LineFault>>
        ensures good { IfOk result IsGoodScript }
        ensures judged { OnOk result (IfSome (R.remaining input.old) IsGoodScript) }
        ensures text { IfOk result (λ script. IfSome (R.remaining input.old) (λ bytes. script ≡ bytes)) }
        ensures refused { IfErr result (UnreadEnds (R.remaining input.old)) }
    {
        let text = read_script(alloc, input)?;
        let lines = read_lines(alloc, text.as_slice())?;
        drop(lines);
        Ok(Script { text })
    }

    /// Reads a script, and judges its lines before any is run. Else gives the exit status: 1 after `cannot read` with
    /// the script's name, or `line N:` and the fault of the first bad line, on `faults`; or 3 after `no memory`.
    pub fn read<R: Read, F: Write>(
        alloc: A,
        name: &str,
        input: &mut R,
        faults: &mut F,
    ) -> Result<Script<A>, u8>
        ensures good { IfOk result IsGoodScript }
        ensures judged { OnOk result (IfSome (R.remaining input.old) IsGoodScript) }
        ensures text { IfOk result (λ script. IfSome (R.remaining input.old) (λ bytes. script ≡ bytes)) }
        ensures statuses { IfErr result (Contains (1 ∷ 3 ∷ [])) }
        ensures fault { IfErr result (λ status. status ≡ 1 → SaysFault name.now (R.remaining input.old)
            (F.contents faults.old) (F.contents faults.new)) }
        ensures no_memory { IfErr result (λ status. status ≡ 3 → AppendsSome
            (F.contents faults.old) (F.contents faults.new) (codes "no memory\n")) }
        ensures no_fault { OnOk result (faults.new ≡ faults.old) }
    {
        match Script::read_from(alloc, input) {
            Ok(script) => Ok(script),
            Err(stop) => Err(stop.report(name, faults)),
        }
    }

    /// Runs the script on a new session over a link on which nothing was put, and prints the lines of its records,
    /// under `hex` also the frames that were put. Gives the exit status: 0; 4 where the link was lost; 3 after `no
    /// memory` on `faults`; or 5 where `out` refuses.
    pub fn run_over<L: Link + Drop, W: Write, F: Write>(
        &self,
        alloc: A,
        link: L,
        hex: bool,
        out: &mut W,
        faults: &mut F,
    ) -> u8
        ensures statuses { Contains (0 ∷ 3 ∷ 4 ∷ 5 ∷ []) result }
        ensures printed { result ≡ 0 → PrintsAll (IsRunOver A L.carries L.failed link hex false) (Some self.now)
            (W.contents out.old) (W.contents out.new) }
        ensures stopped { result ≡ 3 → Keeps (W.contents out.old) (W.contents out.new)
            ⊎ PrintsFirst (IsEither (IsRunOver A L.carries L.failed link hex)) (Some self.now)
            (W.contents out.old) (W.contents out.new) }
        ensures lost { result ≡ 4 → PrintsAll (IsRunOver A L.carries L.failed link hex true) (Some self.now)
            (W.contents out.old) (W.contents out.new) }
        ensures refused { result ≡ 5 → PrintsSome (IsEither (IsRunOver A L.carries L.failed link hex)) (Some self.now)
            (W.contents out.old) (W.contents out.new) }
        ensures no_memory { result ≡ 3 → AppendsSome (F.contents faults.old) (F.contents faults.new)
            (codes "no memory\n") }
        ensures no_fault { (result ≡ 0) ⊎ (result ≡ 4) ⊎ (result ≡ 5) → faults.new ≡ faults.old }
    {
        match run_text(alloc, link, self.text.as_slice(), hex, out) {
            Ok(false) => 0,
            Ok(true) => LOST,
            // No file is read here that a line could name.
            Err(stop) => stop.report("", faults),
        }
    }
}

/// Reads a script, judges its lines, and runs it.
fn run_input<T: Tables, R: Read, W: Write>(
    alloc: T::Heap,
    hex: bool,
    input: &mut R,
    out: &mut W,
) -> Result<(), Stop<LineFault>>
    ensures ends { InputEnds (IsRunOf T.Heap hex) (R.remaining input.old) result
        (W.contents out.old) (W.contents out.new) }
    ensures judged { OnOk result (IfSome (R.remaining input.old) IsGoodScript) }
    ensures refused { IfErr result (λ stop. status_of stop ≡ 5 →
        IfSome (R.remaining input.old) IsGoodScript) }
    ensures silent { IfErr result (λ stop. status_of stop ≡ 1 → out.new ≡ out.old) }
{
    let script = read_script(alloc, input)?;
    let lines = read_lines(alloc, script.as_slice())?;
    run_events::<T, W>(alloc, lines.as_slice(), hex, out)
}

/// Reads a script, judges its lines, and runs it over a link. Says whether the link was lost.
fn run_input_over<A: Allocator + Copy, L: Link + Drop, R: Read, W: Write>(
    alloc: A,
    link: L,
    hex: bool,
    input: &mut R,
    out: &mut W,
) -> Result<bool, Stop<LineFault>>
    ensures ends { OverEnds (IsRunOver A L.carries L.failed link hex) (R.remaining input.old) result
        (W.contents out.old) (W.contents out.new) }
    ensures judged { OnOk result (IfSome (R.remaining input.old) IsGoodScript) }
    ensures refused { IfErr result (λ stop. status_of stop ≡ 5 →
        IfSome (R.remaining input.old) IsGoodScript) }
    ensures silent { IfErr result (λ stop. status_of stop ≡ 1 → out.new ≡ out.old) }
{
    let script = read_script(alloc, input)?;
    let lines = read_lines(alloc, script.as_slice())?;
    run_session::<Maps<A>, L, W>(alloc, link, lines.as_slice(), hex, out)
}

/// Runs a script on a new world over these tables, and gives the exit status, as `run_script` does.
fn run_on<T: Tables, R: Read, W: Write, F: Write>(
    alloc: T::Heap,
    name: &str,
    hex: bool,
    input: &mut R,
    out: &mut W,
    faults: &mut F,
) -> u8
    ensures { EndsScript W.contents F.contents (IsRunOf T.Heap hex) name.now (R.remaining input.old) out.old out.new
        faults.old faults.new result }
{
    match run_input::<T, R, W>(alloc, hex, input, out) {
        Ok(()) => 0,
        Err(stop) => stop.report(name, faults),
    }
}

/// Runs a script on a new world, and prints the lines of its records, under `hex` also the frames
/// that were put.
///
/// All lines are judged before the first is run. Gives the exit status: 0; 1 after `cannot read`
/// with the script's name, or `line N:` and the fault of the first bad line, on `faults`; 3 after
/// `no memory`; or 5 where `out` refuses.
pub fn run_script<A: Allocator + Copy, R: Read, W: Write, F: Write>(
    alloc: A,
    name: &str,
    hex: bool,
    input: &mut R,
    out: &mut W,
    faults: &mut F,
) -> u8
    ensures { EndsScript W.contents F.contents (IsRunOf A hex) name.now (R.remaining input.old) out.old out.new
        faults.old faults.new result }
{
    run_on::<Maps<A>, R, W, F>(alloc, name, hex, input, out, faults)
}

/// Runs a script on a new world over plain lists, as `run_script` does on one over maps and slabs.
pub fn run_lists<A: Allocator + Copy, R: Read, W: Write, F: Write>(
    alloc: A,
    name: &str,
    hex: bool,
    input: &mut R,
    out: &mut W,
    faults: &mut F,
) -> u8
    ensures { EndsScript W.contents F.contents (IsRunOf A hex) name.now (R.remaining input.old) out.old out.new
        faults.old faults.new result }
{
    run_on::<Lists<A>, R, W, F>(alloc, name, hex, input, out, faults)
}

/// Runs a script on a new session over a link on which nothing was put, as `run_script` does on a world. Where the link
/// is lost, the line `link lost` follows that of the event in which it was, and the status is 4.
pub fn run_over<A: Allocator + Copy, L: Link + Drop, R: Read, W: Write, F: Write>(
    alloc: A,
    link: L,
    name: &str,
    hex: bool,
    input: &mut R,
    out: &mut W,
    faults: &mut F,
) -> u8
    ensures statuses { Contains (0 ∷ 1 ∷ 3 ∷ 4 ∷ 5 ∷ []) result }
    // Nothing is run of a script with a bad line.
    ensures judged { (result ≡ 0) ⊎ (result ≡ 4) ⊎ (result ≡ 5) → IfSome (R.remaining input.old) IsGoodScript }
    ensures silent { result ≡ 1 → out.new ≡ out.old }
    ensures printed { result ≡ 0 → PrintsAll (IsRunOver A L.carries L.failed link hex false) (R.remaining input.old)
        (W.contents out.old) (W.contents out.new) }
    ensures stopped { result ≡ 3 → Keeps (W.contents out.old) (W.contents out.new)
        ⊎ PrintsFirst (IsEither (IsRunOver A L.carries L.failed link hex)) (R.remaining input.old)
        (W.contents out.old) (W.contents out.new) }
    // The same where the link is lost.
    ensures lost { result ≡ 4 → PrintsAll (IsRunOver A L.carries L.failed link hex true) (R.remaining input.old)
        (W.contents out.old) (W.contents out.new) }
    ensures refused { result ≡ 5 → PrintsSome (IsEither (IsRunOver A L.carries L.failed link hex))
        (R.remaining input.old) (W.contents out.old) (W.contents out.new) }
    ensures fault { result ≡ 1 → SaysFault name.now (R.remaining input.old)
        (F.contents faults.old) (F.contents faults.new) }
    ensures no_memory { result ≡ 3 → AppendsSome (F.contents faults.old) (F.contents faults.new)
        (codes "no memory\n") }
    ensures no_fault { (result ≡ 0) ⊎ (result ≡ 4) ⊎ (result ≡ 5) → faults.new ≡ faults.old }
{
    match run_input_over(alloc, link, hex, input, out) {
        Ok(false) => 0,
        Ok(true) => LOST,
        Err(stop) => stop.report(name, faults),
    }
}
