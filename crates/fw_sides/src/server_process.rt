//! A server by itself, given one line after another.

ghost use Rattle.std.specs.Prelude.{◌≡◌, ◌++◌, ℕ, List, OnOk, codes};
ghost use Rattle.fuse_text.specs.HexTexts.{IsHexOrNone};
ghost use Rattle.fuse_spec.specs.Server.Server.{Server as ServerState};
ghost use Rattle.fuse_spec.specs.World.Worlds.{first_server};
ghost use Rattle.fw_sides.specs.Lines.{DoLines};
ghost use Rattle.fw_sides.specs.ServerRuns.{DoesServerLine, ServerHappens};

use crate::form::Form;
use crate::input::End;
use crate::nodes_text::print_nodes;
use crate::refusal_text::{print_line_fault, print_refusal};
use crate::server_line::{ServerLine, read_server_line};
use crate::server_text::{print_server_refused, print_server_step};
use crate::side::{Side, do_lines};
use fs_server::{NodeStore, ServerEvent, ServerOf};
use fuse_spec::Refusal;
use fuse_text::{LineError, OutputRefused, read_hex_or_none};
use fw_script::is_passed_over;
use fw_world::{Maps, Tables};
use std::alloc::Allocator;
use std::io::{BufRead, Write};

/// One event happens, and what it came to is printed.
fn run_event<S: NodeStore, W: Write>(
    server: &mut ServerOf<S>,
    event: &ServerEvent<'_>,
    form: Form,
    out: &mut W,
) -> Result<(), OutputRefused>
    ensures { OnOk result (ServerHappens S.Heap server.old event.now server.new) }
{
    match server.step(event) {
        Ok(step) => print_server_step(out, form, &step),
        Err(refused) => print_server_refused(out, form, refused),
    }
}

/// Bytes that stand in hex are taken as a request.
fn take<S: NodeStore, W: Write>(
    server: &mut ServerOf<S>,
    bytes: &mut Vec<u8, S::Heap>,
    hex: &[u8],
    form: Form,
    out: &mut W,
) -> Result<(), OutputRefused>
    requires { IsHexOrNone hex.now }
    ensures { OnOk result (DoesServerLine S.Heap server.old (codes "take " ++ hex.now) server.new) }
{
    match read_hex_or_none(bytes, hex) {
        Ok(()) => run_event(server, &ServerEvent::Take(bytes.as_slice()), form, out),
        Err(_) => print_refusal(out, form, Refusal::NoMemory),
    }
}

/// Prints the nodes that the server holds.
fn show<S: NodeStore, W: Write>(
    alloc: S::Heap,
    server: &ServerOf<S>,
    form: Form,
    out: &mut W,
) -> Result<(), OutputRefused> {
    match server.nodes(alloc) {
        Ok(nodes) => print_nodes(out, form, "server", nodes.as_slice()),
        Err(_) => print_refusal(out, form, Refusal::NoMemory),
    }
}

impl<S: NodeStore> Side for ServerOf<S> {
    type Heap = S::Heap;

    type State = ServerOf<S>;

    ghost state = { λ server. server };

    ghost does = { DoesServerLine S.Heap };

    fn do_line<W: Write>(
        &mut self,
        alloc: S::Heap,
        bytes: &mut Vec<u8, S::Heap>,
        line: &[u8],
        form: Form,
        out: &mut W,
    ) -> Result<(), OutputRefused> {
        if is_passed_over(line) {
            return Ok(());
        }
        match read_server_line(line) {
            Ok(ServerLine::Event(event)) => run_event(self, &event, form, out),
            Ok(ServerLine::Take { hex }) => take(self, bytes, hex, form, out),
            Ok(ServerLine::Show) => show(alloc, self, form, out),
            Err(fault) => print_line_fault(out, form, fault),
        }
    }
}

/// Runs a new server over any tables.
fn run_new<T: Tables, R: BufRead, W: Write>(
    alloc: T::Heap,
    form: Form,
    input: &mut R,
    out: &mut W,
) -> Result<(), End>
    ensures { OnOk result ((lines : List (List ℕ)) × (last : ServerState) × DoLines (DoesServerLine T.Heap) first_server lines last) }
{
    let Ok(mut server) = ServerOf::<T::Nodes>::new(alloc) else {
        return Err(End::Input(LineError::NoMemory));
    };
    let ended = do_lines(&mut server, alloc, form, input, out);
    server.end();
    ended
}

/// Runs a server whose kernel is another program: each line of the input is one call on it, and what that came to is
/// printed before the next line is read. A line that is refused, or that says nothing, changes nothing.
///
/// # Errors
///
/// Where memory runs out for the server, where the input cannot be read, where a line has no room in memory, or where
/// the output refuses.
pub fn run_server<A: Allocator + Copy, R: BufRead, W: Write>(
    alloc: A,
    form: Form,
    input: &mut R,
    out: &mut W,
) -> Result<(), End>
    ensures { OnOk result ((lines : List (List ℕ)) × (last : ServerState) × DoLines (DoesServerLine A) first_server lines last) }
{
    run_new::<Maps<A>, R, W>(alloc, form, input, out)
}
