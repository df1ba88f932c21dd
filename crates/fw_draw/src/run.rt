//! The run that is drawn.

use crate::label::Column;
use crate::picture::Picture;
use crate::row::{draw_event, draw_nodes};
use fuse_spec::NodeCount;
use fuse_text::read_hex;
use fw_script::{Line, is_passed_over, read_line};
use fw_world::{Call, Event, Maps, Record, Tables, WorldOf, run};
use std::alloc::{AllocError, Allocator};
use std::slice::from_ref;

/// What a run needs from one event to the next: the records of the event, room for a text, and the nodes of both sides
/// before it.
#[derive(Drop)]
struct Room<A: Allocator> {
    alloc: A,
    records: Vec<Record<A>, A>,
    text: Vec<u8, A>,
    kernel_nodes: Vec<NodeCount, A>,
    server_nodes: Vec<NodeCount, A>,
}

/// Runs an event.
fn run_event<T: Tables>(
    world: &mut WorldOf<T>,
    event: &Event<'_>,
    records: &mut Vec<Record<T::Heap>, T::Heap>,
) -> Result<(), AllocError> {
    records.clear();
    run(world, from_ref(event), records).map_err(|_| AllocError)
}

/// Draws the nodes of both sides whose counts change, at the height of the event's row.
fn draw_counts<A: Allocator + Copy>(
    picture: &mut Picture<A>,
    y: u64,
    room: &mut Room<A>,
    kernel: Vec<NodeCount, A>,
    server: Vec<NodeCount, A>,
) -> Result<(), AllocError> {
    let before = room.kernel_nodes.as_slice();
    draw_nodes(
        picture,
        Column::KernelNodes,
        y,
        before,
        kernel.as_slice(),
        &mut room.text,
    )?;
    let before = room.server_nodes.as_slice();
    draw_nodes(
        picture,
        Column::ServerNodes,
        y,
        before,
        server.as_slice(),
        &mut room.text,
    )?;
    room.kernel_nodes = kernel;
    room.server_nodes = server;
    Ok(())
}

/// Draws the nodes of the world whose counts change, at the height of the event's row.
fn draw_world_nodes<T: Tables>(
    world: &WorldOf<T>,
    picture: &mut Picture<T::Heap>,
    y: u64,
    room: &mut Room<T::Heap>,
) -> Result<(), AllocError> {
    let kernel = world.kernel_nodes()?;
    let server = world.server_nodes()?;
    draw_counts(picture, y, room, kernel, server)
}

/// Runs an event, whose line this is, and draws its row.
fn draw_step<T: Tables>(
    world: &mut WorldOf<T>,
    event: &Event<'_>,
    line: &[u8],
    picture: &mut Picture<T::Heap>,
    room: &mut Room<T::Heap>,
) -> Result<(), AllocError> {
    let y = picture.y;
    run_event(world, event, &mut room.records)?;
    draw_event(
        picture,
        event,
        line,
        room.records.as_slice(),
        &mut room.text,
    )?;
    draw_world_nodes(world, picture, y, room)?;
    picture.next_row();
    Ok(())
}

/// The digits of a word that is hex, or `-` for no bytes.
fn digits_of(hex: &[u8]) -> &[u8] {
    match hex {
        [b'-'] => &hex[1..],
        _ => hex,
    }
}

/// Runs a call that puts bytes, which are in hex, into an open file, and draws its row.
fn draw_write<T: Tables>(
    world: &mut WorldOf<T>,
    write: (u64, u64, &[u8]),
    line: &[u8],
    picture: &mut Picture<T::Heap>,
    room: &mut Room<T::Heap>,
) -> Result<(), AllocError> {
    let (open_call, offset, hex) = write;
    // The lines were judged, so only memory can run out.
    let Ok(bytes) = read_hex(room.alloc, digits_of(hex)) else {
        return Err(AllocError);
    };
    let event = Event::Call(Call::Write {
        open_call,
        offset,
        bytes: bytes.as_slice(),
    });
    draw_step(world, &event, line, picture, room)
}

/// Runs what a line says, and draws it.
fn draw_line<T: Tables>(
    world: &mut WorldOf<T>,
    line: &[u8],
    picture: &mut Picture<T::Heap>,
    room: &mut Room<T::Heap>,
) -> Result<(), AllocError> {
    match read_line(line) {
        Ok(Line::Event(event)) => draw_step(world, &event, line, picture, room),
        Ok(
            Line::CallWrite {
                open_call,
                offset,
                hex,
            },
        ) => draw_write(world, (open_call, offset, hex), line, picture, room),
        // `show` is no event, and the lines were judged.
        Ok(Line::Show) | Err(_) => Ok(()),
    }
}

/// Runs the lines of a script, and draws them.
fn draw_lines<T: Tables>(
    world: &mut WorldOf<T>,
    text: &[u8],
    picture: &mut Picture<T::Heap>,
    room: &mut Room<T::Heap>,
) -> Result<(), AllocError> {
    for line in text.split(|byte| *byte == b'\n') {
        if !is_passed_over(line) {
            draw_line(world, line, picture, room)?;
        }
    }
    Ok(())
}

/// No events yet.
fn make_room<A: Allocator + Copy>(alloc: A) -> Room<A> {
    Room {
        alloc,
        records: Vec::new(alloc),
        text: Vec::new(alloc),
        kernel_nodes: Vec::new(alloc),
        server_nodes: Vec::new(alloc),
    }
}

/// Runs the lines of a script on a new world, and draws them.
fn draw_world<T: Tables>(
    alloc: T::Heap,
    text: &[u8],
    picture: &mut Picture<T::Heap>,
) -> Result<(), AllocError> {
    let mut room = make_room(alloc);
    let Ok(mut world) = WorldOf::<T>::new(alloc) else {
        return Err(AllocError);
    };
    let drawn = draw_lines(&mut world, text, picture, &mut room);
    world.end();
    drawn
}

/// The picture of the run of a script, whose lines were judged, on a new world.
pub(crate) fn draw_run<A: Allocator + Copy>(
    alloc: A,
    text: &[u8],
) -> Result<Picture<A>, AllocError> {
    let mut picture = Picture::new(alloc);
    draw_world::<Maps<A>>(alloc, text, &mut picture)?;
    Ok(picture)
}
