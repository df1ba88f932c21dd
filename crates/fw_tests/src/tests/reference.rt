//! Calls of another kernel's run, made again and answered here.

use fw_reference::Reference;
use fw_world::{Answer, Call, Event, Maps, Refusal, Tables};
use std::alloc::Global;
use std::test::Fail;

/// Calls by their numbers there, and whether each is answered without an error.
static ROWS: [(u64, Call<'static>, bool); 8] = [
    (10, Call::Mkdir { path: b"/d" }, true),
    (20, Call::Create { path: b"/d/f" }, true),
    (
        30,
        Call::Write {
            open_call: 20,
            offset: 0,
            bytes: b"abc",
        },
        true,
    ),
    (
        40,
        Call::Read {
            open_call: 20,
            offset: 0,
            size: 3,
        },
        true,
    ),
    // No call 4 has opened a file there, whatever opened one here.
    (
        50,
        Call::Read {
            open_call: 4,
            offset: 0,
            size: 3,
        },
        false,
    ),
    (60, Call::Close { open_call: 20 }, true),
    (70, Call::Unlink { path: b"/d/g" }, false),
    (80, Call::Stat { path: b"/d/f" }, true),
];

/// Makes each call, and says whether each is answered as its row says. One that is not begun has no answer. A method that is
/// called of a world over any tables is checked in less time than one of a world over maps.
fn are_answered<T: Tables>(reference: &mut Reference<T>) -> Result<bool, Refusal> {
    for (number, call, is_good) in ROWS.iter() {
        let made = reference.make(call, *number)?;
        let answer = reference.collect();
        let was_good = match answer {
            Some(Answer::Failed { .. }) | None => false,
            Some(_) => true,
        };
        if was_good != *is_good || (made.is_none() && was_good) {
            return Ok(false);
        }
    }
    Ok(true)
}

/// Mounts a world, makes the calls and lets time pass. Nothing waits to be collected at the end.
fn run<T: Tables>(reference: &mut Reference<T>) -> Result<bool, Refusal> {
    reference.mount()?;
    let is_good = are_answered(reference)?;
    reference.follow(&Event::Tick(5))?;
    Ok(is_good && reference.collect().is_none())
}

/// The same in a new world.
fn is_carried<T: Tables>(heap: T::Heap) -> Result<bool, Refusal> {
    let mut reference = Reference::<T>::new(heap)?;
    let ran = run(&mut reference);
    reference.end();
    ran
}

#[test]
fn calls_are_carried_by_their_numbers_there(rt: HostRuntime) -> Result<(), Fail> {
    assert!(rt; is_carried::<Maps<Global>>(rt.alloc()) == Ok(true));
    Ok(())
}
