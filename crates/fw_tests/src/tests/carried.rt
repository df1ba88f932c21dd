//! An envelope that is carried over a link in order, and to a reader that has it to give.

ghost use Rattle.std.specs.Prelude.{◌≡◌, []};
ghost use Rattle.fw_link.specs.Carrying.{IsEmpty};

use super::cutting::REQUEST;
use fw_link::{
    Carrier, Cutter, Link, LinkFault, LinkInOrder, MemoryLink, Side, StreamLink, put_envelope,
};
use std::alloc::{AllocError, Global};
use std::test::Fail;

/// A link that keeps what the kernel put and what the server got.
#[derive(Drop)]
struct Watched<L: LinkInOrder + Drop> {
    link: L,
    put: Vec<u8>,
    got: Vec<u8>,
}

impl<L: LinkInOrder + Drop> Link for Watched<L> {
    ghost carries = { λ old new h. L.carries old.link new.link h };

    ghost failed = { λ watched. L.failed watched.link };

    fn put(&mut self, side: Side, bytes: &[u8]) -> Result<(), LinkFault> {
        if side == Side::Kernel {
            let _kept = self.put.extend_from_slice(bytes);
        }
        self.link.put(side, bytes)
    }

    fn get(&mut self, side: Side, room: &mut [u8]) -> Result<usize, LinkFault> {
        let count = self.link.get(side, room)?;
        if side == Side::Server {
            let _kept = self.got.extend_from_slice(&room[..count]);
        }
        Ok(count)
    }

    fn failures(&self) -> u64 {
        self.link.failures()
    }

    ghost stays = { λ watched. L.stays watched.link };

    ghost goes_on = { λ first mid last h k one two. L.goes_on first.link mid.link last.link h k one two };
}

impl<L: LinkInOrder + Drop> LinkInOrder for Watched<L> {
    ghost is_idle = { λ watched. L.is_idle watched.link };

    ghost in_order = { λ first last h idle carried. L.in_order first.link last.link h idle carried };

    ghost stays_idle = { λ first last h idle carried whole.
        L.stays_idle first.link last.link h idle carried whole };
}

/// Whether the request is carried over a watched link, and what was put and what was got are its bytes.
fn carries<L: LinkInOrder + Drop>(
    cutter: &mut Cutter,
    carrier: &mut Carrier,
    watched: &mut Watched<L>,
) -> bool
    requires empty { IsEmpty carrier.old }
    requires idle { L.is_idle watched.old.link }
{
    let is_cut = cutter.feed(&REQUEST).is_ok();
    let is_carried = match cutter.envelope() {
        Some(envelope) => carrier
            .carry_in_order(watched, Side::Kernel, &envelope)
            .is_ok(),
        None => false,
    };
    let is_same = watched.put.as_slice() == REQUEST.as_slice()
        && watched.got.as_slice() == REQUEST.as_slice();
    is_cut && is_carried && is_same && watched.failures() == 0
}

/// The same of a link in memory.
fn is_carried_in_order(alloc: Global) -> Result<bool, AllocError> {
    let mut cutter = Cutter::new(alloc)?;
    let mut carrier = Carrier::new(alloc)?;
    let mut watched = Watched {
        link: MemoryLink::new(alloc)?,
        put: Vec::new(alloc),
        got: Vec::new(alloc),
    };
    Ok(carries(&mut cutter, &mut carrier, &mut watched))
}

#[test]
fn in_order(rt: HostRuntime) -> Result<(), Fail> {
    assert!(rt; is_carried_in_order(rt.alloc())?);
    Ok(())
}

/// Whether the request is carried over a link whose reader gives it, into a writer to this room. It is spelled in an
/// empty list.
fn carries_to_reader(
    cutter: &mut Cutter,
    carrier: &mut Carrier,
    spelled: &mut Vec<u8>,
    room: &mut [u8],
) -> Result<bool, AllocError>
    requires empty { IsEmpty carrier.old }
    requires none { spelled.old.items ≡ [] }
{
    let is_cut = cutter.feed(&REQUEST).is_ok();
    let Some(envelope) = cutter.envelope() else {
        return Ok(false);
    };
    put_envelope(spelled, &envelope)?;
    let mut none = [0u8; 0];
    let mut link = StreamLink::new(b"".as_slice(), room, spelled.as_slice(), &mut none[..]);
    let is_carried = carrier.carry_to_reader(&mut link, &envelope).is_ok();
    Ok(is_cut && is_carried && link.failures() == 0)
}

/// The same of a new carrier.
fn is_carried_to_reader(alloc: Global, room: &mut [u8]) -> Result<bool, AllocError> {
    let mut cutter = Cutter::new(alloc)?;
    let mut carrier = Carrier::new(alloc)?;
    carries_to_reader(&mut cutter, &mut carrier, &mut Vec::new(alloc), room)
}

#[test]
fn to_a_reader(rt: HostRuntime) -> Result<(), Fail> {
    let mut room = [0u8; 51];
    assert!(rt; is_carried_to_reader(rt.alloc(), &mut room)? && room == REQUEST);
    Ok(())
}
