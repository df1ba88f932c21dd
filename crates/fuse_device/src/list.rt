//! A device over a list of frames in memory, for tests.

ghost use Rattle.std.specs.Prelude.{◌≡◌};

use crate::device::{Device, DeviceEnd};
use fuse_spec::WriteResult;
use std::alloc::{Allocator, Global};

/// A device that gives the frames of a list in turn, and then ends. It keeps the bytes of what was sent, one frame
/// after another. Every send is accepted but one, of which it is given what to say. A frame that is longer than the
/// room, and memory that is out for what is sent, are failures.
#[derive(Drop)]
pub struct ListDevice<'a, A: Allocator = Global> {
    frames: &'a [&'a [u8]],
    given: usize,
    sent: Vec<u8, A>,
    sends: u64,
    other_send: u64,
    other_result: Result<WriteResult, DeviceEnd>,
}

impl<'a, A: Allocator> ListDevice<'a, A> {
    /// A device with these frames to give, which accepts each send.
    pub fn new(alloc: A, frames: &'a [&'a [u8]]) -> Self
        ensures { (result.frames ≡ frames.entry) × (result.given ≡ 0) × (result.sends ≡ 0) × (result.other_send ≡ 0) }
    {
        ListDevice {
            frames,
            given: 0,
            sent: Vec::new(alloc),
            sends: 0,
            other_send: 0,
            other_result: Ok(WriteResult::Accepted),
        }
    }

    /// From now on the send of this number, counted from 1, has this result.
    pub fn answer_send(&mut self, number: u64, result_of_send: Result<WriteResult, DeviceEnd>)
        ensures { self.new ≡ record self.old { other_send = number; other_result = result_of_send } }
    {
        self.other_send = number;
        self.other_result = result_of_send;
    }

    /// How many sends there were.
    pub fn sends(&self) -> u64
        ensures { result ≡ self.now.sends }
    {
        self.sends
    }

    /// The bytes of the frames that were sent and had a result, one after another.
    pub fn sent(&self) -> &[u8]
        ensures { result.now ≡ self.now.sent.items }
    {
        self.sent.as_slice()
    }

    /// What the coming send says.
    fn count_send(&mut self) -> Result<WriteResult, DeviceEnd>
        ensures { (self.new.frames ≡ self.old.frames) × (self.new.given ≡ self.old.given)
            × (self.new.sent ≡ self.old.sent) }
    {
        self.sends = self.sends.saturating_add(1);
        if self.sends == self.other_send {
            self.other_result
        } else {
            Ok(WriteResult::Accepted)
        }
    }
}

impl<'a, A: Allocator> Device for ListDevice<'a, A> {
    ghost use Rattle.fuse_device.specs.Listed.{Listed, listed_in_turn, nothing_listed};

    ghost logs = { Listed };

    fn receive(&mut self, room: &mut [u8]) -> Result<usize, DeviceEnd> {
        if self.frames.len() <= self.given {
            return Err(DeviceEnd::Ended);
        }
        let frame = self.frames[self.given];
        if room.len() < frame.len() {
            return Err(DeviceEnd::Failed);
        }
        room[..frame.len()].copy_from_slice(frame);
        self.given += 1;
        Ok(frame.len())
    }

    fn send(&mut self, frame: &[u8]) -> Result<WriteResult, DeviceEnd> {
        let result_of_send = self.count_send();
        if result_of_send.is_ok() && self.sent.extend_from_slice(frame).is_err() {
            return Err(DeviceEnd::Failed);
        }
        result_of_send
    }

    ghost stays = { nothing_listed };

    ghost goes_on = { listed_in_turn };
}
