//! The records of a listing, as its frame has them.

ghost use Rattle.std.specs.Prelude.{◌≡◌, ◌≤◌, length};

use crate::entry::entry_at;
use crate::record::{EntryRecord, Record, record_in};
use crate::walk::record_end;

/// The whole records of a READDIR reply, in the order of the frame: an iterator over a slice of it, which
/// takes no memory. A last record that is cut short is passed over.
#[derive(Clone, Copy, Debug)]
pub struct Records<'a> {
    bytes: &'a [u8],
    place: usize,
    ghost within: { place ≤ length bytes.now },
}

/// The whole records of a READDIRPLUS reply, each with its entry, in the same way.
#[derive(Clone, Copy, Debug)]
pub struct EntryRecords<'a> {
    bytes: &'a [u8],
    place: usize,
    ghost within: { place ≤ length bytes.now },
}

impl<'a> Records<'a> {
    ghost use Rattle.fuse_replies.specs.Records.{records_in, records_from};

    /// The whole records that stand from a place to the end.
    pub(crate) fn from_place(bytes: &'a [u8], place: usize) -> Records<'a>
        requires { place ≤ length bytes.now }
        ensures { records_in result ≡ records_from place bytes.now }
    {
        Records { bytes, place }
    }

    /// The whole records at the head of the bytes.
    pub fn over(bytes: &'a [u8]) -> Records<'a>
        ensures { records_in result ≡ records_from 0 bytes.now }
    {
        Records::from_place(bytes, 0)
    }
}

impl<'a> Iterator for Records<'a> {
    type Item = Record<'a>;

    ghost use Rattle.std.specs.Iterator.{YieldsFirstBy, item_count};
    ghost use Rattle.fuse_replies.specs.Records.{records_in};
    ghost use Rattle.fuse_replies.specs.Record.{record_content};

    ghost next_gives = { YieldsFirstBy record_content records_in };

    ghost remaining = { item_count records_in };

    fn next(&mut self) -> Option<Record<'a>> {
        let Some(end) = record_end(self.bytes, self.place, false) else {
            return None;
        };
        let record = record_in(self.bytes, self.place);
        self.place = end;
        Some(record)
    }
}

impl<'a> EntryRecords<'a> {
    ghost use Rattle.fuse_replies.specs.Records.{entry_records_in, entry_records_from};

    /// The whole records that stand from a place to the end.
    pub(crate) fn from_place(bytes: &'a [u8], place: usize) -> EntryRecords<'a>
        requires { place ≤ length bytes.now }
        ensures { entry_records_in result ≡ entry_records_from place bytes.now }
    {
        EntryRecords { bytes, place }
    }

    /// The whole records at the head of the bytes.
    pub fn over(bytes: &'a [u8]) -> EntryRecords<'a>
        ensures { entry_records_in result ≡ entry_records_from 0 bytes.now }
    {
        EntryRecords::from_place(bytes, 0)
    }
}

impl<'a> Iterator for EntryRecords<'a> {
    type Item = EntryRecord<'a>;

    ghost use Rattle.std.specs.Iterator.{YieldsFirstBy, item_count};
    ghost use Rattle.fuse_replies.specs.Records.{entry_records_in};
    ghost use Rattle.fuse_replies.specs.Record.{entry_record_content};

    ghost next_gives = { YieldsFirstBy entry_record_content entry_records_in };

    ghost remaining = { item_count entry_records_in };

    fn next(&mut self) -> Option<EntryRecord<'a>> {
        let Some(end) = record_end(self.bytes, self.place, true) else {
            return None;
        };
        let entry = entry_at(self.bytes, self.place);
        let record = record_in(self.bytes, self.place + 128);
        self.place = end;
        Some(EntryRecord { entry, record })
    }
}
