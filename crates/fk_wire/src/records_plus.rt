//! The pairs of a READDIRPLUS reply, as its frame has them.

ghost use Rattle.std.specs.Prelude.{◌≡◌, ◌≤◌, ◌<◌, ◌+◌, ◌-◌, ◌^◌, ℕ, true, length, ◌*◌};
ghost use Rattle.fk_wire.specs.RecordEnds.{end_from, NamesFrom, TimesFrom};
ghost use Rattle.fk_wire.specs.Props.{NamesFrom-prop, TimesFrom-prop};

use crate::entry::{Entry, entry_at};
use crate::fault::WireFault;
use crate::records::Dirent;
use crate::walk::{count_records, first_record, have_times};

/// A name in a directory and its file: `struct fuse_direntplus`.
#[derive(Clone, Copy, Debug)]
pub struct DirentPlus<'a> {
    pub entry_out: Entry,
    pub dirent: Dirent<'a>,
}

/// The pairs of an entry and a record, in the order of the frame: an iterator over a slice of it, which
/// takes no memory.
#[derive(Clone, Copy, Debug)]
pub struct RecordsPlus<'a> {
    bytes: &'a [u8],
    place: usize,
    left: usize,
    ghost ends: { end_from true left place bytes.now ≡ length bytes.now },
    ghost named: { NamesFrom true left place bytes.now } by { NamesFrom-prop true left place bytes.now },
    ghost timed: { TimesFrom left place bytes.now } by { TimesFrom-prop left place bytes.now },
}

impl<'a> RecordsPlus<'a> {
    ghost use Rattle.std.specs.Prelude.{List, MatchOption, MatchResult};
    ghost use Rattle.fk_wire.specs.Fields.{ReadsAs, sizes};
    ghost use Rattle.fk_wire.specs.Dirents.{DirentPlusContent, direntpluses};
    ghost use Rattle.fk_wire.specs.Records.{pluses_in, AreRecordsPlus, PlusFaultIs};

    /// The pairs that the bytes are from a place to the end.
    pub(crate) fn from_place(bytes: &'a [u8], place: usize) -> Result<RecordsPlus<'a>, WireFault>
        requires { place ≤ length bytes.now }
        ensures { MatchResult result (λ r. AreRecordsPlus place bytes.now (pluses_in r)) (PlusFaultIs place bytes.now) }
    {
        let Some((left, named)) = count_records(bytes, place, true) else {
            return Err(WireFault::Body);
        };
        if !have_times(bytes, place, left) {
            return Err(WireFault::Body);
        }
        if !named {
            return Err(WireFault::Name);
        }
        Ok(RecordsPlus { bytes, place, left })
    }

    /// The pairs that the bytes are, or `None` where they are no whole number of pairs, each with less
    /// than a second of nanoseconds and with a record's name. No bytes are the empty list.
    pub fn over(bytes: &'a [u8]) -> Option<RecordsPlus<'a>>
        ensures { MatchOption result ((ps : List DirentPlusContent) → AreRecordsPlus 0 bytes.now ps → ⊥)
            (λ r. AreRecordsPlus 0 bytes.now (pluses_in r)) }
    {
        match RecordsPlus::from_place(bytes, 0) {
            Ok(records) => Some(records),
            Err(_fault) => None,
        }
    }

    /// How many pairs are left. Each has 152 bytes or more.
    #[tactic(auto, using(crate::proofs::RecordLists::pluses_count, crate::proofs::RecordLists::pluses_long))]
    pub fn count_left(&self) -> usize
        ensures count { result ≡ length (pluses_in self.now) }
        ensures bound { 152 * result < 2 ^ 63 }
    {
        let _len = self.bytes.len();
        self.left
    }

    /// How many bytes are left.
    #[tactic(auto, using(crate::proofs::RecordLists::pluses_left))]
    pub(crate) fn byte_len(&self) -> usize
        ensures { result ≡ sizes (direntpluses (pluses_in self.now)) }
    {
        self.bytes.len() - self.place
    }
}

impl<'a> Iterator for RecordsPlus<'a> {
    type Item = DirentPlus<'a>;

    ghost use Rattle.std.specs.Iterator.{YieldsFirstBy, item_count};
    ghost use Rattle.fk_wire.specs.Records.{pluses_in, direntplus_content};

    ghost next_gives = { YieldsFirstBy direntplus_content pluses_in };

    ghost remaining = { item_count pluses_in };

    #[inline(always)]
    fn next(&mut self) -> Option<DirentPlus<'a>> {
        if self.left == 0 {
            return None;
        }
        let (dirent, end) = first_record(self.bytes, self.place, true);
        let entry_out = entry_at(self.bytes, self.place);
        self.place = end;
        self.left -= 1;
        Some(DirentPlus { entry_out, dirent })
    }
}
