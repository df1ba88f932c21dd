//! Whether the names in a listing are names.

ghost use Rattle.std.specs.Prelude.{◌↔◌, IsTrue};
ghost use Rattle.fuse_replies.specs.Records.{records_in, entry_records_in, AreListed, AreListedPlus};

use crate::records::{EntryRecords, Records};
use fuse_protocol::{Agreed, NameRule, is_name};

/// Whether each record's name is one.
pub(crate) fn are_listed(agreed: Agreed, records: Records<'_>) -> bool
    ensures { IsTrue result ↔ AreListed agreed (records_in records.entry) }
{
    let mut left = records;
    'records: while let Some(record) = left.next() {
        if !is_name(agreed, NameRule::Listed, record.name) {
            return false;
        }
    }
    true
}

/// Whether the name of each record with an entry is one.
pub(crate) fn are_listed_plus(agreed: Agreed, records: EntryRecords<'_>) -> bool
    ensures { IsTrue result ↔ AreListedPlus agreed (entry_records_in records.entry) }
{
    let mut left = records;
    'records: while let Some(each) = left.next() {
        if !is_name(agreed, NameRule::Listed, each.record.name) {
            return false;
        }
    }
    true
}
