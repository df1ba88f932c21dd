//! Further numbers of a request, each where its opcode has it.

ghost use Rattle.std.specs.Prelude.{◌≡◌, Some, None, if◌then◌else◌};
ghost use Rattle.fuse_protocol.specs.Places.{number_in, places_at};
ghost use Rattle.fuse_protocol.specs.Pairs.{pairs_in, pairs_of_row};
ghost use Rattle.fuse_protocol.specs.Table.{row_at};

use crate::pairs::Pairs;
use crate::place::number_of;
use crate::places::places_of;
use crate::request::Request;
use crate::row::Tail;
use crate::table::row_of;

impl<'a> Request<'a> {
    /// How many lookups a FORGET takes back.
    pub fn forgotten(&self) -> Option<u64>
        ensures { result ≡ number_in (places_at self.now.head.opcode).forgotten self.now.fixed.now }
    {
        number_of(places_of(self.head.opcode).forgotten, self.fixed)
    }

    /// The number of the request that an INTERRUPT is about.
    pub fn interrupted(&self) -> Option<u64>
        ensures { result ≡ number_in (places_at self.now.head.opcode).interrupted self.now.fixed.now }
    {
        number_of(places_of(self.head.opcode).interrupted, self.fixed)
    }

    /// Where in a file or a directory the request begins.
    pub fn offset(&self) -> Option<u64>
        ensures { result ≡ number_in (places_at self.now.head.opcode).offset self.now.fixed.now }
    {
        number_of(places_of(self.head.opcode).offset, self.fixed)
    }

    /// How many bytes it is about.
    pub fn size(&self) -> Option<u64>
        ensures { result ≡ number_in (places_at self.now.head.opcode).size self.now.fixed.now }
    {
        number_of(places_of(self.head.opcode).size, self.fixed)
    }

    /// The mode to create under, or of ACCESS and FALLOCATE.
    pub fn mode(&self) -> Option<u64>
        ensures { result ≡ number_in (places_at self.now.head.opcode).mode self.now.fixed.now }
    {
        number_of(places_of(self.head.opcode).mode, self.fixed)
    }

    /// The flags; of SETATTR which attributes it sets.
    pub fn flags(&self) -> Option<u64>
        ensures { result ≡ number_in (places_at self.now.head.opcode).flags self.now.fixed.now }
    {
        number_of(places_of(self.head.opcode).flags, self.fixed)
    }

    /// The pairs of a BATCH_FORGET, a node and how many lookups of it are taken back, or those of a
    /// REMOVEMAPPING; of another request none.
    pub fn pairs(&self) -> Pairs<'a>
        ensures { pairs_in result ≡ pairs_of_row (row_at self.now.head.opcode).tail self.now.tail.now }
    {
        if matches!(row_of(self.head.opcode).tail, Tail::Pairs(_)) {
            Pairs::over(self.tail)
        } else {
            Pairs::over(&[])
        }
    }
}
