//! What a name of a list gives.

ghost use Rattle.std.specs.Prelude.{◌≡◌};
ghost use Rattle.fk_wire.specs.Records.{direntplus_content};
ghost use Rattle.fk_wire.specs.Entries.{entry_content};
ghost use Rattle.fuse_frames.specs.ReplyTies.{pair_in, valid_in};
ghost use Rattle.fuse_spec.specs.Files.Operations.{listed_by};

use fk_wire::DirentPlus;
use fuse_frames::listed_by;
use fuse_spec::Entry;

/// For how many milliseconds a name leads to the file of its entry.
pub(crate) fn valid_ms(pair: &DirentPlus<'_>) -> u64
    ensures { result ≡ valid_in (entry_content pair.now.entry_out) }
{
    listed_by(pair).1
}

/// The file that a name gives, if it gives one: `.` and `..` give none (linux/fuse.h, struct fuse_direntplus).
pub(crate) fn entry_of(pair: &DirentPlus<'_>) -> Option<Entry>
    ensures { result ≡ listed_by (pair_in (direntplus_content pair.now)) }
{
    listed_by(pair).0
}
