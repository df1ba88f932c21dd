//! The flags of INIT in words.

ghost use Rattle.std.specs.Prelude.{◌≡◌, ◌++◌, ◌∷◌, [], OnOk, codes};
ghost use Rattle.std.specs.Int.RustNames.{bit_and};
ghost use Rattle.std.specs.Io.KnownBytes.{Appends};
ghost use Rattle.fk_wire.specs.Requests.{known_flags};
ghost use Rattle.fw_frames.specs.Words.{flag_word, flag_words};

use bitflags::Flags;
use fk_wire::InitFlags;
use std::io;
use std::io::Write;

/// The flags that are known, as the number in the frame.
#[tactic(auto, unfolding(bitflags::specs::Sets::known_from))]
fn known_bits(flags: InitFlags) -> u32
    ensures { result ≡ bit_and flags.0 known_flags }
{
    InitFlags::from_bits_truncate(flags.bits()).bits()
}

/// Writes a flag's name, where a number has its bit.
#[tactic(auto, unfolding(crate::specs::Words::flag_word))]
fn write_flag<W: Write>(out: &mut W, flags: u32, bit: u32, name: &[u8]) -> io::Result<()>
    ensures { OnOk result (Appends (W.contents out.old) (W.contents out.new) (flag_word flags bit name.now)) }
{
    if flags & bit == 0 {
        out.write_all(b"")
    } else {
        out.write_all(name)
    }
}

/// Writes ` flags` and the name of each flag whose bit a number has.
fn write_bits<W: Write>(out: &mut W, bits: u32) -> io::Result<()>
    ensures { OnOk result (Appends (W.contents out.old) (W.contents out.new) (flag_words bits)) }
{
    out.write_all(b" flags")?;
    write_flag(out, bits, 1, b" ASYNC_READ")?;
    write_flag(out, bits, 0x2000, b" DO_READDIRPLUS")?;
    write_flag(out, bits, 0x40000, b" PARALLEL_DIROPS")
}

/// Writes ` flags` and the name of each flag.
pub(crate) fn write_flags<W: Write>(out: &mut W, flags: InitFlags) -> io::Result<()>
    ensures { OnOk result (Appends (W.contents out.old) (W.contents out.new) (flag_words (bit_and flags.0 known_flags))) }
{
    write_bits(out, known_bits(flags))
}
