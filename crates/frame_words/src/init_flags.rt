//! The flags of INIT.

ghost use Rattle.std.specs.Prelude.{◌≡◌, ◌<◌, ◌++◌, OnOk, codes, option_map};
ghost use Rattle.std.specs.Int.{w64, to_be_bytes};
ghost use Rattle.std.specs.Io.KnownBytes.{Appends};
ghost use Rattle.hex.specs.Hex.{encode_lower};
ghost use Rattle.frame_words.specs.InitFlags.{bit_words, flag_name, flag_names_words, flag_words, init_flag_words};

use std::io;
use std::io::Write;

/// How many bits a word of flags has.
const BITS: u32 = 64;

/// The name of a bit (linux/fuse.h, `FUSE_ASYNC_READ` and those that follow it).
#[tactic(auto, unfolding(crate::specs::InitFlags::flag_name))]
fn name_of_flag(bit: u32) -> Option<&'static str>
    ensures { option_map (λ name. name.now) result ≡ flag_name bit }
{
    match bit {
        0 => Some("ASYNC_READ"),
        1 => Some("POSIX_LOCKS"),
        2 => Some("FILE_OPS"),
        3 => Some("ATOMIC_O_TRUNC"),
        4 => Some("EXPORT_SUPPORT"),
        5 => Some("BIG_WRITES"),
        6 => Some("DONT_MASK"),
        7 => Some("SPLICE_WRITE"),
        8 => Some("SPLICE_MOVE"),
        9 => Some("SPLICE_READ"),
        10 => Some("FLOCK_LOCKS"),
        11 => Some("HAS_IOCTL_DIR"),
        12 => Some("AUTO_INVAL_DATA"),
        13 => Some("DO_READDIRPLUS"),
        14 => Some("READDIRPLUS_AUTO"),
        15 => Some("ASYNC_DIO"),
        16 => Some("WRITEBACK_CACHE"),
        17 => Some("NO_OPEN_SUPPORT"),
        18 => Some("PARALLEL_DIROPS"),
        19 => Some("HANDLE_KILLPRIV"),
        20 => Some("POSIX_ACL"),
        21 => Some("ABORT_ERROR"),
        22 => Some("MAX_PAGES"),
        23 => Some("CACHE_SYMLINKS"),
        24 => Some("NO_OPENDIR_SUPPORT"),
        25 => Some("EXPLICIT_INVAL_DATA"),
        26 => Some("MAP_ALIGNMENT"),
        27 => Some("SUBMOUNTS"),
        28 => Some("HANDLE_KILLPRIV_V2"),
        29 => Some("SETXATTR_EXT"),
        30 => Some("INIT_EXT"),
        31 => Some("INIT_RESERVED"),
        32 => Some("SECURITY_CTX"),
        33 => Some("HAS_INODE_DAX"),
        34 => Some("CREATE_SUPP_GROUP"),
        35 => Some("HAS_EXPIRE_ONLY"),
        36 => Some("DIRECT_IO_ALLOW_MMAP"),
        37 => Some("PASSTHROUGH"),
        38 => Some("NO_EXPORT_SUPPORT"),
        39 => Some("HAS_RESEND"),
        40 => Some("ALLOW_IDMAP"),
        41 => Some("OVER_IO_URING"),
        42 => Some("REQUEST_TIMEOUT"),
        _ => None,
    }
}

/// Writes ` NAME`, if there is a name.
fn write_flag_name<W: Write>(out: &mut W, name: Option<&str>) -> io::Result<()>
    ensures { OnOk result (Appends (W.contents out.old) (W.contents out.new)
        (bit_words (option_map (λ name. name.now) name.entry))) }
{
    match name {
        Some(name) => write!(out, " {name}"),
        None => out.write_all(b""),
    }
}

/// Writes ` NAME` of a bit, where it is set and has a name.
#[tactic(auto, unfolding(crate::specs::InitFlags::flag_words))]
fn write_flag<W: Write>(out: &mut W, flags: u64, bit: u32) -> io::Result<()>
    requires { bit < 64 }
    ensures { OnOk result (Appends (W.contents out.old) (W.contents out.new) (flag_words flags bit)) }
{
    if (flags >> bit) & 1 == 0 {
        out.write_all(b"")
    } else {
        write_flag_name(out, name_of_flag(bit))
    }
}

/// Writes the name of each bit that is set and has one, the lowest bit first.
fn write_flag_names<W: Write>(out: &mut W, flags: u64) -> io::Result<()>
    ensures { OnOk result (Appends (W.contents out.old) (W.contents out.new) (flag_names_words flags)) }
{
    for bit in 0..BITS {
        write_flag(out, flags, bit)?;
    }
    Ok(())
}

/// Writes ` flags 0x` and 16 digits of hex.
fn write_digits<W: Write>(out: &mut W, flags: u64) -> io::Result<()>
    ensures { OnOk result (Appends (W.contents out.old) (W.contents out.new)
        (codes " flags 0x" ++ encode_lower (to_be_bytes w64 flags))) }
{
    let mut digits = [0; 16];
    let _encoded = hex::encode_to_slice(&flags.to_be_bytes(), &mut digits);
    out.write_all(b" flags 0x")?;
    out.write_all(&digits)
}

/// Writes the flags as 16 digits of hex, and their names.
#[tactic(auto, unfolding(crate::specs::InitFlags::init_flag_words))]
pub(crate) fn write_init_flags<W: Write>(out: &mut W, flags: u64) -> io::Result<()>
    ensures { OnOk result (Appends (W.contents out.old) (W.contents out.new) (init_flag_words flags)) }
{
    write_digits(out, flags)?;
    write_flag_names(out, flags)
}
