//! Where further numbers stand in the requests' structs.

ghost use Rattle.std.specs.Prelude.{◌≡◌, Some};
ghost use Rattle.fuse_protocol.specs.Places.{places_at, LieWithin};
ghost use Rattle.fuse_protocol.specs.Table.{row_at};
ghost use Rattle.fuse_protocol.specs.Requests.{least_size};
ghost use Rattle.fuse_protocol.specs.declared.place.Width.TheVariants as width;

use crate::opcode::Opcode;
use crate::place::{Place, Width};

/// Where further numbers stand in a request's struct, each if the request has it.
#[derive(Clone, Copy, Debug, PartialEq, Eq)]
pub struct Places {
    /// How many lookups a FORGET takes back.
    pub forgotten: Option<Place>,
    /// The number of the request that an INTERRUPT is about.
    pub interrupted: Option<Place>,
    /// Where in a file or a directory the request begins.
    pub offset: Option<Place>,
    /// How many bytes it is about.
    pub size: Option<Place>,
    /// The mode to create under, or of ACCESS and FALLOCATE.
    pub mode: Option<Place>,
    /// The flags; of SETATTR which attributes it sets.
    pub flags: Option<Place>,
}

/// A number of four bytes at a place.
#[inline(always)]
fn four(at: usize) -> Option<Place>
    ensures { result ≡ Some (record { at = at; width = width.Four }) }
{
    Some(Place {
        at,
        width: Width::Four,
    })
}

/// A number of eight bytes at a place.
#[inline(always)]
fn eight(at: usize) -> Option<Place>
    ensures { result ≡ Some (record { at = at; width = width.Eight }) }
{
    Some(Place {
        at,
        width: Width::Eight,
    })
}

/// No number further.
const NOWHERE: Places = Places {
    forgotten: None,
    interrupted: None,
    offset: None,
    size: None,
    mode: None,
    flags: None,
};

/// The places of opcodes, in braces behind their names.
macro_rules! places {
    ($opcode:expr, $($($name:ident)+ { $($field:ident: $place:expr),* })*) => {
        match $opcode {
            $($(Opcode::$name)|+ => Places {
                $($field: $place,)*
                ..NOWHERE
            },)*
        }
    };
}

/// Where further numbers stand in the struct of an opcode's requests.
#[inline(always)]
pub fn places_of(opcode: Opcode) -> Places
    ensures places { result ≡ places_at opcode }
    // Each lies in the struct.
    ensures within { LieWithin (least_size (row_at opcode).fixed) result }
{
    places! {
        opcode,
        Lookup Readlink Symlink Unlink Rmdir Rename Link Statfs Removexattr Flush Bmap Destroy BatchForget
            Removemapping Syncfs {}
        Forget { forgotten: eight(0) }
        Getattr Open Opendir Statx { flags: four(0) }
        Setattr { flags: four(0), size: eight(16), mode: four(68) }
        Mknod Mkdir Access { mode: four(0) }
        Read Write Readdir Readdirplus { offset: eight(8), size: four(16), flags: four(32) }
        Release Fsync Releasedir Fsyncdir Rename2 { flags: four(8) }
        Setxattr { size: four(0), flags: four(4) }
        Getxattr Listxattr { size: four(0) }
        Init { flags: four(12) }
        Getlk Setlk Setlkw { offset: eight(16), flags: four(40) }
        Create Tmpfile { flags: four(0), mode: four(4) }
        Interrupt { interrupted: eight(0) }
        Ioctl { flags: four(8), size: four(24) }
        Poll { flags: four(16) }
        NotifyReply { offset: eight(8), size: four(16) }
        Fallocate { offset: eight(8), size: eight(16), mode: four(24) }
        Lseek { offset: eight(8) }
        CopyFileRange CopyFileRange64 { offset: eight(8), size: eight(40), flags: eight(48) }
        Setupmapping { offset: eight(8), size: eight(16), flags: eight(24) }
    }
}
