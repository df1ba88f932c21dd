//! Entries, attributes and open handles.

ghost use Rattle.std.specs.Prelude.{◌≡◌, ◌≤◌, ◌+◌, length};
ghost use Rattle.fuse_replies.specs.Entries.{attributes_at as attributes_given, entry_at as entry_given};
ghost use Rattle.fuse_replies.specs.Entries.{valid_attributes_at as valid_attributes_given, opened_at as opened_given};

use fk_fields::{u32_at, u64_at};

/// For how long the kernel may keep what it was given.
#[derive(Clone, Copy, Debug, PartialEq, Eq)]
pub struct Validity {
    pub seconds: u64,
    pub nanoseconds: u32,
}

/// The attributes of a file: fields of `struct fuse_attr`.
#[derive(Clone, Copy, Debug, PartialEq, Eq)]
pub struct Attributes {
    pub ino: u64,
    /// The file's size in bytes.
    pub size: u64,
    /// The file's kind in the type bits, octal 0170000, and its permissions.
    pub mode: u32,
    /// How many names the file has.
    pub nlink: u32,
    pub uid: u32,
    pub gid: u32,
}

/// Attributes, and for how long they are valid: `struct fuse_attr_out`.
#[derive(Clone, Copy, Debug, PartialEq, Eq)]
pub struct ValidAttributes {
    pub validity: Validity,
    pub attributes: Attributes,
}

/// The file of a name: `struct fuse_entry_out`. With node 0 no file has the name.
#[derive(Clone, Copy, Debug, PartialEq, Eq)]
pub struct Entry {
    pub nodeid: u64,
    /// Which of the files it is that had this node's number in turn.
    pub generation: u64,
    /// For how long the name is valid.
    pub name_validity: Validity,
    /// For how long the attributes are valid.
    pub validity: Validity,
    pub attributes: Attributes,
}

/// What was opened: `struct fuse_open_out`.
#[derive(Clone, Copy, Debug, PartialEq, Eq)]
pub struct Opened {
    pub handle: u64,
    pub flags: u32,
}

/// The attributes at a place.
fn attributes_at(bytes: &[u8], place: usize) -> Attributes
    requires { place + 88 ≤ length bytes.now }
    ensures { result ≡ attributes_given place bytes.now }
{
    Attributes {
        ino: u64_at(bytes, place),
        size: u64_at(bytes, place + 8),
        mode: u32_at(bytes, place + 60),
        nlink: u32_at(bytes, place + 64),
        uid: u32_at(bytes, place + 68),
        gid: u32_at(bytes, place + 72),
    }
}

/// The attributes at a place, and for how long they are valid.
pub(crate) fn valid_attributes_at(bytes: &[u8], place: usize) -> ValidAttributes
    requires { place + 104 ≤ length bytes.now }
    ensures { result ≡ valid_attributes_given place bytes.now }
{
    ValidAttributes {
        validity: Validity {
            seconds: u64_at(bytes, place),
            nanoseconds: u32_at(bytes, place + 8),
        },
        attributes: attributes_at(bytes, place + 16),
    }
}

/// The entry at a place.
pub(crate) fn entry_at(bytes: &[u8], place: usize) -> Entry
    requires { place + 128 ≤ length bytes.now }
    ensures { result ≡ entry_given place bytes.now }
{
    Entry {
        nodeid: u64_at(bytes, place),
        generation: u64_at(bytes, place + 8),
        name_validity: Validity {
            seconds: u64_at(bytes, place + 16),
            nanoseconds: u32_at(bytes, place + 32),
        },
        validity: Validity {
            seconds: u64_at(bytes, place + 24),
            nanoseconds: u32_at(bytes, place + 36),
        },
        attributes: attributes_at(bytes, place + 40),
    }
}

/// The handle at a place, and its flags.
pub(crate) fn opened_at(bytes: &[u8], place: usize) -> Opened
    requires { place + 16 ≤ length bytes.now }
    ensures { result ≡ opened_given place bytes.now }
{
    Opened {
        handle: u64_at(bytes, place),
        flags: u32_at(bytes, place + 8),
    }
}
