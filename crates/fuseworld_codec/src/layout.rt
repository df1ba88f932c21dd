//! The structs that cross to C, as include/fuseworld.h declares them.

/// The head of a request frame: of `struct fuse_in_header` the fields `unique` and `opcode`.
#[repr(C)]
#[derive(Clone, Copy, Debug)]
pub struct RequestHead {
    pub unique: u64,
    /// Known or not.
    pub opcode: u32,
    /// 0.
    pub padding: u32,
}

/// A request, in one struct for all opcodes: the fields of its struct of linux/fuse.h that are not free.
///
/// Which fields count depends on the opcode, and the others are 0. Offsets and lengths are bytes within
/// the caller's bytes: those of the frame that was read, or those that a call that writes is given.
#[repr(C)]
#[derive(Clone, Copy, Debug)]
pub struct FlatRequest {
    pub unique: u64,
    /// 0 under INIT, INTERRUPT and BATCH_FORGET.
    pub nodeid: u64,
    /// READ, WRITE, RELEASE.
    pub fh: u64,
    /// In bytes under READ and WRITE; under READDIR and READDIRPLUS the `off` where the list goes on.
    pub offset: u64,
    /// FORGET.
    pub nlookup: u64,
    /// RENAME.
    pub newdir: u64,
    /// LINK.
    pub oldnodeid: u64,
    /// INTERRUPT: the `unique` of the request that is interrupted.
    pub interrupted: u64,
    /// LOOKUP, MKDIR, UNLINK, RMDIR, LINK, CREATE, and the old name of a RENAME, without its NUL byte.
    pub name_offset: usize,
    pub name_length: usize,
    /// The new name of a RENAME, without its NUL byte.
    pub newname_offset: usize,
    pub newname_length: usize,
    /// The data of a WRITE; the pairs of a BATCH_FORGET, 16 bytes each.
    pub data_offset: usize,
    pub data_length: usize,
    pub opcode: u32,
    /// READ, READDIR, READDIRPLUS: how many bytes are wanted at most.
    pub size: u32,
    /// INIT.
    pub major: u32,
    /// INIT.
    pub minor: u32,
    /// INIT: the known bits.
    pub flags: u32,
    /// 0.
    pub padding: u32,
}

/// The head of a reply frame: `struct fuse_out_header` but `len`.
#[repr(C)]
#[derive(Clone, Copy, Debug)]
pub struct ReplyHead {
    pub unique: u64,
    /// 0 or a negated error number, down to -511.
    pub error: i32,
    /// 0.
    pub padding: u32,
}

/// The attributes of a file: the fields of `struct fuse_attr` that are not free.
#[repr(C)]
#[derive(Clone, Copy, Debug)]
pub struct FlatAttr {
    pub ino: u64,
    /// The file's size in bytes.
    pub size: u64,
    /// The file's kind in the type bits, octal 0170000: 040000 is a directory and 0100000 a file.
    pub mode: u32,
    /// How many names the file has.
    pub nlink: u32,
}

/// The file of a name: the fields of `struct fuse_entry_out` that are not free.
///
/// With node id 0 no file has the name, and the generation and the attributes do not count.
#[repr(C)]
#[derive(Clone, Copy, Debug)]
pub struct FlatEntry {
    pub nodeid: u64,
    /// Which of the files it is that had this node id in turn.
    pub generation: u64,
    /// For how many seconds the name is valid.
    pub entry_valid: u64,
    /// And for how many nanoseconds, at most 999,999,999.
    pub entry_valid_nsec: u32,
    /// 0.
    pub padding: u32,
    pub attr: FlatAttr,
}

/// A reply, in one struct for all opcodes: the fields of its struct of linux/fuse.h that are not free.
///
/// Which fields count depends on the opcode, and under an error none but the first three. The others
/// are 0. The offset is in bytes within the caller's bytes, as of a request.
#[repr(C)]
#[derive(Clone, Copy, Debug)]
pub struct FlatReply {
    /// The number of the request.
    pub unique: u64,
    /// 0 or a negated error number, down to -511.
    pub error: i32,
    /// The opcode of the request.
    pub opcode: u32,
    /// LOOKUP, MKDIR, LINK, CREATE; under GETATTR its `attr` alone.
    pub entry: FlatEntry,
    /// OPEN, CREATE.
    pub fh: u64,
    /// The bytes of a READ; the records of a READDIR or a READDIRPLUS.
    pub data_offset: usize,
    pub data_length: usize,
    /// WRITE: how many bytes were written.
    pub size: u32,
    /// INIT.
    pub major: u32,
    /// INIT.
    pub minor: u32,
    /// INIT: the known bits.
    pub flags: u32,
}

/// A node and how many lookups of it are forgotten: `struct fuse_forget_one`.
#[repr(C)]
#[derive(Clone, Copy, Debug)]
pub struct ForgetOne {
    pub nodeid: u64,
    pub nlookup: u64,
}

/// A name in a directory: `struct fuse_dirent`.
#[repr(C)]
#[derive(Clone, Copy, Debug)]
pub struct FlatDirent {
    /// The inode number of the file.
    pub ino: u64,
    /// Where a list that goes on behind this record starts.
    pub off: u64,
    /// The name is in bytes of the caller's: 1 to 255 of them without NUL and `/`; it may be `.` or `..`.
    pub name_offset: usize,
    pub name_length: usize,
    /// 4 for a directory, 8 for a file: the field `type`.
    pub kind: u32,
    /// 0.
    pub padding: u32,
}

/// A name in a directory and its file: `struct fuse_direntplus`.
#[repr(C)]
#[derive(Clone, Copy, Debug)]
pub struct FlatDirentPlus {
    pub entry: FlatEntry,
    pub dirent: FlatDirent,
}
