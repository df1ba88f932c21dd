//! Error numbers (errno.h), as the definitions have them in `Numbers.antt`.

pub const ENOENT: u32 = 2;

pub const EINTR: u32 = 4;

pub const EIO: u32 = 5;

pub const EBADF: u32 = 9;

pub const EAGAIN: u32 = 11;

pub const EINVAL: u32 = 22;

pub const ENAMETOOLONG: u32 = 36;

pub const ENOSYS: u32 = 38;

pub const ECONNABORTED: u32 = 103;

pub const ENOTCONN: u32 = 107;
