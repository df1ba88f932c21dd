//! The limits of frames.

ghost use Rattle.std.specs.Prelude.{◌↔◌, IsTrue};
ghost use Rattle.fk_wire.specs.Replies.{IsErrorNumber};

/// How many bytes a frame has at most: a WRITE of 4,096 bytes. This project's rule.
pub const MAX_FRAME: usize = 4176;

/// Whether this is the error of a reply: 0, or a negated error number down to -511.
pub(crate) fn is_error_number(error: i32) -> bool
    ensures { IsTrue result ↔ IsErrorNumber error }
{
    -511 <= error && error <= 0
}
