//! Names.

ghost use Rattle.std.specs.Prelude.{◌≡◌};
ghost use Rattle.fuse_spec.specs.Calls.Paths.{is_dots};

/// Whether a name is `.` or `..`, or has no byte.
pub fn is_dots(name: &[u8]) -> bool
    ensures { result ≡ is_dots name.now }
{
    match name {
        [] => true,
        [first] => *first == b'.',
        [first, second] => *first == b'.' && *second == b'.',
        _ => false,
    }
}
