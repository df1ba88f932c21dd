//! A number at a place in some bytes.

ghost use Rattle.std.specs.Prelude.{◌≡◌};
ghost use Rattle.fuse_protocol.specs.Places.{number_in};

use fk_fields::{u32_at, u64_at};

/// How many bytes a number has, the lowest first.
#[derive(Clone, Copy, Debug, PartialEq, Eq)]
pub enum Width {
    Four,
    Eight,
}

/// Where a number stands in a struct.
#[derive(Clone, Copy, Debug, PartialEq, Eq)]
pub struct Place {
    /// How many bytes of the struct come before it.
    pub at: usize,
    pub width: Width,
}

impl Place {
    /// The number at the place, or `None` where the bytes end before it does.
    #[inline(always)]
    pub fn number_in(self, bytes: &[u8]) -> Option<u64>
        ensures { result ≡ number_in (Some self) bytes.now }
    {
        match self.width {
            Width::Four => if bytes.len() >= 4 && bytes.len() - 4 >= self.at {
                Some(u64::from(u32_at(bytes, self.at)))
            } else {
                None
            },
            Width::Eight => if bytes.len() >= 8 && bytes.len() - 8 >= self.at {
                Some(u64_at(bytes, self.at))
            } else {
                None
            },
        }
    }
}

/// The number at a place, if there is a place and it lies in the bytes.
pub(crate) fn number_of(place: Option<Place>, bytes: &[u8]) -> Option<u64>
    ensures { result ≡ number_in place bytes.now }
{
    match place {
        None => None,
        Some(place) => place.number_in(bytes),
    }
}
