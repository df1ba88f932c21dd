//! The two ends of a link.

ghost use Rattle.std.specs.Prelude.{◌≡◌};
ghost use Rattle.fw_link.specs.Traffic.{other_side};

/// An end of a link.
#[derive(Clone, Copy, Debug, PartialEq, Eq)]
pub enum Side {
    /// The end that puts requests and results, and gets replies.
    Kernel,
    /// The end that puts replies, and gets requests and results.
    Server,
}

impl Side {
    /// The other end.
    pub fn other(self) -> Side
        ensures { result ≡ other_side self }
    {
        match self {
            Side::Kernel => Side::Server,
            Side::Server => Side::Kernel,
        }
    }
}
