//! What a script of `drive` has in its lines.

ghost use Rattle.std.specs.Prelude.{◌↔◌, IsTrue};
ghost use Rattle.fw_drive.specs.DriveLines.{IsOfCalls};

/// The kinds of scripts.
#[derive(Clone, Copy, Debug, PartialEq, Eq)]
pub enum Form {
    /// Each event of the kernel, and each frame that is sent and received.
    Events,
    /// Calls and what happens between them. Each call is carried to its answer, and a mount goes before the first.
    Calls,
    /// Calls alone, each of which is also made in a world of this project's own.
    CallsBeside,
}

impl Form {
    /// Whether the script has calls alone.
    pub(crate) fn is_of_calls(self) -> bool
        ensures { IsTrue result ↔ IsOfCalls self }
    {
        match self {
            Form::Events => false,
            Form::Calls | Form::CallsBeside => true,
        }
    }
}
