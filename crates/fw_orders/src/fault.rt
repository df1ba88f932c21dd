//! What may be wrong with a line of a file of calls.

ghost use Rattle.std.specs.Prelude.{◌≡◌};
ghost use Rattle.fw_orders.specs.Stops.{fault_words};

use fuse_text::LineFaultWords;
use fw_script::LineFault;
use thiserror::Error;

/// The first fault of a line, in this order.
#[derive(Clone, Copy, Debug, Drop, Error, PartialEq, Eq)]
#[error("{}", self.words())]
pub enum LinesFault {
    /// What the line says, or what stands behind `together`.
    Line(LineFault),
    /// A ninth call that runs together with others.
    TooManyCalls,
    /// A second step among calls that run together.
    SecondStep,
    /// A line beyond the most that a file may have.
    TooManyLines,
}

impl LinesFault {
    /// The fault in words.
    pub(crate) fn words(self) -> &'static str
        ensures { result.now ≡ fault_words self }
    {
        match self {
            LinesFault::Line(fault) => fault.words(),
            LinesFault::TooManyCalls => "too many calls together",
            LinesFault::SecondStep => "second step together",
            LinesFault::TooManyLines => "too many lines",
        }
    }
}
