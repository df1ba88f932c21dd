//! Where the lines of a script stand that say something.

use fw_script::{Lines, is_passed_over};

/// A line: its number from 1, and its text.
#[derive(Clone, Copy)]
pub(crate) struct Place<'a> {
    pub(crate) number: u64,
    pub(crate) text: &'a [u8],
}

/// What is left of a script, by the lines that say something.
#[derive(Drop)]
pub(crate) struct Places<'a> {
    lines: Lines<'a>,
    /// The number of the last line that was given.
    number: u64,
}

impl<'a> Places<'a> {
    /// The lines of a script.
    pub(crate) fn of(script: &'a [u8]) -> Self {
        Places {
            lines: Lines::of(script),
            number: 0,
        }
    }

    /// The next line that says something: an empty one where there is none.
    pub(crate) fn next_said(&mut self) -> Place<'a> {
        for _line in 0..u64::MAX {
            let Some(text) = self.lines.next() else {
                break;
            };
            self.number = self.number.saturating_add(1);
            if !is_passed_over(text) {
                return Place {
                    number: self.number,
                    text,
                };
            }
        }
        Place {
            number: self.number,
            text: b"",
        }
    }
}
