//! The rows of a picture, from the lines of a capture.

ghost use Rattle.std.specs.Prelude.{◌∷◌, [], Contains, IfErr};
ghost use Rattle.fuse_text.specs.Stops.{status_of};

use crate::counts::Counts;
use crate::row::{Row, pass_over, row_of};
use fuse_capture::{CaptureFault, CaptureLine, read_line, read_transfer};
use fuse_text::Stop;
use fw_decode::{Decoding, next_line};
use std::alloc::{Allocator, Global};
use std::io::BufRead;

/// How many lines before the one that is asked for have rows, and how many after it.
pub(crate) const BESIDE: u64 = 12;

/// What is known of a capture so far, and its rows.
#[derive(Drop)]
struct Session<A: Allocator + Copy = Global> {
    alloc: A,
    decoding: Decoding<A>,
    counts: Counts<A>,
    frame: Vec<u8, A>,
    rows: Vec<Row<A>, A>,
}

impl<A: Allocator + Copy> Session<A> {
    /// Adds a line: it has a row where it stands near the one that is asked for.
    fn add_line(
        &mut self,
        around: u64,
        number: u64,
        line: CaptureLine<'_>,
    ) -> Result<(), Stop<CaptureFault>> {
        let Ok(transfer) = read_transfer(line, &mut self.frame) else {
            return Err(Stop::NoMemory);
        };
        let (decoding, counts) = (&mut self.decoding, &mut self.counts);
        if number.saturating_add(BESIDE) < around {
            return pass_over(decoding, counts, transfer).map_err(|_| Stop::NoMemory);
        }
        let row = row_of(self.alloc, number, decoding, counts, transfer).map_err(
            |_| Stop::NoMemory,
        )?;
        self.rows.push(row).map_err(|_| Stop::NoMemory)
    }

    /// Adds a line, by its text.
    fn add_text(&mut self, around: u64, number: u64, text: &[u8]) -> Result<(), Stop<CaptureFault>>
        ensures { IfErr result (λ stop. Contains (1 ∷ 3 ∷ []) (status_of stop)) }
    {
        match read_line(text) {
            Ok(Some(line)) => match self.add_line(around, number, line) {
                Ok(()) => Ok(()),
                Err(_) => Err(Stop::NoMemory),
            },
            Ok(None) => Ok(()),
            Err(fault) => Err(Stop::BadLine { number, fault }),
        }
    }
}

/// The rows of the lines around one. What comes after them is not read.
///
/// # Errors
///
/// The capture cannot be read, the first bad line up to there, or out of memory.
pub(crate) fn read_rows<A: Allocator + Copy, R: BufRead>(
    alloc: A,
    around: u64,
    input: &mut R,
) -> Result<Vec<Row<A>, A>, Stop<CaptureFault>>
    ensures { IfErr result (λ stop. Contains (1 ∷ 3 ∷ []) (status_of stop)) }
{
    let mut session = Session {
        alloc,
        decoding: Decoding::new(alloc),
        counts: Counts::new(alloc),
        frame: Vec::new(alloc),
        rows: Vec::new(alloc),
    };
    let mut text = Vec::new(alloc);
    for before in 0..around.saturating_add(BESIDE) {
        match next_line(input, &mut text) {
            Ok(true) => {}
            Ok(false) => break,
            Err(stop) => return Err(stop),
        }
        match session.add_text(around, before.saturating_add(1), text.as_slice()) {
            Ok(()) => {}
            Err(stop) => return Err(stop),
        }
    }
    Ok(session.rows)
}
