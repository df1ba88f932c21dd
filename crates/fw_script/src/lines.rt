//! The lines of a script.

ghost use Rattle.std.specs.Prelude.{◌≡◌, ◌↔◌, All, IfErr, IfOk};
ghost use Rattle.std.specs.Prelude.{IfSome, IsTrue, MatchOption, MatchResult, option_copied};
ghost use Rattle.std.specs.Iterator.{YieldsFirstRef, item_count};
ghost use Rattle.fw_script.specs.Lines.{IsWritten, LineHasWords};
ghost use Rattle.fw_script.specs.Running.{JudgingEnds, Say};
ghost use Rattle.fw_script.specs.Scripts.{IsGoodLine, IsGoodScript};
ghost use Rattle.fw_script.specs.Scripts.{IsPassedOver, LineFaultIs};
ghost use Rattle.fuse_text.specs.Lines.{lines_left, lines_of};
ghost use Rattle.fuse_text.specs.Words.{words_of};

use crate::line::{Line, LineFault, read_line};
use crate::number_lines::{line_of_number, read_number_line};
use fuse_text::{Stop, find_far, split_at_first};
use std::alloc::Allocator;

/// What is left of a script, line by line.
#[derive(Drop)]
pub struct Lines<'a> {
    rest: Option<&'a [u8]>,
}

impl<'a> Lines<'a> {
    /// The lines of a script: what stands before, between and after its line feeds.
    pub fn of(script: &'a [u8]) -> Lines<'a>
        ensures { lines_left (option_copied result.rest) ≡ lines_of script.now }
    {
        Lines { rest: Some(script) }
    }
}

impl<'a> Iterator for Lines<'a> {
    type Item = &'a [u8];

    ghost next_gives = { YieldsFirstRef (λ lines. lines_left (option_copied lines.rest)) };

    ghost remaining = { item_count (λ lines. lines_left (option_copied lines.rest)) };

    fn next(&mut self) -> Option<&'a [u8]> {
        let text = self.rest?;
        let (line, rest) = split_at_first(text, b'\n', find_far(text, b'\n'));
        self.rest = rest;
        Some(line)
    }
}

/// Whether a line says nothing: an empty one, or one that begins with `#`.
pub fn is_passed_over(line: &[u8]) -> bool
    ensures { IsTrue result ↔ IsPassedOver line.now }
{
    matches!(line, [] | [b'#', ..])
}

/// Why a script is refused whose lines cannot be kept: for its first line with a fault, or else as out of memory.
#[cold]
fn refused_lines(script: &[u8]) -> Stop<LineFault>
    ensures { JudgingEnds script.now result }
{
    let mut number = 0;
    for line in Lines::of(script) {
        number += 1;
        if is_passed_over(line) {
            continue;
        }
        if let Err(fault) = read_line(line) {
            return Stop::BadLine { number, fault };
        }
    }
    Stop::NoMemory
}

/// What the lines of a script say, in their order. Else the first line with a fault; out of memory comes after that.
pub(crate) fn read_lines<A: Allocator>(
    alloc: A,
    script: &[u8],
) -> Result<Vec<Line<'_>, A>, Stop<LineFault>>
    ensures good { IfOk result (λ lines. IsGoodScript script.now × All IsWritten lines.items) }
    ensures say { IfOk result (λ lines. Say (lines_of script.now) lines.items) }
    ensures refused { IfErr result (JudgingEnds script.now) }
{
    let mut lines = Vec::new(alloc);
    let mut rest = Some(script);
    let mut number = 0;
    'lines: while let Some(text) = rest {
        number += 1;
        if let Some((form, argument, behind)) = read_number_line(text) {
            rest = Some(behind);
            if lines.push(line_of_number(form, argument)).is_err() {
                return Err(refused_lines(script));
            }
            continue;
        }
        let (line, behind) = split_at_first(text, b'\n', find_far(text, b'\n'));
        rest = behind;
        if is_passed_over(line) {
            continue;
        }
        match read_line(line) {
            Ok(said) => {
                if lines.push(said).is_err() {
                    return Err(refused_lines(script));
                }
            }
            Err(fault) => return Err(Stop::BadLine { number, fault }),
        }
    }
    Ok(lines)
}
