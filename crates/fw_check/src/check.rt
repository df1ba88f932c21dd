//! The check of a capture.

ghost use Rattle.std.specs.Prelude.{ℕ, List, Option, IfSome};
ghost use Rattle.std.specs.Io.KnownBytes.{Appends};
ghost use Rattle.fw_check.specs.Checks.{nothing_judged};
ghost use Rattle.fw_check.specs.Endings.{EndsCheck};
ghost use Rattle.fw_check.specs.Forms as words;
ghost use Rattle.fw_check.specs.Running.{CheckEnds, IsKept, IsUpTo, LinesEnd, NextEnds, PrintsEnd, seen_by};
ghost use Rattle.fw_check.specs.Summary.{exchanges_of};

use crate::checker::{Checker, print, remains_of};
use crate::counts::Counts;
use crate::exchanges::Exchanges;
use crate::form::{head_text, put_end};
use crate::lines::next_line;
use crate::options::CheckOptions;
use crate::remains::Remains;
use fuse_capture::CaptureFault;
use fuse_text::{FAULTS, Stop};
use std::alloc::Allocator;
use std::io::{BufRead, Write};

/// Reads the next line and judges it. Says whether more lines come.
fn check_next<A: Allocator + Copy, R: BufRead, W: Write>(
    options: CheckOptions,
    checker: &mut Checker<A>,
    input: &mut R,
    line: &mut Vec<u8, A>,
    number: u64,
    out: &mut W,
) -> Result<bool, Stop<CaptureFault>>
    ensures { (capture : List ℕ) (had : Option (List ℕ))
        → IsUpTo options capture (R.remaining input.old) number (seen_by checker.old.seen) checker.old.counts had (W.contents out.old)
        → NextEnds options capture (R.remaining input.new) number (seen_by checker.new.seen) checker.new.counts result had
        (W.contents out.new) }
{
    match next_line(input, line) {
        Ok(is_more) => match checker.check_line(options, number, line.as_slice(), out) {
            Ok(()) => Ok(is_more),
            Err(stop) => Err(stop),
        },
        Err(stop) => Err(stop),
    }
}

/// Judges each line, once what stands before them was printed.
fn check_lines<A: Allocator + Copy, R: BufRead, W: Write>(
    alloc: A,
    options: CheckOptions,
    checker: &mut Checker<A>,
    input: &mut R,
    out: &mut W,
) -> Result<(), Stop<CaptureFault>>
    ensures { (had : Option (List ℕ)) → Appends had (W.contents out.old) (words.head_text options.form)
        → IsKept (nothing_judged options.is_joined) (seen_by checker.old.seen) checker.old.counts → IfSome (R.remaining input.old)
        (λ capture. LinesEnd options capture (seen_by checker.new.seen) checker.new.counts result had (W.contents out.new)) }
{
    let mut line = Vec::new(alloc);
    for number in 1..u64::MAX {
        match check_next(options, checker, input, &mut line, number, out) {
            Ok(true) => {}
            Ok(false) => return Ok(()),
            Err(stop) => return Err(stop),
        }
    }
    Err(Stop::NoMemory)
}

/// Prints what stands at the end. The room is for the text.
fn print_end<A: Allocator + Copy, W: Write>(
    alloc: A,
    options: CheckOptions,
    exchanges: &Exchanges<A>,
    remains: Remains,
    counts: Counts,
    room: &mut Vec<u8, A>,
    out: &mut W,
) -> Result<(), Stop<CaptureFault>>
    ensures { PrintsEnd options (exchanges_of exchanges.now) remains counts result (W.contents out.old) (W.contents out.new) }
{
    room.clear();
    let mut buffer = Vec::new(alloc);
    if put_end(room, &mut buffer, options, exchanges, remains, counts).is_err() {
        return Err(Stop::NoMemory);
    }
    match print(out, room.as_slice()) {
        Ok(()) => Ok(()),
        Err(_) => Err(Stop::OutputRefused),
    }
}

/// Judges each line and prints the counts, once what stands before them was printed.
fn check_rest<A: Allocator + Copy, R: BufRead, W: Write>(
    alloc: A,
    options: CheckOptions,
    checker: &mut Checker<A>,
    input: &mut R,
    out: &mut W,
) -> Result<(), Stop<CaptureFault>>
    ensures { (had : Option (List ℕ)) → Appends had (W.contents out.old) (words.head_text options.form)
        → IsKept (nothing_judged options.is_joined) (seen_by checker.old.seen) checker.old.counts → IfSome (R.remaining input.old)
        (λ capture. CheckEnds options capture checker.new.counts result had (W.contents out.new)) }
{
    match check_lines(alloc, options, checker, input, out) {
        Ok(()) => {
            let remains = remains_of(&mut checker.seen.judge, &checker.seen.standing);
            print_end(
                alloc,
                options,
                &checker.seen.exchanges,
                remains,
                checker.counts,
                &mut checker.text,
                out,
            )
        }
        Err(stop) => Err(stop),
    }
}

/// Prints what stands before all else, judges each line, and prints the counts.
fn check_all<A: Allocator + Copy, R: BufRead, W: Write>(
    alloc: A,
    options: CheckOptions,
    checker: &mut Checker<A>,
    input: &mut R,
    out: &mut W,
) -> Result<(), Stop<CaptureFault>>
    ensures { IsKept (nothing_judged options.is_joined) (seen_by checker.old.seen) checker.old.counts → IfSome (R.remaining input.old)
        (λ capture. CheckEnds options capture checker.new.counts result (W.contents out.old) (W.contents out.new)) }
{
    match print(out, head_text(options.form)) {
        Ok(()) => check_rest(alloc, options, checker, input, out),
        Err(_) => Err(Stop::OutputRefused),
    }
}

/// Judges each line and prints what is asked for, and says on `faults` why it stops before the end. Gives the exit status.
fn check_with<A: Allocator + Copy, R: BufRead, W: Write, F: Write>(
    alloc: A,
    options: CheckOptions,
    checker: &mut Checker<A>,
    name: &str,
    input: &mut R,
    out: &mut W,
    faults: &mut F,
) -> u8
    ensures { IsKept (nothing_judged options.is_joined) (seen_by checker.old.seen) checker.old.counts
        → EndsCheck W.contents F.contents options name.now (R.remaining input.old) out.old out.new faults.old faults.new result }
{
    match check_all(alloc, options, checker, input, out) {
        Ok(()) => if checker.counts.has_no_finding(options.is_strict) {
            0
        } else {
            FAULTS
        },
        Err(stop) => stop.report(name, faults),
    }
}

/// Judges the session that a capture says, and prints each fault and warning that is asked for as soon as its line was read, and counts
/// at the end, in the form that is asked for. The memory grows with what is unanswered and open, and with the nodes that were given.
///
/// Gives the exit status: 0 where there is no fault that is asked for, and in a strict check no warning, and 6 where there is one; 1 after `cannot read` with the capture's
/// name, or after `line N:` and the fault of the first bad line, on `faults`; 3 after `no memory`; or 5 where `out`
/// refuses. What was printed before is of the lines before.
pub fn run_check<A: Allocator + Copy, R: BufRead, W: Write, F: Write>(
    alloc: A,
    options: CheckOptions,
    name: &str,
    input: &mut R,
    out: &mut W,
    faults: &mut F,
) -> u8
    ensures { EndsCheck W.contents F.contents options name.now (R.remaining input.old) out.old out.new faults.old faults.new
        result }
{
    let mut checker = Checker::new(alloc, options.is_joined);
    check_with(alloc, options, &mut checker, name, input, out, faults)
}
