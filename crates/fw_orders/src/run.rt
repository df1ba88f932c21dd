//! The orders of a file, printed.

ghost use Rattle.std.specs.Prelude.{◌≡◌, ◌⊎◌, ◌++◌, ◌∷◌, [], Contains, IfErr, IfOk, IfSome, OnErr, OnOk, codes, decimal};
ghost use Rattle.std.specs.Io.KnownBytes.{Appends};
ghost use Rattle.fuse_text.specs.Outputs.{AppendsSome};
ghost use Rattle.fuse_text.specs.Stops.{unreadable};
ghost use Rattle.fw_orders.specs.Found.{Ends, FinishEnds, Finishes, IsGoodOr, Prints, PrintsOrders, SaysStop, SaysWhy, SearchEnds};
ghost use Rattle.fw_orders.specs.Saying.{parts_of};

use crate::file_orders::FileOrders;
use crate::headed::Headed;
use crate::part::Part;
use crate::read::read_parts;
use crate::stop::Stop;
use fuse_text::{OutputRefused, cannot_read, no_memory, write_number, write_text};
use fw_world::Maps;
use order_search::{Stop as SearchStop, Wanted, search};
use std::alloc::Allocator;
use std::io::{ErrorKind, Read, Write};

/// Finds and prints the orders of a file with these parts.
fn print_parts<A: Allocator + Copy, W: Write>(
    alloc: A,
    wanted: Wanted,
    parts: &[Part<'_, A>],
    out: &mut W,
) -> Result<(), Stop>
    ensures printed { OnOk result (Prints wanted (parts_of parts.now) (W.contents out.old) (W.contents out.new)) }
    ensures ends { IfErr result (SearchEnds (parts_of parts.now)) }
{
    let orders = FileOrders::<Maps<A>>::new(alloc, parts);
    let mut headed = Headed { out: &mut *out };
    let found = search(alloc, &orders, wanted, &mut headed);
    match (found, wanted) {
        (Ok(found), _) => finish(wanted, found, out),
        (Err(SearchStop::Enough), Wanted::Nth(_)) => flush(out),
        (Err(SearchStop::NoMemory), _) => Err(Stop::NoMemory),
        (Err(SearchStop::NotPrinted), _) => Err(Stop::OutputRefused),
        (Err(_), _) => Err(Stop::TooLong),
    }
}

/// Finds and prints the orders of a text.
fn print_found<A: Allocator + Copy, W: Write>(
    alloc: A,
    wanted: Wanted,
    text: &[u8],
    out: &mut W,
) -> Result<(), Stop>
    ensures printed { OnOk result (PrintsOrders wanted text.now (W.contents out.old) (W.contents out.new)) }
    ensures ends { IfErr result (Ends text.now) }
    ensures good { IsGoodOr text.now (out.new ≡ out.old) }
{
    match read_parts(alloc, text) {
        Ok(parts) => print_parts(alloc, wanted, parts.as_slice(), out),
        Err(stop) => Err(stop),
    }
}

/// Hands on all that was written.
fn flush<W: Write>(out: &mut W) -> Result<(), Stop>
    ensures kept { OnOk result (Appends (W.contents out.old) (W.contents out.new) []) }
    ensures refused { IfErr result (λ stop. stop ≡ Stop.OutputRefused) }
{
    match out.flush() {
        Ok(()) => Ok(()),
        Err(_) => Err(Stop::OutputRefused),
    }
}

/// Prints the number of orders where that is wanted, and hands on all that was written.
fn finish<W: Write>(wanted: Wanted, found: u64, out: &mut W) -> Result<(), Stop>
    ensures finished { OnOk result (Finishes wanted found (W.contents out.old) (W.contents out.new)) }
    ensures ends { IfErr result (FinishEnds found) }
{
    match wanted {
        Wanted::All => flush(out),
        Wanted::Number => match print_number(found, out) {
            Ok(()) => flush(out),
            Err(_) => Err(Stop::OutputRefused),
        },
        // The order that is asked for ends the search where there is one.
        Wanted::Nth(_) => Err(Stop::NoSuchOrder { orders: found }),
    }
}

/// Prints a number on a line.
fn print_number<W: Write>(number: u64, out: &mut W) -> Result<(), OutputRefused>
    ensures { OnOk result (Appends (W.contents out.old) (W.contents out.new) (decimal number ++ codes "\n")) }
{
    write_number(out, number)?;
    write_text(out, b"\n")
}

/// Prints the orders of a text, and gives the exit status, as `print_orders` does.
fn print_text<A: Allocator + Copy, W: Write, F: Write>(
    alloc: A,
    wanted: Wanted,
    text: &[u8],
    out: &mut W,
    faults: &mut F,
) -> u8
    ensures statuses { Contains (0 ∷ 1 ∷ 3 ∷ 5 ∷ []) result }
    ensures printed { result ≡ 0 → PrintsOrders wanted text.now (W.contents out.old) (W.contents out.new) }
    ensures good { IsGoodOr text.now (out.new ≡ out.old) }
    ensures why { result ≡ 1 → SaysStop text.now (F.contents faults.old) (F.contents faults.new) }
    ensures no_memory { result ≡ 3 → AppendsSome (F.contents faults.old) (F.contents faults.new) (codes "no memory\n") }
    ensures no_fault { (result ≡ 0) ⊎ (result ≡ 5) → faults.new ≡ faults.old }
{
    match print_found(alloc, wanted, text, out) {
        Ok(()) => 0,
        Err(stop) => stop.report(faults),
    }
}

/// The bytes of a file.
///
/// # Errors
///
/// The exit status: 1 after `cannot read` with the file's name, on `faults`; or 3 after `no memory`.
fn read_file<A: Allocator, R: Read, F: Write>(
    alloc: A,
    name: &str,
    input: &mut R,
    faults: &mut F,
) -> Result<Vec<u8, A>, u8>
    ensures ok { IfOk result (λ text. IfSome (R.remaining input.old) (λ bytes. text.items ≡ bytes)) }
    ensures silent { OnOk result (faults.new ≡ faults.old) }
    ensures statuses { IfErr result (Contains (1 ∷ 3 ∷ [])) }
    ensures unreadable { IfErr result (λ status. status ≡ 1 → AppendsSome (F.contents faults.old)
        (F.contents faults.new) (unreadable name.now ++ codes "\n")) }
    ensures no_memory { IfErr result (λ status. status ≡ 3 → AppendsSome (F.contents faults.old)
        (F.contents faults.new) (codes "no memory\n")) }
{
    let mut text = Vec::new(alloc);
    match input.read_to_end(&mut text) {
        Ok(_) => Ok(text),
        Err(error) if error.kind() == ErrorKind::OutOfMemory => Err(no_memory(faults)),
        Err(_) => Err(cannot_read(name, faults)),
    }
}

/// Prints on standard output every order of the messages of the calls in a file, or one of them, or how many there are.
/// Gives the exit status: 0; 1 after a line on `faults`, where the file cannot be read, has a bad line, where an order has
/// more than 256 messages, or where there is no such order; 3 after `no memory`; or 5 where `out` refuses.
///
/// At status 0 the output got all orders, numbered from 1, or their number. No clause says which order it got where a single
/// one is asked for.
pub fn print_orders<A: Allocator + Copy, R: Read, W: Write, F: Write>(
    alloc: A,
    wanted: Wanted,
    name: &str,
    input: &mut R,
    out: &mut W,
    faults: &mut F,
) -> u8
    ensures statuses { Contains (0 ∷ 1 ∷ 3 ∷ 5 ∷ []) result }
    ensures printed { result ≡ 0 → IfSome (R.remaining input.old) (λ text. PrintsOrders wanted text
        (W.contents out.old) (W.contents out.new)) }
    // Nothing is printed of a file that is not read, or has a bad line.
    ensures good { IfSome (R.remaining input.old) (λ text. IsGoodOr text (out.new ≡ out.old)) }
    ensures why { result ≡ 1 → SaysWhy name.now (R.remaining input.old) (F.contents faults.old) (F.contents faults.new) }
    ensures no_memory { result ≡ 3 → AppendsSome (F.contents faults.old) (F.contents faults.new) (codes "no memory\n") }
    ensures no_fault { (result ≡ 0) ⊎ (result ≡ 5) → faults.new ≡ faults.old }
{
    match read_file(alloc, name, input, faults) {
        Ok(text) => print_text(alloc, wanted, text.as_slice(), out, faults),
        Err(status) => status,
    }
}
