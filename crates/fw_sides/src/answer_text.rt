//! The answers of calls, printed.

ghost use Rattle.std.specs.Prelude.{◌<◌};

use crate::form::{Form, Printer};
use fk_kernel::{Answer, ListedName, Listing};
use fuse_spec::{Attributes, Kind};
use fuse_text::OutputRefused;
use fw_script::word_of_kind;
use std::alloc::Allocator;
use std::io::Write;

/// A hex digit.
fn digit_of(value: u8) -> u8
    requires { value < 16 }
{
    if value < 10 {
        b'0' + value
    } else {
        b'a' + (value - 10)
    }
}

/// Prints a byte of a name: as it is where JSON takes it so, and else by its number.
fn print_name_byte<W: Write>(printer: &mut Printer<'_, W>, byte: u8) -> Result<(), OutputRefused> {
    if byte < 32 || byte > 126 || byte == b'"' || byte == b'\\' {
        let escaped = [
            b'\\',
            b'u',
            b'0',
            b'0',
            digit_of(byte / 16),
            digit_of(byte % 16),
        ];
        return printer.put(&escaped);
    }
    printer.put(&[byte])
}

/// Prints a listed name as a JSON object.
fn print_listed<W: Write>(
    printer: &mut Printer<'_, W>,
    listed: &ListedName<'_>,
) -> Result<(), OutputRefused> {
    printer.put(b"{\"name\":\"")?;
    for byte in listed.name {
        print_name_byte(printer, *byte)?;
    }
    printer.put(b"\",\"off\":")?;
    printer.put_number(listed.offset)?;
    printer.put(b",\"kind\":\"")?;
    printer.put(word_of_kind(listed.kind).as_bytes())?;
    printer.put(b"\"}")
}

/// Prints the names of a listing as a JSON array.
fn print_listing<A: Allocator, W: Write>(
    printer: &mut Printer<'_, W>,
    names: &Listing<A>,
) -> Result<(), OutputRefused> {
    printer.put(b",\"names\":[")?;
    let mut is_first = true;
    for listed in names.iter() {
        if !is_first {
            printer.put(b",")?;
        }
        is_first = false;
        print_listed(printer, &listed)?;
    }
    printer.put(b"]")
}

/// Prints the attributes of a file.
fn print_attributes<W: Write>(
    printer: &mut Printer<'_, W>,
    attributes: Attributes,
) -> Result<(), OutputRefused> {
    printer.put(b",\"kind\":\"")?;
    printer.put(word_of_kind(attributes.kind).as_bytes())?;
    printer.put(b"\",\"ino\":")?;
    printer.put_number(attributes.ino)?;
    printer.put(b",\"size\":")?;
    printer.put_number(attributes.size)?;
    printer.put(b",\"nlink\":")?;
    printer.put_number(u64::from(attributes.nlink))
}

/// Prints what an answer gives.
fn print_given<A: Allocator, W: Write>(
    printer: &mut Printer<'_, W>,
    answer: &Answer<A>,
) -> Result<(), OutputRefused> {
    match answer {
        Answer::Done | Answer::Failed { .. } => Ok(()),
        Answer::Attributes(attributes) => print_attributes(printer, *attributes),
        Answer::Listing(names) => print_listing(printer, names),
        Answer::Content(bytes) => {
            printer.put(b",\"data\":\"")?;
            printer.put_hex(bytes.as_slice())?;
            printer.put(b"\"")
        }
        Answer::Written { size } => {
            printer.put(b",\"size\":")?;
            printer.put_number(u64::from(*size))
        }
    }
}

/// The error number of an answer, 0 for none.
fn error_of<A: Allocator>(answer: &Answer<A>) -> u64 {
    match answer {
        Answer::Failed { errno } => u64::from(*errno),
        _ => 0,
    }
}

/// Prints the answer of a call as a JSON object.
pub(crate) fn print_answer<A: Allocator, W: Write>(
    printer: &mut Printer<'_, W>,
    call: u64,
    answer: &Answer<A>,
) -> Result<(), OutputRefused> {
    printer.put(b"{\"call\":")?;
    printer.put_number(call)?;
    printer.put(b",\"error\":")?;
    printer.put_number(error_of(answer))?;
    print_given(printer, answer)?;
    printer.put(b"}")
}
