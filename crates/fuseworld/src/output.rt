//! Standard output.

use fw_output::{LimitedWriter, room_in_file};
use std::io;
use std::io::Printer;

/// Its descriptor.
const STANDARD_OUTPUT: i32 = 1;

/// Standard output. A write beyond the limit on the size of files is an error, as one to a full device is.
pub fn standard_output(rt: &HostRuntime) -> LimitedWriter<Printer<'_, HostRuntime>> {
    LimitedWriter::new(io::writer(rt), room_in_file(STANDARD_OUTPUT))
}
