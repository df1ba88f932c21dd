//! Hex that is not read: the line on standard error, and the exit status.

ghost use Rattle.std.specs.Prelude.{◌≡◌};
ghost use Rattle.fw_any.specs.Endings.{hex_status_of};

use fuse_text::HexFault;
use std::io::Write;

/// Says why a text was not read, and gives the exit status. What `faults` refuses is lost.
pub(crate) fn report_hex<F: Write>(fault: HexFault, faults: &mut F) -> u8
    ensures { result ≡ hex_status_of fault }
{
    match fault {
        HexFault::BadHex => {
            let _ = writeln!(faults, "bad hex");
            1
        }
        HexFault::NoMemory => {
            let _ = writeln!(faults, "no memory");
            3
        }
    }
}
