//! What the system says of a file or a socket that it does not give.

ghost use Rattle.std.specs.Prelude.{◌≡◌};

use std::io;

/// Says on standard error that a file cannot be read, and why, and gives the exit status, 1.
pub fn cannot_open(rt: &HostRuntime, name: &str, error: &io::Error) -> u8
    ensures { result ≡ 1 }
{
    let _ = eprintln!(rt; "cannot read {name}: {error}");
    1
}

/// Says on standard error that there is no socket, and why, and gives the exit status, 4.
pub fn no_socket(rt: &HostRuntime, error: &io::Error) -> u8
    ensures { result ≡ 4 }
{
    let _ = eprintln!(rt; "socket failed: {error}");
    4
}

/// Says on standard error that a file cannot be written, and why, and gives the exit status, 1.
pub fn cannot_write(rt: &HostRuntime, name: &str, error: &io::Error) -> u8
    ensures { result ≡ 1 }
{
    let _ = eprintln!(rt; "cannot write {name}: {error}");
    1
}
