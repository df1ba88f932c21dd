//! The program's version.

ghost use Rattle.std.specs.Prelude.{◌≡◌, ◌↔◌, ◌∷◌, [], Contains, IsTrue};
ghost use Rattle.clap.specs.Words.{kind_of};

use crate::output::standard_output;
use clap::Error;
use clap::error::ErrorKind;
use fw_tasks::VERSION;
use std::io::Write;

/// Whether the command line asks for the version.
pub fn is_version(error: &Error) -> bool
    ensures { IsTrue result ↔ (kind_of error.now ≡ ErrorKind.DisplayVersion) }
{
    error.kind() == ErrorKind::DisplayVersion
}

/// Prints the name and the version, and gives the exit status: 0, or 5 where standard output refuses.
pub fn print_version(rt: &HostRuntime) -> u8
    ensures { Contains (0 ∷ 5 ∷ []) result }
{
    let mut out = standard_output(rt);
    match writeln!(out, "fuseworld {VERSION}") {
        Ok(()) => 0,
        Err(_) => 5,
    }
}
