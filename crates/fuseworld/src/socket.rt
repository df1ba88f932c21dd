//! A script over a Unix socket, both ends of which are in this process, in turn.

ghost use Rattle.std.specs.Prelude.{◌∷◌, [], Contains};

use crate::output::standard_output;
use fuse_text::{no_memory, socket_failed};
use fw_link::StreamLink;
use fw_script::Script;
use std::io::{BufWriter, ErrorKind};
use std::os::unix::net::{UnixListener, UnixStream};
use std::{fs, io};

/// Both ends of a socket.
type SocketLink = StreamLink<UnixStream, UnixStream>;

/// Connects both ends.
fn connect(rt: &HostRuntime, listener: &UnixListener, path: &str) -> io::Result<SocketLink> {
    let kernel = UnixStream::connect(rt, path)?;
    let (server, _address) = listener.accept()?;
    let kernel_writer = kernel.try_clone()?;
    let server_writer = server.try_clone()?;
    Ok(StreamLink::new(kernel, kernel_writer, server, server_writer))
}

/// Says why there is no socket, and gives the exit status.
fn no_socket(rt: &HostRuntime, error: &io::Error) -> u8
    ensures { Contains (3 ∷ 4 ∷ []) result }
{
    if error.kind() == ErrorKind::OutOfMemory {
        return no_memory(&mut rt.stderr());
    }
    socket_failed(&mut rt.stderr())
}

/// Runs the script over a link, and gives the exit status.
fn run_on(rt: &HostRuntime, script: &Script, link: SocketLink) -> u8
    ensures { Contains (0 ∷ 3 ∷ 4 ∷ 5 ∷ []) result }
{
    let alloc = rt.alloc();
    let mut faults = rt.stderr();
    let Ok(mut out) = BufWriter::new(alloc, standard_output(rt)) else {
        return no_memory(&mut faults);
    };
    script.run_over(alloc, link, false, &mut out, &mut faults)
}

/// Runs the script over a socket that is made at a path, removes the socket, and gives the exit status.
pub fn run_socket(rt: &HostRuntime, script: &Script, path: &str) -> u8
    ensures { Contains (0 ∷ 3 ∷ 4 ∷ 5 ∷ []) result }
{
    let listener = match UnixListener::bind(rt, path) {
        Ok(listener) => listener,
        Err(error) => return no_socket(rt, &error),
    };
    let ran = match connect(rt, &listener, path) {
        Ok(link) => Ok(run_on(rt, script, link)),
        Err(error) => Err(error),
    };
    let removed = fs::remove_file(rt, path);
    match (ran, removed) {
        (Ok(status), Ok(())) => status,
        (Err(error), _) | (Ok(_), Err(error)) => no_socket(rt, &error),
    }
}
