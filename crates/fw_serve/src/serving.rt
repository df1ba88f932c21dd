//! A mount is served from its start to the end of its device.

ghost use Rattle.std.specs.Prelude.{◌≡◌, ◌≤◌, ◌⊎◌, ◌∷◌, [], Contains, IfOk, OnErr};
ghost use Rattle.fuse_spec.specs.Values.Numbers.{max_validity};
ghost use Rattle.fw_serve.specs.Mounts.{ServesFrom, server_at_mount, end_status_of};

use fs_nodes::{NodeStore, NodeTable};
use fs_serve::serve;
use fs_server::ServerOf;
use fuse_device::{Device, DeviceEnd};
use fuse_spec::{Minor, Validity};
use fuse_text::{no_memory, write_nodes, write_text};
use served_sessions::served_is_unaccused;
use std::alloc::{AllocError, Allocator};
use std::io::Write;

/// How a mount is served.
#[derive(Clone, Copy, Debug, PartialEq, Eq)]
pub struct Mount {
    /// For how many milliseconds found names and missing ones are valid, each at most 86,400,000.
    pub validity: Validity,
    /// The minor that is spoken.
    pub minor: Minor,
    /// Whether the nodes that are held at the end are printed.
    pub shows_nodes: bool,
}

/// The exit status at a device's end: 0 where the other side ended, and else 4.
fn status_at(end: Option<DeviceEnd>) -> u8
    ensures { result ≡ end_status_of end }
{
    match end {
        Some(DeviceEnd::Ended) => 0,
        Some(DeviceEnd::TimedOut | DeviceEnd::Failed) | None => 4,
    }
}

/// The server at its mount.
fn mounted<S: NodeStore>(alloc: S::Heap, mount: Mount) -> Result<ServerOf<S>, AllocError>
    requires found { mount.validity.found_ms ≤ max_validity }
    requires missing { mount.validity.missing_ms ≤ max_validity }
    ensures { IfOk result (λ server. server ≡ server_at_mount mount) }
{
    let mut server = ServerOf::new(alloc)?;
    server.remount(
        mount.validity.found_ms,
        mount.validity.missing_ms,
        mount.minor,
    );
    Ok(server)
}

/// Prints the nodes that a server holds, each as `ID:GENERATION:COUNT`, behind the word `server`; or `no memory`. What
/// `out` refuses is lost.
fn show_nodes<S: NodeStore, W: Write>(alloc: S::Heap, server: &ServerOf<S>, out: &mut W) {
    let _shown = match server.nodes(alloc) {
        Ok(nodes) => write_nodes(out, b"server", nodes.as_slice()),
        Err(_) => write_text(out, b"no memory\n"),
    };
}

/// Serves a device until it ends, and gives the exit status.
fn serve_until_end<S: NodeStore, D: Device>(
    alloc: S::Heap,
    server: &mut ServerOf<S>,
    device: &mut D,
) -> Result<u8, AllocError>
    ensures served { IfOk result (ServesFrom D.logs server.old device.old device.new) }
    ensures refused { OnErr result (device.new ≡ device.old) }
{
    served_is_unaccused();
    match serve(alloc, server, device) {
        Ok(end) => Ok(status_at(end)),
        Err(AllocError) => Err(AllocError),
    }
}

/// Prints how a mount ended: `device failed` under another status than 0, and the nodes that are held, if the mount asks
/// for them.
fn print_end<S: NodeStore, F: Write>(
    alloc: S::Heap,
    mount: Mount,
    server: &ServerOf<S>,
    status: u8,
    faults: &mut F,
) {
    if status != 0 {
        let _ = writeln!(faults, "device failed");
    }
    if mount.shows_nodes {
        show_nodes(alloc, server, faults);
    }
}

/// Serves a mount until its device ends.
fn serve_mount<S: NodeStore, D: Device, F: Write>(
    alloc: S::Heap,
    mount: Mount,
    device: &mut D,
    faults: &mut F,
) -> Result<u8, AllocError>
    requires found { mount.validity.found_ms ≤ max_validity }
    requires missing { mount.validity.missing_ms ≤ max_validity }
    ensures served { IfOk result (ServesFrom D.logs (server_at_mount mount) device.old device.new) }
    ensures refused { OnErr result (device.new ≡ device.old) }
{
    let mut server = mounted::<S>(alloc, mount)?;
    let status = serve_until_end(alloc, &mut server, device);
    if let Ok(status) = status {
        print_end(alloc, mount, &server, status, faults);
    }
    server.end();
    status
}

/// Serves a mount over a device until that ends, with a tree of the root alone at the start.
///
/// Gives the exit status: 0 where the other side ended; 4 after `device failed` on `faults`, also after 2^64 - 1 frames;
/// or 3 after `no memory`, where memory runs out at the start: nothing is then received. Where the mount asks for it,
/// a line `server ID:GENERATION:COUNT ..` on `faults` has the nodes that are held at the end.
pub fn serve_device<A: Allocator + Copy, D: Device, F: Write>(
    alloc: A,
    mount: Mount,
    device: &mut D,
    faults: &mut F,
) -> u8
    requires found { mount.validity.found_ms ≤ max_validity }
    requires missing { mount.validity.missing_ms ≤ max_validity }
    ensures statuses { Contains (0 ∷ 3 ∷ 4 ∷ []) result }
    ensures served { (result ≡ 0) ⊎ (result ≡ 4) → ServesFrom D.logs (server_at_mount mount) device.old device.new result }
    ensures refused { result ≡ 3 → device.new ≡ device.old }
{
    match serve_mount::<NodeTable<A>, D, F>(alloc, mount, device, faults) {
        Ok(status) => status,
        Err(_) => no_memory(faults),
    }
}
