//! What a run of `serve` is.

ghost use Rattle.std.specs.Prelude.{◌≤◌};
ghost use Rattle.fuse_spec.specs.Values.Numbers.{max_validity};

use fw_serve::Mount;

/// One run of `serve`.
#[derive(Clone, Copy)]
pub struct ServeTask<'a> {
    /// How it is served.
    pub mount: Mount,
    /// Whether each frame is printed.
    pub is_traced: bool,
    /// Whether what goes over the device is judged, and each fault printed.
    pub is_checked: bool,
    /// The file to which a capture is written, if one is asked for.
    pub capture: Option<&'a str>,
    /// Where a socket is made for the one connection that is served, in the place of standard input and output.
    pub socket: Option<&'a str>,
    ghost found: { mount.validity.found_ms ≤ max_validity },
    ghost missing: { mount.validity.missing_ms ≤ max_validity },
}
