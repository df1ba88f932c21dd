//! What frames say at a minor.

ghost use Rattle.std.specs.Prelude.{◌≡◌, ◌↔◌, ℕ, List, true};
ghost use Rattle.fuse_spec.specs.Kernel.Messages.{Request};
ghost use Rattle.fuse_spec.specs.Server.Server.{knows};
ghost use Rattle.fuse_spec.specs.declared.Minor.{Minor};
ghost use Rattle.fuse_frames.specs.RequestTies.{SaysRequest, SaysRequestAt, codec_minor as the_codec_minor};

use fuse_spec::Minor;

/// A minor as the codec names it.
pub fn codec_minor(minor: Minor) -> fk_wire::Minor
    ensures { result ≡ the_codec_minor minor }
{
    match minor {
        Minor::M15 => fk_wire::Minor::M15,
        Minor::M31 => fk_wire::Minor::M31,
    }
}

/// What bytes say at a minor is what they say at 7.31, where the minor knows what is asked (linux/fuse.h, enum
/// fuse_opcode).
pub fn said_where_known()
    ensures { (minor : Minor) (bytes : List ℕ) (request : Request)
        → SaysRequestAt minor bytes request ↔ (SaysRequest bytes request × (knows minor request.body ≡ true)) }
{}
