//! What is noted of a server's frames beside what the kernel makes of them.

ghost use Rattle.std.specs.Prelude.{◌∷◌, ◌++◌, [], List};

use fk_drive_frames::OtherFrame;

/// What is noted of a frame as it comes.
#[derive(Clone, Copy, Debug, PartialEq, Eq)]
pub enum Noted {
    /// It is set aside, since it is not for the kernel.
    SetAside(OtherFrame),
    /// It is the reply to the OPENDIR under this number, which was awaited, and has the body of one or not.
    OpendirReply { unique: u64, is_whole: bool },
    /// It is the reply to the RELEASEDIR under this number, which was awaited, and has no body, as that wants, or has one.
    ReleasedirReply { unique: u64, is_whole: bool },
    /// It has the number of the OPENDIR or RELEASEDIR whose reply is awaited, and is no reply by its head. It waits for the
    /// kernel.
    NoOpendirReply { unique: u64 },
}

/// Who notes them, each as it comes, with something at hand, as an output.
pub trait Notes<O> {
    ghost use Rattle.fk_drive.specs.declared.noted.Noted.{Noted};

    // From the one state to the other, of both, these were noted, in turn, and nothing else.
    ghost notes: { (old new : Self) → (had has : O) → List Noted → Type 0 };

    /// Notes a frame.
    fn note(&mut self, noted: Noted, out: &mut O)
        ensures { notes self.old self.new out.old out.new (noted ∷ []) };

    ghost stays: { (n : Self) (o : O) → notes n n o o [] };

    ghost goes_on: { (first mid last : Self) (had got has : O) (h k : List Noted) →
        notes first mid had got h → notes mid last got has k → notes first last had has (h ++ k) };
}
