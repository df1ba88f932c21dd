//! What real servers expect in fields that are free, or in bits that are dropped when read.

ghost use Rattle.std.specs.Prelude.{◌≡◌, ◌≤◌, ◌+◌, IfSome, IfNone, length};
ghost use Rattle.fk_wire.specs.Fields.{number_at};
ghost use Rattle.fk_wire.specs.Requests.{RequestMessage, Spells};
ghost use Rattle.fuse_spec.specs.Kernel.Messages.{Request};
ghost use Rattle.std.specs.Prelude.{bit_and};
ghost use Rattle.fk_wire.specs.Requests.{known_flags};
ghost use Rattle.fuse_frames.specs.RequestTies.{SaysRequest};
ghost use Rattle.fk_drive_frames.specs.Filling.{ChangesOnly, FillsFor, IsFilled, IsListing, with_offered};
ghost use Rattle.fk_drive_frames.specs.declared.filling.Filled.{Filled};

use byteorder::{ByteOrder, LittleEndian};
use fk_fields::u32_at;
use fk_wire::{RequestBody, read_request, spelled_is_decoded};

/// What is said in fields that are free, or in bits that are dropped when read.
#[derive(Clone, Copy, Debug, PartialEq, Eq)]
pub struct FreeFields {
    /// The flags of OPEN, as of open(2).
    pub open_flags: u32,
    /// The flags that INIT offers beside the kernel's own.
    pub offer: u32,
}

/// O_CREAT | O_LARGEFILE | O_RDWR, of open(2), as a kernel sends them in CREATE.
const CREATE_FLAGS: u32 = 0x8042;

/// The flags of INIT that are read: FUSE_ASYNC_READ, FUSE_DO_READDIRPLUS and FUSE_PARALLEL_DIROPS.
const KNOWN: u32 = 0x4_2001;

/// The request of which a field is filled whatever it asks.
#[derive(Clone, Copy)]
enum Filled {
    Open,
    Create,
    Init,
}

/// What a frame spells of these, if anything.
fn filled_in(frame: &[u8]) -> Option<Filled>
    ensures some { IfSome result (λ filled. (m : RequestMessage) × Spells frame.now m × IsFilled filled m.content) }
    ensures none { IfNone result ((m : RequestMessage) → Spells frame.now m → (filled : Filled)
        → IsFilled filled m.content → ⊥) }
{
    match read_request(frame) {
        Ok(request) => match request.body {
            RequestBody::Open => Some(Filled::Open),
            RequestBody::Create { .. } => Some(Filled::Create),
            RequestBody::Init { .. } => Some(Filled::Init),
            _ => None,
        },
        Err(_) => None,
    }
}

/// Puts a number into the four bytes at a place.
fn put_u32(frame: &mut [u8], place: usize, value: u32)
    requires { place + 4 ≤ length frame.old }
    ensures only { ChangesOnly place 4 frame.old frame.new }
    ensures value { number_at place 4 frame.new ≡ value }
{
    LittleEndian::write_u32(&mut frame[place..place + 4], value);
}

/// Puts a number into the eight bytes at a place.
fn put_u64(frame: &mut [u8], place: usize, value: u64)
    requires { place + 8 ≤ length frame.old }
    ensures only { ChangesOnly place 8 frame.old frame.new }
    ensures value { number_at place 8 frame.new ≡ value }
{
    LittleEndian::write_u64(&mut frame[place..place + 8], value);
}

/// The flags of INIT with those that are offered as well. The kernel's own stay as they are.
fn offering(flags: u32, offer: u32) -> u32
    ensures value { result ≡ with_offered flags offer }
    ensures kept { bit_and result known_flags ≡ bit_and flags known_flags }
{
    flags | (offer & !KNOWN)
}

/// The flags that a frame of INIT has.
fn init_flags(frame: &[u8]) -> u32
    requires { 56 ≤ length frame.now }
    ensures { result ≡ number_at 52 4 frame.now }
{
    u32_at(frame, 52)
}

/// Fills the flags of OPEN and CREATE, and those that INIT offers: a frame spells the same request as before.
pub fn fill(frame: &mut [u8], free_fields: FreeFields)
    ensures long { length frame.new ≡ length frame.old }
    ensures same { (request : Request) → SaysRequest frame.old request → SaysRequest frame.new request }
    ensures filled { (m : RequestMessage) → Spells frame.old m → FillsFor m.content free_fields frame.old frame.new }
    ensures unread { ((m : RequestMessage) → Spells frame.old m → ⊥) → frame.new ≡ frame.old }
{
    spelled_is_decoded();
    match filled_in(frame) {
        Some(Filled::Open) => put_u32(frame, 40, free_fields.open_flags),
        Some(Filled::Create) => put_u32(frame, 40, CREATE_FLAGS),
        Some(Filled::Init) => {
            let flags = offering(init_flags(frame), free_fields.offer);
            put_u32(frame, 52, flags);
        }
        None => {}
    }
}

/// Fills the fh of READDIR or READDIRPLUS: a frame spells the same request as before.
pub fn fill_handle(frame: &mut [u8], fh: u64)
    requires { (m : RequestMessage) × Spells frame.old m × IsListing m.content }
    ensures long { length frame.new ≡ length frame.old }
    ensures same { (request : Request) → SaysRequest frame.old request → SaysRequest frame.new request }
    ensures only { ChangesOnly 40 8 frame.old frame.new }
    ensures handle { number_at 40 8 frame.new ≡ fh }
{
    spelled_is_decoded();
    put_u64(frame, 40, fh);
}
