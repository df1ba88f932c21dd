//! What the headers of requests and replies say.

ghost use Rattle.std.specs.Prelude.{◌≡◌};
ghost use Rattle.fuse_sessions.specs.Waiting as waiting;
ghost use Rattle.fw_check.specs.Summary as words;

use fk_fields::{u32_at, u64_at};
use fuse_protocol::opcode_of_code;
use fuse_sessions::Taken;

/// What the header of a reply says.
#[derive(Clone, Copy, Debug, PartialEq, Eq)]
pub(crate) struct ReplyHead {
    pub(crate) unique: u64,
    pub(crate) is_error: bool,
}

/// The length of a request's header.
const REQUEST_HEADER: usize = 40;

/// The length of a reply's header.
const REPLY_HEADER: usize = 16;

/// -511 in 32 bits, the least number that is an error.
const LEAST_ERROR: u32 = 4_294_966_785;

/// The number of an opcode, or 0 where it is not known.
fn known_code(code: u32) -> u32
    ensures { result ≡ words.known_code code }
{
    match opcode_of_code(code) {
        Some(_) => code,
        None => 0,
    }
}

/// The number of a request's opcode, or 0 where it is not known or the header is cut.
pub(crate) fn code_in(bytes: &[u8]) -> u32
    ensures { result ≡ words.code_in bytes.now }
{
    if bytes.len() < REQUEST_HEADER {
        return 0;
    }
    known_code(u32_at(bytes, 4))
}

/// Whether requests of an opcode take a reply: all do but FORGET, NOTIFY_REPLY and BATCH_FORGET.
fn takes_reply(code: u32) -> bool
    ensures { result ≡ words.takes_reply code }
{
    code != 2 && code != 41 && code != 42
}

/// The number under which a request waits for a reply, if it takes one.
pub(crate) fn waiting_number(bytes: &[u8]) -> Option<u64>
    ensures { result ≡ words.waiting_number bytes.now }
{
    if bytes.len() < REQUEST_HEADER {
        return None;
    }
    if takes_reply(u32_at(bytes, 4)) {
        Some(u64_at(bytes, 8))
    } else {
        None
    }
}

/// Whether a number is that of no error, or of one.
fn is_error_word(word: u32) -> bool
    ensures { result ≡ words.is_error_word word }
{
    word == 0 || LEAST_ERROR <= word
}

/// Whether a device found the request of a reply.
fn reaches(taken: Taken) -> bool
    ensures { result ≡ waiting.reaches taken }
{
    !matches!(taken, Taken::NoEntry)
}

/// Whether a header that is whole is that of a reply.
fn is_reply(length: u64, stated: u32, error: u32, unique: u64) -> bool
    ensures { result ≡ words.is_reply_of length stated error unique }
{
    u64::from(stated) == length && is_error_word(error) && unique != 0
}

/// What the header of a frame says that was written, if it is that of a reply and the device did not answer ENOENT.
pub(crate) fn reply_head(bytes: &[u8], taken: Taken) -> Option<ReplyHead>
    ensures { result ≡ words.reply_head bytes.now taken }
{
    if bytes.len() < REPLY_HEADER || !reaches(taken) {
        return None;
    }
    let error = u32_at(bytes, 4);
    let unique = u64_at(bytes, 8);
    if is_reply(bytes.len() as u64, u32_at(bytes, 0), error, unique) {
        Some(ReplyHead {
            unique,
            is_error: error != 0,
        })
    } else {
        None
    }
}
