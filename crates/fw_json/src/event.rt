//! The events whose lines have words of their own.

ghost use Rattle.std.specs.Prelude.{◌≡◌};
ghost use Rattle.fw_json.specs.Events as table;

use crate::key::Key;

/// What a line says that happened, as its first word names it.
#[derive(Clone, Copy, Debug, PartialEq, Eq)]
pub(crate) enum Event {
    Aborted,
    Answer,
    Call,
    Dropped,
    Evicted,
    Interrupted,
    Kernel,
    Mounted,
    Notification,
    Now,
    Read,
    Refused,
    Written,
}

/// Each of them.
const ALL: [Event; 13] = [
    Event::Aborted,
    Event::Answer,
    Event::Call,
    Event::Dropped,
    Event::Evicted,
    Event::Interrupted,
    Event::Kernel,
    Event::Mounted,
    Event::Notification,
    Event::Now,
    Event::Read,
    Event::Refused,
    Event::Written,
];

impl Event {
    /// The first word of its lines.
    fn word(self) -> &'static [u8]
        ensures { result.now ≡ table.event_word self }
    {
        match self {
            Event::Aborted => b"aborted",
            Event::Answer => b"answer",
            Event::Call => b"call",
            Event::Dropped => b"dropped",
            Event::Evicted => b"evicted",
            Event::Interrupted => b"interrupted",
            Event::Kernel => b"kernel",
            Event::Mounted => b"mounted",
            Event::Notification => b"notification",
            Event::Now => b"now",
            Event::Read => b"read",
            Event::Refused => b"refused",
            Event::Written => b"written",
        }
    }

    /// The event whose lines begin with a word.
    pub(crate) fn of(word: &[u8]) -> Option<Event>
        ensures { result ≡ table.event_of word.now }
    {
        for event in ALL {
            if event.word() == word {
                return Some(event);
            }
        }
        None
    }

    /// The keys of the words behind the first, in turn.
    pub(crate) fn keys(self) -> &'static [Key]
        ensures { result.now ≡ table.keys_of self }
    {
        match self {
            Event::Aborted | Event::Dropped | Event::Kernel | Event::Mounted => &[],
            Event::Answer => &[Key::Call, Key::ErrorNumber],
            Event::Call => &[Key::Call],
            Event::Evicted => &[Key::Nodeid, Key::Count],
            Event::Interrupted => &[Key::Call, Key::Effect],
            Event::Notification => &[Key::Code, Key::Length],
            Event::Now => &[Key::Clock],
            Event::Read => &[Key::Unique, Key::Opcode, Key::Length],
            Event::Refused => &[Key::Number, Key::Name],
            Event::Written => &[Key::Unique, Key::WriteResult],
        }
    }

    /// The key of all words behind those, as a list.
    pub(crate) fn list_key(self) -> Option<Key>
        ensures { result ≡ table.list_key_of self }
    {
        match self {
            Event::Answer => Some(Key::Values),
            Event::Kernel => Some(Key::Nodes),
            _ => None,
        }
    }
}
