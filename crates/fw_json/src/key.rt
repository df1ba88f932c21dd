//! The keys of objects.

ghost use Rattle.std.specs.Prelude.{◌≡◌};
ghost use Rattle.fw_json.specs.Keys.{is_text_key, key_name};

/// What a value says.
#[derive(Clone, Copy, Debug, PartialEq, Eq)]
pub(crate) enum Key {
    Call,
    Clock,
    Code,
    Count,
    Effect,
    ErrorNumber,
    Frame,
    Length,
    Line,
    Name,
    Nodeid,
    Nodes,
    Number,
    Opcode,
    Party,
    Text,
    Unique,
    Values,
    WriteResult,
}

impl Key {
    /// The key as it is written.
    pub(crate) fn name(self) -> &'static [u8]
        ensures { result.now ≡ key_name self }
    {
        match self {
            Key::Call => b"call",
            Key::Clock => b"clock",
            Key::Code => b"code",
            Key::Count => b"count",
            Key::Effect => b"effect",
            Key::ErrorNumber => b"error",
            Key::Frame => b"frame",
            Key::Length => b"len",
            Key::Line => b"line",
            Key::Name => b"name",
            Key::Nodeid => b"nodeid",
            Key::Nodes => b"nodes",
            Key::Number => b"number",
            Key::Opcode => b"opcode",
            Key::Party => b"party",
            Key::Text => b"text",
            Key::Unique => b"unique",
            Key::Values => b"values",
            Key::WriteResult => b"result",
        }
    }

    /// Whether its value is a text. Of all others it is a number.
    pub(crate) fn is_of_text(self) -> bool
        ensures { result ≡ is_text_key self }
    {
        matches!(
            self,
            Key::Effect
                | Key::Name
                | Key::Nodes
                | Key::Opcode
                | Key::Party
                | Key::Text
                | Key::Values
        )
    }
}
