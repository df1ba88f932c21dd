//! Texts: the words of a line, numbers, hex and nodes, as they are read and written.
#![tactic(auto)]

mod hex_text;
mod lines;
mod node_text;
mod number;
mod output;
mod printed;
mod short_text;
mod split;
mod stop;
mod word;

pub use hex_text::{
    HexFault, is_hex, is_hex_or_none, read_hex, read_hex_or_none, write_hex, write_hex_or_none,
};
pub use lines::{LineError, next_line, next_line_if_any};
pub use node_text::{write_node, write_nodes};
pub use number::read_number;
pub use output::{OutputRefused, write_number, write_text};
pub use printed::{print_hex, print_hex_or_none, print_name};
pub use short_text::ShortText;
pub use split::{find_far, find_near, split_at, split_at_first};
pub use stop::{
    BAD_INPUT, FAULTS, LOST, LineFaultWords, NO_MEMORY, OUTPUT_REFUSED, Stop, bad_line,
    cannot_read, no_memory, socket_failed,
};
pub use word::{Words, one_word, split_word, three_words, two_words};
