//! Limits, as the definitions have them in `Numbers.antt`. Each is this project's rule.

/// The end of every counter: no counter gives this number or a higher one.
pub const COUNTER_END: u64 = 0x4000_0000_0000_0000;

/// The end of the clock, in milliseconds: the time stays below it.
pub const CLOCK_END: u64 = 0x20_0000_0000_0000;

/// The longest validity of a name, a day in milliseconds.
pub const MAX_VALIDITY: u64 = 86_400_000;

/// The most calls that may be unanswered.
pub const MAX_CALLS: usize = 64;

/// The most pairs of one BATCH_FORGET.
pub const MAX_FORGETS: usize = 64;

/// The most words of a path.
pub const MAX_WORDS: usize = 32;

/// The most bytes of a name.
pub const MAX_NAME: usize = 255;

/// The most names in the tree.
pub const MAX_NAMES: usize = 4_096;

/// The most bytes of a file.
pub const MAX_FILE: u64 = 65_536;

/// The most bytes of one read, write or list of names.
pub const MAX_TRANSFER: u32 = 4_096;
