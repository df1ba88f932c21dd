//! Marks of numbers, in a table of blocks.

ghost use Rattle.std.specs.Prelude.{◌≡◌, ℕ, ◌+◌, ◌<◌, ◌≤◌, ◌||◌, if◌then◌else◌, nat_eq};
ghost use Rattle.fuse_judge.specs.Numbers.{mark_in, is_forgets, read_mark, AreWhole};

use fuse_tables::RisingTable;
use std::alloc::Allocator;

/// How many marks a block has.
const MARKS: usize = 64;

/// What is known of a number.
#[derive(Clone, Copy)]
pub enum Mark {
    Unread,
    /// Requests were read under it, and no FORGET.
    Request,
    /// A FORGET or a BATCH_FORGET was.
    Forget,
}

/// The marks of 64 numbers, one after another.
#[derive(Clone, Copy, Drop)]
pub struct Block {
    pub marks: [Mark; MARKS],
}

/// The marks, 64 numbers to a row: the row of a number is that of its 64th part.
pub(crate) type Marks<A> = RisingTable<Block, A>;

/// The mark of a number.
pub(crate) fn mark_of<A: Allocator + Copy>(numbers: &Marks<A>, unique: u64) -> Mark
    ensures { result ≡ mark_in numbers.now.entries unique }
{
    match numbers.get(unique / 64) {
        Some(block) => block.marks[(unique % 64) as usize],
        None => Mark::Unread,
    }
}

/// Marks a number that is read, as that of a FORGET if it is or was one. Returns the mark from before.
pub(crate) fn set_mark<A: Allocator + Copy>(
    numbers: &mut Marks<A>,
    unique: u64,
    is_forget: bool,
) -> Mark
    requires { 0 < numbers.old.room }
    ensures before { result ≡ mark_in numbers.old.entries unique }
    ensures marks { AreWhole numbers.old.entries → (q : ℕ) → mark_in numbers.new.entries q
        ≡ (if nat_eq unique q then read_mark (is_forgets (mark_in numbers.old.entries unique) || is_forget)
        else mark_in numbers.old.entries q) }
    ensures whole { AreWhole numbers.old.entries → AreWhole numbers.new.entries }
    ensures room { numbers.old.room ≤ numbers.new.room + 1 }
{
    let place = (unique % 64) as usize;
    if let Some(block) = numbers.get_mut(unique / 64) {
        let before = block.marks[place];
        block.marks[place] = read(before, is_forget);
        return before;
    }
    let mut marks = [Mark::Unread; MARKS];
    marks[place] = read(Mark::Unread, is_forget);
    numbers.put(unique / 64, Block { marks });
    Mark::Unread
}

/// The mark of a number that is read, by that from before.
fn read(mark: Mark, is_forget: bool) -> Mark
    ensures { result ≡ read_mark (is_forgets mark || is_forget) }
{
    if matches!(mark, Mark::Forget) || is_forget {
        Mark::Forget
    } else {
        Mark::Request
    }
}
