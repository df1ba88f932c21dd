//! The texts of a picture.

ghost use Rattle.std.specs.Prelude.{◌≡◌, ◌≤◌, ◌<◌, ◌++◌, IfOk, codes, length, take};

use std::alloc::{AllocError, Allocator};

/// Where a text stands.
#[derive(Clone, Copy, PartialEq, Eq)]
pub(crate) enum Column {
    KernelNodes,
    KernelEvents,
    ServerEvents,
    ServerNodes,
}

/// A text at a height.
#[derive(Drop)]
pub(crate) struct Label<A: Allocator> {
    pub(crate) column: Column,
    pub(crate) y: u64,
    pub(crate) text: Vec<u8, A>,
}

/// The texts of a picture.
#[derive(Drop)]
pub(crate) struct Labels<A: Allocator> {
    alloc: A,
    labels: Vec<Label<A>, A>,
}

/// The most characters of a text.
fn limit_of(column: Column) -> usize {
    match column {
        Column::KernelNodes | Column::ServerNodes => 30,
        Column::KernelEvents | Column::ServerEvents => 46,
    }
}

/// A text of at most this many characters: of a longer one its beginning, and `..`.
///
/// # Errors
///
/// Out of memory.
pub fn cut<A: Allocator>(alloc: A, text: &[u8], limit: usize) -> Result<Vec<u8, A>, AllocError>
    ensures short { length text.now ≤ limit → IfOk result (λ short. short.items ≡ text.now) }
    ensures long { limit < length text.now → IfOk result (λ short. short.items ≡ take limit text.now ++ codes "..") }
{
    if text.len() <= limit {
        return Vec::from_slice(alloc, text);
    }
    let mut short = Vec::from_slice(alloc, &text[..limit])?;
    short.extend_from_slice(b"..")?;
    Ok(short)
}

impl<A: Allocator + Copy> Labels<A> {
    /// No texts.
    pub(crate) fn new(alloc: A) -> Labels<A> {
        Labels {
            alloc,
            labels: Vec::new(alloc),
        }
    }

    /// One text more, which is cut where it is long.
    pub(crate) fn add(&mut self, column: Column, y: u64, text: &[u8]) -> Result<(), AllocError> {
        let text = cut(self.alloc, text, limit_of(column))?;
        self.labels.push(Label { column, y, text })?;
        Ok(())
    }

    /// All texts.
    pub(crate) fn labels(&self) -> &[Label<A>] {
        self.labels.as_slice()
    }

    /// How many characters the longest text of a column has.
    pub(crate) fn width(&self, column: Column) -> usize {
        let mut width = 0;
        for label in &self.labels {
            if label.column == column {
                width = label.text.len().max(width);
            }
        }
        width
    }
}
