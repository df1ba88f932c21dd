//! Request numbers of a mount, named uniques: even, rising by 2 from 2, below 2^62.
//!
//! An INTERRUPT allocates no number: it carries that of the request it interrupts, with the lowest bit set (the
//! kernel's `fuse.rst`).
#![tactic(auto)]

ghost use Rattle.std.specs.Prelude.{◌≡◌, ◌+◌, ◌%◌, ◌<◌, ◌≤◌, IfSome, IsSome, ◌↔◌};
ghost use Rattle.fuse_spec.specs.Kernel.Uniques.{first_number, number_limit, numbers_left_from, interrupt_number, original_number, IsNextNumber};

use fuse_spec::limits::COUNTER_END;
use std::marker::Model;

/// The numbers that a mount has not allocated yet (this project's rule: they start at 2 and end below 2^62). Contracts
/// see the coming one; at 2^62 none is left.
#[derive(Drop)]
pub struct Uniques {
    next: u64,
}

impl Model for Uniques {
    ghost use Rattle.std.specs.Prelude.{ℕ};

    ghost Value = { ℕ };

    ghost use Rattle.fuse_spec.specs.Kernel.Uniques.{IsNextNumber};

    ghost view = { λ u. u.next };

    ghost invariant = { λ u. IsNextNumber u.next };
}

impl Uniques {
    /// The numbers of a new mount: all of them.
    pub fn new() -> Self
        ensures first { result ≡ first_number }
        ensures next { IsNextNumber result }
    {
        Uniques { next: 2 }
    }

    /// Allocates the coming number, or `None` where none is left. No number is allocated twice.
    pub fn next(&mut self) -> Option<u64>
        ensures allocated { IfSome result (λ unique. unique ≡ self.old) }
        ensures rises { IfSome result (λ unique. self.new ≡ unique + 2) }
        ensures even { IfSome result (λ unique. unique % 2 ≡ 0) }
        ensures low { IfSome result (λ unique. first_number ≤ unique) }
        ensures high { IfSome result (λ unique. unique < number_limit) }
        ensures some_left { IsSome result ↔ (self.old < number_limit) }
        ensures none_left { number_limit ≤ self.old → self.new ≡ self.old }
        ensures next { IsNextNumber self.new }
    {
        let unique = self.next;
        if unique >= COUNTER_END {
            return None;
        }
        self.next = unique + 2;
        Some(unique)
    }

    /// The coming number: what `next` allocates, or 2^62 where none is left.
    pub fn coming(&self) -> u64
        ensures coming { result ≡ self.now }
        ensures next { IsNextNumber self.now }
    {
        self.next
    }

    /// How many numbers can still be allocated.
    pub fn numbers_left(&self) -> u64
        ensures left { result ≡ numbers_left_from self.now }
        ensures next { IsNextNumber self.now }
    {
        (COUNTER_END - self.next) / 2
    }
}

/// The number of the INTERRUPT of a request: the request's, with the lowest bit set.
pub fn interrupt_of(unique: u64) -> u64
    ensures number { result ≡ interrupt_number unique }
    ensures odd { result % 2 ≡ 1 }
    ensures original { unique % 2 ≡ 0 → original_number result ≡ unique }
{
    original_of(unique) + 1
}

/// The number of the request that an INTERRUPT names: its own, with the lowest bit cleared.
pub fn original_of(unique: u64) -> u64
    ensures number { result ≡ original_number unique }
    ensures even { result % 2 ≡ 0 }
    ensures interrupt { unique % 2 ≡ 1 → interrupt_number result ≡ unique }
    ensures itself { unique % 2 ≡ 0 → result ≡ unique }
{
    unique - unique % 2
}
