//! Answers that wait to be collected.

ghost use Rattle.std.specs.Prelude.{◌≡◌};
ghost use Rattle.fk_syscalls.specs.Values.{answer_of};

use fk_syscalls::Answer;
use std::alloc::Allocator;
use std::marker::Model;

/// An answer that waits to be collected.
#[derive(Drop)]
pub struct StoredAnswer<A: Allocator> {
    answer: Answer<A>,
}

impl<A: Allocator> Model for StoredAnswer<A> {
    ghost use Rattle.std.specs.Coded.{codes};
    ghost use Rattle.fuse_spec.specs.Calls.Answers.{Answer};
    ghost use Rattle.fk_syscalls.specs.Values.{answer_of};

    ghost Value = { Answer };

    ghost coded = { Prim.hlevel (codes) };

    ghost view = { λ a. answer_of a.answer };
}

impl<A: Allocator> StoredAnswer<A> {
    pub fn new(answer: Answer<A>) -> Self
        ensures { result ≡ answer_of answer }
    {
        StoredAnswer { answer }
    }

    pub fn into_answer(self) -> Answer<A>
        ensures { answer_of result ≡ self }
    {
        let StoredAnswer { answer } = self;
        answer
    }
}
