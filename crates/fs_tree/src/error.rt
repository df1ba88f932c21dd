//! Why an operation was refused.

ghost use Rattle.std.specs.Prelude.{◌≡◌};
ghost use Rattle.fs_tree.specs.Outcomes.{tree_errno};

use std::alloc::AllocError;
use thiserror::Error;

/// The first refusal that applies (`errno.h`), or out of memory, which comes after all of them.
#[derive(Clone, Copy, Debug, PartialEq, Eq, Error)]
pub enum TreeError {
    #[error("operation not permitted")]
    NotPermitted = 1,
    #[error("no such file or directory")]
    NotFound = 2,
    #[error("no memory")]
    NoMemory = 12,
    #[error("file exists")]
    AlreadyExists = 17,
    #[error("not a directory")]
    NotADirectory = 20,
    #[error("is a directory")]
    IsADirectory = 21,
    #[error("invalid argument")]
    Invalid = 22,
    #[error("file too large")]
    FileTooLarge = 27,
    #[error("no space left")]
    NoSpace = 28,
    #[error("directory not empty")]
    NotEmpty = 39,
}

impl TreeError {
    /// The error's number in `errno.h`.
    pub fn errno(self) -> u8
        ensures { result ≡ tree_errno self }
    {
        self as u8
    }
}

impl From<AllocError> for TreeError {
    ghost use Rattle.std.specs.Prelude.{◌≡◌};
    ghost use Rattle.fs_tree.specs.declared.error.TreeError.{TreeError};

    ghost from_gives = { λ _ error. error ≡ TreeError.NoMemory };

    fn from(_: AllocError) -> TreeError {
        TreeError::NoMemory
    }
}
