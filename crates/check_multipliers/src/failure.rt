ghost use Rattle.std.specs.Prelude.{◌≡◌};
ghost use Rattle.check_multipliers.specs.declared.failure.Failure.TheVariants.{Io};
ghost use Rattle.check_multipliers.specs.Failures.{WantsMemory};

use std::alloc::{AllocError, AllocFailed};
use std::io;
use thiserror::Error;

// Why no answer was printed, with the whole words and paths that its message names.
#[derive(Debug, Drop, Error)]
pub enum Failure {
    #[error("usage: check_multipliers FILE NUMBER ..")]
    Usage,
    // a word that writes no number
    #[error("no number below 4294967296: {0}")]
    Number(String),
    // a path that could not be opened
    #[error("cannot read {0}: {1}")]
    File(String, io::Error),
    #[error("{0}")]
    Io(io::Error),
}

impl From<io::Error> for Failure {
    ghost from_gives = { λ e f. f ≡ Io e };

    fn from(cause: io::Error) -> Failure {
        Failure::Io(cause)
    }
}

impl From<AllocError> for Failure {
    ghost from_gives = { λ _ f. WantsMemory f };

    fn from(error: AllocError) -> Failure {
        Failure::Io(error.into())
    }
}

impl<T: Drop> From<AllocFailed<T>> for Failure {
    ghost from_gives = { λ _ f. WantsMemory f };

    fn from(error: AllocFailed<T>) -> Failure {
        Failure::Io(error.into())
    }
}
