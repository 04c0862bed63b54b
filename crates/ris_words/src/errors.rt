ghost use Rattle.std.specs.Prelude.{◌≡◌};

use ris_base::NoMemory;
use std::alloc::AllocError;
use std::error::Error;
use std::fmt;

/// Why words weren't read: they have another form, or memory was wanted.
#[derive(Clone, Copy, Debug, PartialEq, Eq)]
pub enum WordsError {
    Usage,
    NoMemory,
}

impl fmt::Display for WordsError {
    fn fmt<W: fmt::Write>(&self, f: &mut fmt::Formatter<W>) -> fmt::Result {
        match self {
            WordsError::Usage => write!(f, "usage"),
            WordsError::NoMemory => write!(f, "out of memory"),
        }
    }
}

impl Error for WordsError {}

impl From<NoMemory> for WordsError {
    ghost use Rattle.ris_words.specs.declared.errors.WordsError.TheVariants as error;

    ghost from_gives = { λ _ e. e ≡ error.NoMemory };

    fn from(_: NoMemory) -> Self {
        WordsError::NoMemory
    }
}
