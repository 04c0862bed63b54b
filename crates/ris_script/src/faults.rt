use ris_base::{Cause, NoMemory};

/// Why no script was read: the first record that is a fault, by its number from 1, and why; or memory was wanted.
#[derive(Clone, Copy, Debug, PartialEq, Eq)]
pub enum ScriptError {
    Fault { number: u64, cause: Cause },
    NoMemory,
}

impl From<NoMemory> for ScriptError {
    ghost use Rattle.std.specs.Prelude.{◌≡◌};
    ghost use Rattle.ris_script.specs.declared.faults.ScriptError.TheVariants as error;

    ghost from_gives = { λ _ e. e ≡ error.NoMemory };

    fn from(_: NoMemory) -> Self {
        ScriptError::NoMemory
    }
}

/// Why a record isn't taken: it is a fault, or memory was wanted.
#[derive(Clone, Copy, Debug, PartialEq, Eq)]
pub(crate) enum RecordError {
    Fault(Cause),
    NoMemory,
}

impl RecordError {
    ghost use Rattle.std.specs.Prelude.{◌≡◌};
    ghost use Rattle.ris_script.specs.Bytes.{error_at};

    /// The same of the record with this number.
    pub(crate) fn at(self, number: u64) -> ScriptError
        ensures { result ≡ error_at number self }
    {
        match self {
            RecordError::Fault(cause) => ScriptError::Fault { number, cause },
            RecordError::NoMemory => ScriptError::NoMemory,
        }
    }
}

impl From<Cause> for RecordError {
    ghost use Rattle.std.specs.Prelude.{◌≡◌};
    ghost use Rattle.ris_script.specs.declared.faults.RecordError.TheVariants as error;

    ghost from_gives = { λ why e. e ≡ error.Fault why };

    fn from(cause: Cause) -> Self {
        RecordError::Fault(cause)
    }
}

impl From<NoMemory> for RecordError {
    ghost use Rattle.std.specs.Prelude.{◌≡◌};
    ghost use Rattle.ris_script.specs.declared.faults.RecordError.TheVariants as error;

    ghost from_gives = { λ _ e. e ≡ error.NoMemory };

    fn from(_: NoMemory) -> Self {
        RecordError::NoMemory
    }
}
