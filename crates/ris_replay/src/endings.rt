use ris_base::Cause;

/// How a run ended: as its status, and with the number and cause of the script's first fault where that is it.
#[derive(Clone, Copy, Debug, PartialEq, Eq)]
pub enum Ending {
    Done,
    Usage,
    Script { number: u64, cause: Cause },
    TooLong,
    ReadFault,
    WriteFault,
    NoMemory,
}
