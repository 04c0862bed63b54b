ghost use Rattle.std.specs.Prelude.{◌≡◌};
ghost use Rattle.ris_base.specs.Status.{status_code};

/// How a run of the program ended.
#[derive(Clone, Copy, Debug, PartialEq, Eq)]
pub enum Status {
    Ok,
    Usage,
    Script,
    TooLong,
    ReadFault,
    WriteFault,
    NoMemory,
}

impl Status {
    /// The exit status of the process: 0 for `Ok`, 2 for faulty words, 3 for a faulty or too long script, 4 and 5 for a
    /// read and a write that failed, 6 for want of memory.
    pub fn code(&self) -> u8
        ensures { result ≡ status_code self.now }
    {
        match self {
            Status::Ok => 0,
            Status::Usage => 2,
            Status::Script | Status::TooLong => 3,
            Status::ReadFault => 4,
            Status::WriteFault => 5,
            Status::NoMemory => 6,
        }
    }
}
