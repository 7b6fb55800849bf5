ghost use Rattle.std.specs.Prelude.{◌≡◌};

/// How a run of the program ended.
#[derive(Clone, Copy, Debug, PartialEq, Eq)]
pub enum Status {
    /// The program's results were written.
    Done,
    /// The program met a fault.
    Faulted,
    /// The source was refused.
    Source,
    /// The input was refused.
    Input,
    /// The program met a limit on turns or nested calls.
    Limit,
    /// The files failed, or a file is missing.
    ReadFault,
    /// The sink failed.
    WriteFault,
    /// The words were refused.
    Usage,
    /// No memory was found.
    Memory,
}

impl Status {
    ghost use Rattle.sac_due.specs.Status.{code_of};

    /// The program's exit status.
    pub fn code(&self) -> u8
        ensures { result ≡ code_of self.now }
    {
        match self {
            Status::Done => 0,
            Status::Faulted => 1,
            Status::Source => 2,
            Status::Input => 3,
            Status::Limit => 4,
            Status::ReadFault => 5,
            Status::WriteFault => 6,
            Status::Usage => 7,
            Status::Memory => 8,
        }
    }
}
