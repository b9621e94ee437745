ghost use Rattle.std.specs.Prelude.{◌≡◌};
ghost use Rattle.rmem_db.specs.Statuses.{code_of};

/// How a run ended.
#[derive(Clone, Copy, Debug, PartialEq, Eq)]
pub enum Status {
    Done,
    BadWords,
    BadScript,
    ReadFault,
    WriteFault,
    TooLong,
    BadLog,
    WantOfMemory,
}

impl Status {
    /// The exit status of the process.
    pub fn code(&self) -> u8
        ensures { result ≡ code_of self.now }
    {
        match self {
            Status::Done => 0,
            Status::BadWords => 2,
            Status::BadScript => 3,
            Status::ReadFault => 4,
            Status::WriteFault => 5,
            Status::TooLong => 6,
            Status::BadLog => 7,
            Status::WantOfMemory => 12,
        }
    }
}
