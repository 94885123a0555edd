ghost use Rattle.std.specs.Prelude.{◌≡◌};
ghost use Rattle.check_text.specs.Codes.{code_of};

/// How a run ended.
#[derive(Clone, Copy, PartialEq, Eq)]
pub enum Status {
    /// The document was accepted, or the instance was solved.
    Done,
    /// The document was refused, by a rule at a line.
    Rejected,
    /// The words are no command.
    Usage,
    /// The instance breaks a rule at a line.
    Malformed,
    /// The certificate graph of this instance is too large.
    TooLarge,
    /// The input has more bytes than the command takes.
    TooLong,
    /// A read failed.
    ReadFault,
    /// A write failed.
    WriteFault,
    /// There isn't enough memory.
    OutOfMemory,
}

impl Status {
    /// The exit status that tells it.
    pub fn code(self) -> u8
        // The exit status of each answer.
        ensures { result ≡ code_of self }
    {
        match self {
            Status::Done => 0,
            Status::Rejected => 1,
            Status::Usage => 2,
            Status::Malformed => 3,
            Status::TooLarge => 4,
            Status::TooLong => 5,
            Status::ReadFault => 6,
            Status::WriteFault => 7,
            Status::OutOfMemory => 8,
        }
    }
}
