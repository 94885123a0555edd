ghost use Rattle.std.specs.Prelude.{◌≡◌};
ghost use Rattle.blossom_c.specs.Numbers.{number_of_ending};

use match_cli::Status;

/// How a call for C ended.
#[derive(Clone, Copy)]
pub enum CallStatus {
    /// The whole answer stands in the buffer.
    Answered(Status),
    /// The answer is longer than the buffer.
    ShortBuffer,
    /// The numbers are those of no task or of no kind.
    NoSuchCall,
}

impl CallStatus {
    /// The number that tells it: the exit status of the program, or one beyond those.
    pub fn number(self) -> u32
        ensures { result ≡ number_of_ending self }
    {
        match self {
            CallStatus::Answered(status) => u32::from(status.code()),
            CallStatus::ShortBuffer => 9,
            CallStatus::NoSuchCall => 10,
        }
    }
}
