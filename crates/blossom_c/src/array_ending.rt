ghost use Rattle.std.specs.Prelude.{◌≡◌};
ghost use Rattle.blossom_c.specs.ArrayEndings.{number_of_array_ending};

use array_call::ArrayStatus;

/// How a call over arrays ended.
#[derive(Clone, Copy)]
pub enum ArrayEnding {
    /// All numbers of the answer stand in the buffer.
    Answered(ArrayStatus),
    /// The answer has more numbers than the buffer has room for.
    ShortBuffer,
    /// The numbers are those of no such task or of no kind.
    NoSuchCall,
}

impl ArrayEnding {
    /// The number that tells it, as that of a call over texts.
    pub fn number(self) -> u32
        ensures { result ≡ number_of_array_ending self }
    {
        match self {
            ArrayEnding::Answered(ArrayStatus::Done) => 0,
            ArrayEnding::Answered(ArrayStatus::Rejected) => 1,
            ArrayEnding::Answered(ArrayStatus::Malformed) => 3,
            ArrayEnding::Answered(ArrayStatus::TooLarge) => 4,
            ArrayEnding::Answered(ArrayStatus::OutOfMemory) => 8,
            ArrayEnding::ShortBuffer => 9,
            ArrayEnding::NoSuchCall => 10,
        }
    }
}
