ghost use Rattle.std.specs.Prelude.{◌≡◌, ℕ, ◌<◌, ◌-◌, ◌^◌, List, Option, length};
ghost use Rattle.std.specs.Io.{ReadsAtMost};
ghost use Rattle.std.specs.Io.KnownBytes.{ReadConsumes};
ghost use Rattle.mb_base.specs.Streams.{CountsFaults, TakesPiece, KeepsRoom};

use thiserror::Error;

/// A read or a write failed. The count of faults of the source or the sink rose.
#[derive(Clone, Copy, Debug, PartialEq, Eq, Error)]
#[error("a read or a write failed")]
pub struct Failed;

/// Where bytes come from.
pub trait Source {
    /// The bytes still to come, where the source tells them.
    ghost left: { Self → Option (List ℕ) };

    /// How often a read has failed.
    ghost faults: { Self → ℕ };

    /// Fills the front of the buffer with the next bytes, and answers how many those are.
    /// None come into a buffer that isn't empty only at the end of the input.
    fn read(&mut self, buf: &mut [u8]) -> Result<usize, Failed>
        requires { faults self.old < 2 ^ 64 - 1 }

        // A read gives at most as many bytes as were asked for, the next ones of the source, or
        // counts a fault.
        ensures bound { ReadsAtMost result buf.new }
        ensures bytes { ReadConsumes (left self.old) (left self.new) result buf.new }
        ensures cause { CountsFaults (faults self.old) (faults self.new) result };
}

/// Where bytes go.
pub trait Sink {
    /// The bytes taken so far, where the sink tells them.
    ghost taken: { Self → Option (List ℕ) };

    /// How often a write has failed.
    ghost faults: { Self → ℕ };

    /// How many bytes more the sink is sure to tell.
    ghost room: { Self → ℕ };

    /// Takes the front of the piece, and answers how many bytes those are: at least one of a piece
    /// that isn't empty.
    fn write(&mut self, piece: &[u8]) -> Result<usize, Failed>
        requires { faults self.old < 2 ^ 64 - 1 }

        // A write takes bytes in their order, and a sink that records them shrinks its room by what
        // it took.
        ensures bytes { TakesPiece (taken self.old) (taken self.new) result piece.now }
        ensures room { KeepsRoom (room self.old) (room self.new) (taken self.old)
            (taken self.new) result }
        ensures cause { CountsFaults (faults self.old) (faults self.new) result };
}
