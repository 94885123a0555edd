ghost use Rattle.std.specs.Prelude.{◌≡◌, ◌<◌, ◌≤◌, ◌-◌, ◌^◌, length, take, None, IfSome, IfOk};
ghost use Rattle.std.specs.Io.KnownBytes.{Appends};
ghost use Rattle.mb_base.specs.Streams.{TakesPiece, KeepsRoom, CountsFaults};

use crate::streams::{Failed, Sink, Source};
use std::io::{Read, Write};

/// A reader of the process, as a source. It tells the bytes that the reader tells: none, for
/// standard input.
#[derive(Drop)]
pub struct RealIn<R> {
    reader: R,
    faults: u64,
}

impl<R: Read> RealIn<R> {
    /// The reader, with no fault yet.
    pub fn new(reader: R) -> RealIn<R>
        ensures { ⟦<RealIn<R> as Source>⟧.faults result ≡ 0 }
    {
        RealIn { reader, faults: 0 }
    }
}

impl<R: Read> Source for RealIn<R> {
    ghost left = { λ s. R.remaining s.reader };

    ghost faults = { λ s. s.faults };

    fn read(&mut self, buf: &mut [u8]) -> Result<usize, Failed> {
        match self.reader.read(buf) {
            Ok(count) => Ok(count),
            Err(_) => {
                self.faults += 1;
                Err(Failed)
            }
        }
    }
}

/// A writer of the process, as a sink, flushed after each write. It tells no bytes, since a flush
/// that fails comes after bytes were taken.
#[derive(Drop)]
pub struct RealOut<W> {
    writer: W,
    faults: u64,
}

impl<W: Write> RealOut<W> {
    /// The writer, with no fault yet.
    pub fn new(writer: W) -> RealOut<W>
        ensures { ⟦<RealOut<W> as Sink>⟧.faults result ≡ 0 }
    {
        RealOut { writer, faults: 0 }
    }
}

/// One write and a flush: how many bytes were taken, or None if either failed.
fn put<W: Write>(writer: &mut W, piece: &[u8]) -> Option<usize>
    ensures some { IfSome result (λ k. (k ≤ length piece.now) × (0 < length piece.now → 0 < k)) }
    ensures appended { IfSome result (λ k. Appends (W.contents writer.old) (W.contents writer.new)
        (take k piece.now)) }
{
    let count = writer.write(piece).ok()?;
    writer.flush().ok()?;
    if count == 0 && !piece.is_empty() {
        return None;
    }
    Some(count)
}

impl<W: Write> Sink for RealOut<W> {
    ghost taken = { λ _. None };

    ghost faults = { λ s. s.faults };

    ghost room = { λ _. 0 };

    /// What the writer holds grows by exactly the bytes that are answered as taken.
    fn write(&mut self, piece: &[u8]) -> Result<usize, Failed>
        requires { self.old.faults < 2 ^ 64 - 1 }

        // The process's output keeps the meaning of the trait, as does its input (`RealIn`).
        ensures bytes { TakesPiece None None result piece.now }
        ensures room { KeepsRoom 0 0 None None result }
        ensures cause { CountsFaults self.old.faults self.new.faults result }
        ensures appended { IfOk result (λ k. Appends (W.contents self.old.writer)
            (W.contents self.new.writer) (take k piece.now)) }
    {
        match put(&mut self.writer, piece) {
            Some(count) => Ok(count),
            None => {
                self.faults += 1;
                Err(Failed)
            }
        }
    }
}
