ghost use Rattle.std.specs.Prelude.{◌≡◌, ℕ, ◌+◌, ◌-◌, ◌<◌, ◌≤◌, ◌^◌, [], ◌++◌, true, length, take};
ghost use Rattle.std.specs.Prelude.{IsTrue, ◌↔◌, Some, None, vec_len, vec_capacity, IfOk, IsErr};
ghost use Rattle.std.specs.Prelude.{MatchResult};
ghost use Rattle.mb_base.specs.Streams.{CountsFaults, TakesPiece, KeepsRoom};
ghost use Rattle.mb_base.specs.MemoryStreams.{MemoryOutput, room_left, told, taken_of, with_more};
ghost use Rattle.mb_base.specs.MemoryStreams.{fails_next, after_call};

use crate::fault_plan::FaultPlan;
use crate::streams::{Failed, Sink};
use base_types::OutOfMemory;
use std::alloc::Global;
use std::marker::Model;

/// Keeps the front of `bytes` as far as there is room, and answers whether that is all of them.
fn keep(kept: &mut Vec<u8>, room: usize, bytes: &[u8]) -> bool
    requires enough { room ≤ vec_capacity kept.old }
    requires within { vec_len kept.old ≤ room }
    ensures enough { room ≤ vec_capacity kept.new }
    ensures within { vec_len kept.new ≤ room }
    ensures front { kept.new.items ≡ kept.old.items ++ take (room - vec_len kept.old) bytes.now }
    ensures whole { IsTrue result → kept.new.items ≡ kept.old.items ++ bytes.now }
    ensures fits { IsTrue result ↔ (vec_len kept.old + length bytes.now ≤ room) }
{
    let count = bytes.len().min(room - kept.len());
    let _ = kept.extend_from_slice(&bytes[..count]);
    count == bytes.len()
}

/// Takes at most `piece` bytes at a time and never fails. It keeps the first `room` bytes; past
/// them it keeps nothing more and no longer tells what it took.
#[derive(Drop)]
pub struct SureSink {
    kept: Vec<u8>,
    room: usize,
    piece: usize,
    is_whole: bool,
}

impl Model for SureSink {
    ghost use Rattle.std.specs.Prelude.{◌≤◌, ◌<◌, vec_len, vec_capacity};
    ghost use Rattle.mb_base.specs.MemoryStreams.{MemoryOutput};

    ghost Value = { MemoryOutput };

    ghost view = { λ s. record {
      kept = s.kept.items;
      room = s.room;
      piece = s.piece;
      is_whole = s.is_whole;
    } };

    ghost invariant = { λ s. (s.room ≤ vec_capacity s.kept) × (vec_len s.kept ≤ s.room)
        × (0 < s.piece) };
}

impl SureSink {
    /// A sink with memory for `room` bytes.
    pub fn new(alloc: Global, room: usize, piece: usize) -> Result<SureSink, OutOfMemory>
        requires { 0 < piece }

        // A sink in memory that never fails.
        ensures { IfOk result (λ s. s ≡ record {
          kept = [];
          room = room;
          piece = piece;
          is_whole = true;
        }) }
    {
        let kept = Vec::with_capacity(alloc, room)?;
        Ok(SureSink {
            kept,
            room,
            piece,
            is_whole: true,
        })
    }

    /// The bytes that were kept: all that were taken, while the sink tells them.
    pub fn kept(&self) -> &[u8]
        ensures { result.now ≡ self.now.kept }
    {
        &self.kept
    }
}

impl Sink for SureSink {
    ghost taken = { told };

    ghost faults = { λ _. 0 };

    ghost room = { room_left };

    fn write(&mut self, piece: &[u8]) -> Result<usize, Failed>
        ensures bytes { TakesPiece (told self.old) (told self.new) result piece.now }
        ensures room { KeepsRoom (room_left self.old) (room_left self.new) (told self.old)
            (told self.new) result }
        ensures cause { CountsFaults 0 0 result }
        ensures count { IfOk result (λ k. k ≡ taken_of self.old (length piece.now)) }
        ensures after { self.new
            ≡ with_more self.old (take (taken_of self.old (length piece.now)) piece.now) }
    {
        let count = piece.len().min(self.piece);
        if !keep(&mut self.kept, self.room, &piece[..count]) {
            self.is_whole = false;
        }
        Ok(count)
    }
}

/// A `SureSink` that fails as planned: the calls whose number from 1 stands in `fails` take
/// nothing, fail and are counted.
#[derive(Drop)]
pub struct MemSink {
    sink: SureSink,
    plan: FaultPlan,
}

impl Model for MemSink {
    ghost use Rattle.mb_base.specs.MemoryStreams.{FailingOutput};

    ghost Value = { FailingOutput };

    ghost view = { λ s. record { output = s.sink; plan = s.plan } };
}

impl MemSink {
    /// A sink with memory for `room` bytes that fails at these calls.
    pub fn new(
        alloc: Global,
        room: usize,
        piece: usize,
        fails: Vec<u64>,
    ) -> Result<MemSink, OutOfMemory>
        requires { 0 < piece }

        // A sink in memory for tests, which keeps the first bytes that it has room for and fails at
        // the planned calls alone.
        ensures output { IfOk result (λ s. s.output ≡ record {
          kept = [];
          room = room;
          piece = piece;
          is_whole = true;
        }) }
        ensures plan { IfOk result (λ s. s.plan ≡ record {
          fails = fails.items;
          calls = 0;
          faults = 0;
        }) }
    {
        let sink = SureSink::new(alloc, room, piece)?;
        Ok(MemSink {
            sink,
            plan: FaultPlan::new(fails),
        })
    }

    /// The bytes that were kept: all that were taken, while the sink tells them.
    pub fn kept(&self) -> &[u8]
        // The bytes that were kept.
        ensures { result.now ≡ self.now.output.kept }
    {
        self.sink.kept()
    }
}

impl Sink for MemSink {
    ghost taken = { λ s. told s.output };

    ghost faults = { λ s. s.plan.faults };

    ghost room = { λ s. room_left s.output };

    fn write(&mut self, piece: &[u8]) -> Result<usize, Failed>
        requires { self.old.plan.faults < 2 ^ 64 - 1 }
        ensures bytes { TakesPiece (told self.old.output) (told self.new.output) result piece.now }
        ensures room { KeepsRoom (room_left self.old.output) (room_left self.new.output)
            (told self.old.output) (told self.new.output) result }
        ensures cause { CountsFaults self.old.plan.faults self.new.plan.faults result }
        ensures fails { IsErr result ↔ (fails_next self.old.plan ≡ true) }
        ensures plan { self.new.plan ≡ after_call self.old.plan }
        ensures count { IfOk result (λ k. k ≡ taken_of self.old.output (length piece.now)) }
        ensures after { MatchResult result (λ k. self.new.output
            ≡ with_more self.old.output (take k piece.now)) (λ _. self.new.output
            ≡ self.old.output) }
    {
        if self.plan.fails_now() {
            return Err(Failed);
        }
        self.sink.write(piece)
    }
}
