ghost use Rattle.std.specs.Prelude.{◌≡◌, ℕ, ◌<◌, ◌≤◌, ◌-◌, ◌^◌, true, [], length, take, drop, min};
ghost use Rattle.std.specs.Prelude.{Some, vec_len, IfOk, IsErr, ◌↔◌, MatchResult};
ghost use Rattle.std.specs.Io.{ReadsAtMost};
ghost use Rattle.std.specs.Io.KnownBytes.{ReadConsumes};
ghost use Rattle.mb_base.specs.Streams.{CountsFaults};
ghost use Rattle.mb_base.specs.MemoryStreams.{given, past, fails_next, after_call};

use crate::fault_plan::FaultPlan;
use crate::streams::{Failed, Source};
use std::marker::Model;

/// Copies the front of `bytes`, at most `piece` of them, and answers how many.
fn give(bytes: &[u8], piece: usize, buf: &mut [u8]) -> usize
    requires { 0 < piece }
    ensures count { result ≡ min (min (length buf.old) piece) (length bytes.now) }
    ensures front { take result buf.new ≡ take result bytes.now }
{
    let count = buf.len().min(piece).min(bytes.len());
    buf[..count].copy_from_slice(&bytes[..count]);
    count
}

/// Bytes in memory, given at most `piece` at a time. It never fails.
#[derive(Drop)]
pub struct SureSource {
    bytes: Vec<u8>,
    at: usize,
    piece: usize,
}

impl Model for SureSource {
    ghost use Rattle.std.specs.Prelude.{◌≤◌, ◌<◌, vec_len, drop};
    ghost use Rattle.mb_base.specs.MemoryStreams.{MemoryInput};

    ghost Value = { MemoryInput };

    ghost view = { λ s. record { left = drop s.at s.bytes.items; piece = s.piece } };

    ghost invariant = { λ s. (s.at ≤ vec_len s.bytes) × (0 < s.piece) };
}

impl SureSource {
    /// A source of these bytes.
    pub fn new(bytes: Vec<u8>, piece: usize) -> SureSource
        requires { 0 < piece }

        // A source in memory that never fails.
        ensures { result ≡ record { left = bytes.items; piece = piece } }
    {
        SureSource {
            bytes,
            at: 0,
            piece,
        }
    }
}

impl Source for SureSource {
    ghost left = { λ s. Some s.left };

    ghost faults = { λ _. 0 };

    fn read(&mut self, buf: &mut [u8]) -> Result<usize, Failed>
        ensures bound { ReadsAtMost result buf.new }
        ensures bytes { ReadConsumes (Some self.old.left) (Some self.new.left) result buf.new }
        ensures cause { CountsFaults 0 0 result }
        ensures count { IfOk result (λ k. k ≡ given self.old (length buf.old)) }
        ensures after { self.new ≡ past self.old (given self.old (length buf.old)) }
    {
        let count = give(&self.bytes[self.at..], self.piece, buf);
        self.at += count;
        Ok(count)
    }
}

/// A `SureSource` that fails as planned: the calls whose number from 1 stands in `fails` give
/// nothing, fail and are counted.
#[derive(Drop)]
pub struct MemSource {
    source: SureSource,
    plan: FaultPlan,
}

impl Model for MemSource {
    ghost use Rattle.mb_base.specs.MemoryStreams.{FailingInput};

    ghost Value = { FailingInput };

    ghost view = { λ s. record { input = s.source; plan = s.plan } };
}

impl MemSource {
    /// A source of these bytes that fails at these calls.
    pub fn new(bytes: Vec<u8>, piece: usize, fails: Vec<u64>) -> MemSource
        requires { 0 < piece }

        // A source in memory for tests: at most a piece a call, with faults at the planned calls
        // and at no others.
        ensures input { result.input ≡ record { left = bytes.items; piece = piece } }
        ensures plan { result.plan ≡ record { fails = fails.items; calls = 0; faults = 0 } }
    {
        MemSource {
            source: SureSource::new(bytes, piece),
            plan: FaultPlan::new(fails),
        }
    }
}

impl Source for MemSource {
    ghost left = { λ s. Some s.input.left };

    ghost faults = { λ s. s.plan.faults };

    fn read(&mut self, buf: &mut [u8]) -> Result<usize, Failed>
        requires { self.old.plan.faults < 2 ^ 64 - 1 }
        ensures bound { ReadsAtMost result buf.new }
        ensures bytes { ReadConsumes (Some self.old.input.left)
            (Some self.new.input.left) result buf.new }
        ensures cause { CountsFaults self.old.plan.faults self.new.plan.faults result }
        ensures fails { IsErr result ↔ (fails_next self.old.plan ≡ true) }
        ensures plan { self.new.plan ≡ after_call self.old.plan }
        ensures count { IfOk result (λ k. k ≡ given self.old.input (length buf.old)) }
        ensures after { MatchResult result (λ k. self.new.input ≡ past self.old.input k)
            (λ _. self.new.input ≡ self.old.input) }
    {
        if self.plan.fails_now() {
            return Err(Failed);
        }
        self.source.read(buf)
    }
}
