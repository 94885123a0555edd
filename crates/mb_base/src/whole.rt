ghost use Rattle.std.specs.Prelude.{◌≡◌, ℕ, ◌<◌, ◌-◌, ◌^◌, ◌↔◌, length, IsErr, IsErrOf};
ghost use Rattle.mb_base.specs.Streams.{ReadsAll, CountsReadFaults, WritesAll, CountsFaults};
ghost use Rattle.mb_base.specs.Streams.{UsesRoom, StaysTold, count_taken};

use crate::streams::{Sink, Source};
use base_types::OutOfMemory;
use std::alloc::Global;
use thiserror::Error;

/// Why not all bytes were read.
#[derive(Clone, Copy, Debug, PartialEq, Eq, Error)]
pub enum ReadAll {
    /// A read failed: the source's count of faults rose.
    #[error("a read failed")]
    ReadFault,
    /// More bytes came than the limit allows; one more than the limit was taken.
    #[error("the input is too long")]
    TooLong,
    /// There isn't enough memory for the bytes.
    #[error("out of memory")]
    OutOfMemory,
}

impl From<OutOfMemory> for ReadAll {
    ghost use Rattle.std.specs.Prelude.{◌≡◌};
    ghost use Rattle.mb_base.specs.declared.whole.ReadAll.TheVariants.{OutOfMemory};

    ghost from_gives = { λ _ e. e ≡ OutOfMemory };

    fn from(_: OutOfMemory) -> ReadAll {
        ReadAll::OutOfMemory
    }
}

/// A write failed: the sink's count of faults rose.
#[derive(Clone, Copy, Debug, PartialEq, Eq, Error)]
#[error("a write failed after {done} bytes")]
pub struct WriteFault {
    /// How many bytes were taken before.
    pub done: usize,
}

/// All bytes that the source has left, at most `limit` of them.
///
/// Each turn is one read into a buffer that isn't empty, so it takes a byte or is the last.
pub fn read_all<S: Source>(alloc: Global, source: &mut S, limit: u64) -> Result<Vec<u8>, ReadAll>
    requires value_limit { limit < 2 ^ 32 }
    requires counts { S.faults source.old < 2 ^ 64 - 1 }

    // All bytes of a source in their order, at most a limit of them; a fault is reported exactly if
    // the source's count of faults rose.
    ensures bytes { ReadsAll limit (S.left source.old) (S.left source.new) result }
    ensures fault { IsErrOf result ReadAll.ReadFault ↔ (S.faults source.old < S.faults source.new) }
    ensures count { CountsReadFaults (S.faults source.old) (S.faults source.new) result }
{
    let mut bytes = Vec::new(alloc);
    let mut buf = [0u8; 65536];
    while bytes.len() as u64 <= limit {
        let room = (limit - bytes.len() as u64).min(65535) as usize + 1;
        match source.read(&mut buf[..room]) {
            Err(_) => return Err(ReadAll::ReadFault),
            Ok(0) => return Ok(bytes),
            Ok(count) => bytes.extend_from_slice(&buf[..count])?,
        }
    }
    Err(ReadAll::TooLong)
}

/// Has the sink take all the bytes, in as many writes as it wants. Where the sink told what it took
/// and has room for all of them, it tells them afterwards.
pub fn write_all<K: Sink>(sink: &mut K, bytes: &[u8]) -> Result<(), WriteFault>
    requires { K.faults sink.old < 2 ^ 64 - 1 }

    // The bytes reach the sink in their order; after a fault exactly the first `done` of them did.
    ensures bytes { WritesAll (K.taken sink.old) (K.taken sink.new) bytes.now result }
    ensures room { UsesRoom (K.room sink.old) (K.room sink.new)
        (count_taken (length bytes.now) result) }

    // A sink that records its output and has room for all of it records all, and goes on recording.
    ensures told { StaysTold (K.room sink.old) (K.taken sink.old) (K.taken sink.new)
        (count_taken (length bytes.now) result) }
    ensures fault { IsErr result ↔ (K.faults sink.old < K.faults sink.new) }
    ensures count { CountsFaults (K.faults sink.old) (K.faults sink.new) result }
{
    let mut done = 0;
    while done < bytes.len() {
        match sink.write(&bytes[done..]) {
            Err(_) => return Err(WriteFault { done }),
            Ok(count) => done += count,
        }
    }
    Ok(())
}
