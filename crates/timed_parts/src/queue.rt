ghost use Rattle.std.specs.Prelude.{◌≡◌, length};

use crate::sums::{line, next};
use mb_base::EdgeId;
use search_heap::{EdgeQueue, Item};
use std::alloc::Global;

/// The edges that may have a moment.
const EDGES: u32 = 65_536;

/// How often an edge gets a moment in a round, so that most get one anew while they have one.
const SETS: u32 = 131_072;

/// Moments are below this number, so that few are equal.
const MOMENTS: u64 = 1_000_000;

/// Gives edges moments that are drawn, and answers the generator's last number.
fn fill(queue: &mut EdgeQueue, start: u64) -> u64
    requires { length queue.old.edges ≡ 65_536 }
    ensures { length queue.new.edges ≡ 65_536 }
{
    let mut state = start;
    for _ in 0..SETS {
        state = next(state);
        let edge = ((state >> 33) % u64::from(EDGES)) as u32 + 1;
        state = next(state);
        let moment = ((state >> 33) % MOMENTS) as i128;
        queue.set(Item::Edge(EdgeId::new(edge)), moment);
    }
    state
}

/// The lower 64 bits of a moment.
fn low_bits(moment: i128) -> u64 {
    (moment.cast_unsigned() % (1 << 64)) as u64
}

/// Takes the least moments away until none is left, and answers the checksum with them.
fn drain(queue: &mut EdgeQueue, start: u64) -> u64
    requires { length queue.old.edges ≡ 65_536 }
    ensures { length queue.new.edges ≡ 65_536 }
{
    let mut sum = start;
    for _ in 0..EDGES {
        let Some((item, moment)) = queue.least() else {
            return sum;
        };
        if let Item::Edge(edge) = item {
            sum = sum.wrapping_mul(31).wrapping_add(u64::from(edge.number()));
        }
        sum = sum.wrapping_mul(31).wrapping_add(low_bits(moment));
        queue.remove(item);
    }
    sum
}

/// The checksum of so many rounds, if there is memory for a queue.
fn checksum(alloc: Global, rounds: u32) -> Option<u64> {
    let mut queue = EdgeQueue::new(alloc, EDGES, 0).ok()?;
    let mut state = 1;
    let mut sum = 0;
    for _ in 0..rounds {
        state = fill(&mut queue, state);
        sum = drain(&mut queue, sum);
    }
    Some(sum)
}

/// Gives edges pseudo-random moments and takes the least until none is left, so many rounds, and
/// answers a checksum of what came.
pub fn run(alloc: Global, rounds: u32) -> Option<Vec<u8>> {
    let sum = checksum(alloc, rounds)?;
    line(alloc, sum)
}
