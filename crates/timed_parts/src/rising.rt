ghost use Rattle.std.specs.Prelude.{◌≡◌, length};

use crate::sums::{line, next};
use blossom_arena::NodeId;
use search_heap::{Item, RisingQueue};
use std::alloc::Global;

/// The nodes that can have a moment.
const NODES: u32 = 65_536;

/// How often in a round three nodes get a moment and the least moment is taken.
const TURNS: u32 = 65_536;

/// A moment lies less than this ahead of the one that was taken last.
const AHEAD: u64 = 1_000_000;

/// The generator's last number, the moment that was taken last, and the checksum.
#[derive(Clone, Copy)]
struct State {
    draws: u64,
    clock: u64,
    sum: u64,
}

/// How far ahead of the clock a moment lies: for one of eight draws it is the clock itself.
fn ahead(draw: u64) -> u64 {
    if draw % 8 == 0 {
        return 0;
    }
    (draw >> 3) % AHEAD
}

/// Draws a node and gives it a moment from the clock on; one of four comes before equal moments.
fn set_one(queue: &mut RisingQueue, state: State) -> State
    requires { length queue.old.blossoms ≡ 65_536 }
    ensures { length queue.new.blossoms ≡ 65_536 }
{
    let first = next(state.draws);
    let second = next(first);
    let node = NodeId::new(((first >> 33) % u64::from(NODES)) as u32 + 1);
    let moment = state.clock.wrapping_add(ahead(second >> 33)).cast_signed();
    let rest = State {
        draws: second,
        clock: state.clock,
        sum: state.sum,
    };
    if (first >> 20) % 4 == 0 {
        queue.set_early(node, moment);
        return rest;
    }
    queue.set(node, moment);
    rest
}

/// Takes the least moment, if there is one, and adds it to the checksum.
fn take_one(queue: &mut RisingQueue, state: State) -> State
    requires { length queue.old.blossoms ≡ 65_536 }
    ensures { length queue.new.blossoms ≡ 65_536 }
{
    let Some((item, moment)) = queue.least() else {
        return state;
    };
    let Item::Blossom(node) = item else {
        return state;
    };
    queue.remove(node);
    let clock = moment.cast_unsigned();
    let sum = state
        .sum
        .wrapping_mul(31)
        .wrapping_add(u64::from(node.number()))
        .wrapping_mul(31)
        .wrapping_add(clock);
    State {
        draws: state.draws,
        clock,
        sum,
    }
}

/// One round: the turns, then all moments that are left are taken.
fn play(queue: &mut RisingQueue, start: State) -> State
    requires { length queue.old.blossoms ≡ 65_536 }
    ensures { length queue.new.blossoms ≡ 65_536 }
{
    let mut state = start;
    for _ in 0..TURNS {
        state = set_one(queue, state);
        state = set_one(queue, state);
        state = set_one(queue, state);
        state = take_one(queue, state);
    }
    drain(queue, state)
}

/// Takes all moments that are left.
fn drain(queue: &mut RisingQueue, start: State) -> State
    requires { length queue.old.blossoms ≡ 65_536 }
    ensures { length queue.new.blossoms ≡ 65_536 }
{
    let mut state = start;
    for _ in 0..NODES {
        state = take_one(queue, state);
    }
    state
}

/// The checksum of so many rounds, if there is memory for a queue.
fn checksum(alloc: Global, rounds: u32) -> Option<u64> {
    let mut queue = RisingQueue::new(alloc, NODES).ok()?;
    let mut state = State {
        draws: 1,
        clock: 0,
        sum: 0,
    };
    for _ in 0..rounds {
        state = play(&mut queue, state);
    }
    Some(state.sum)
}

/// Gives nodes pseudo-random moments that only rise and takes the least, so many rounds, and
/// answers a checksum of what came.
pub fn run(alloc: Global, rounds: u32) -> Option<Vec<u8>> {
    let sum = checksum(alloc, rounds)?;
    line(alloc, sum)
}
