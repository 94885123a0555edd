ghost use Rattle.std.specs.Prelude.{◌≡◌, ◌+◌, ◌<◌, ◌^◌, [], length};
ghost use Rattle.bottleneck.specs.Halving.{narrowed, told};

use crate::found::Bottleneck;
use mb_base::{EdgeId, Sequence, VertexId};
use std::alloc::Global;

/// What is left of the places of the weights: the least one up to which the edges have a perfect
/// matching isn't before `low` and isn't after `high`. The matching uses edges up to the one, and
/// the barrier is one of the graph of edges before the other.
#[derive(Drop)]
pub struct Range {
    pub low: usize,
    pub high: usize,
    pub matching: Vec<EdgeId>,
    pub barrier: Vec<VertexId>,
}

/// What a search finds: a perfect matching, or a barrier.
#[derive(Drop)]
pub enum Found {
    Matching(Vec<EdgeId>),
    Barrier(Vec<VertexId>),
}

/// The places of the weights from one on, and the end behind them.
pub fn range_from(alloc: Global, low: usize, weights: &[i64]) -> Range
    ensures low { result.low ≡ low }
    ensures high { result.high ≡ length weights.now }
    ensures barrier { result.barrier.items ≡ [] }
{
    Range {
        low,
        high: weights.len(),
        matching: Vec::new(alloc),
        barrier: Vec::new(alloc),
    }
}

/// What is left of a range after a search among the edges up to a place.
pub fn narrow(range: &mut Range, middle: usize, found: Found)
    requires { middle + 1 < 2 ^ 64 }
    ensures { range.new ≡ narrowed middle found range.old }
{
    match found {
        Found::Matching(edges) => {
            range.high = middle;
            range.matching = edges;
        }
        Found::Barrier(set) => {
            range.low = middle + 1;
            range.barrier = set;
        }
    }
}

/// What a range of one place says.
pub fn told(weights: &[i64], range: Range) -> Bottleneck
    ensures { result ≡ told weights.now range }
{
    let Range {
        low: _,
        high,
        matching,
        barrier,
    } = range;
    if high < weights.len() {
        return Bottleneck::Best {
            weight: weights[high],
            matching: Sequence::from_vec(matching),
            barrier: Sequence::from_vec(barrier),
        };
    }
    Bottleneck::Unmatched {
        barrier: Sequence::from_vec(barrier),
    }
}
