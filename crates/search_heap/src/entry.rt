ghost use Rattle.std.specs.Prelude.{◌≡◌, ◌<◌, length};
ghost use Rattle.search_heap.specs.Heaps.{joined, moment_in, IsRewritten};

use crate::highs::Highs;

/// What the high half of a moment counts.
const HALF: i128 = 1 << 64;

/// A slot in the heap, beside what it is ordered by: its moment, and of equal ones its age, which
/// grows with the number of those set before it. Of the moment the low half stands here, so that an
/// entry takes 16 bytes and four of them fill 64, and the high half in a table by slot.
#[derive(Clone, Copy)]
pub(crate) struct Entry {
    pub(crate) low: u64,
    pub(crate) age: u32,
    pub(crate) slot: u32,
}

/// The high and the low half of a moment.
#[tactic(auto, unfolding(crate::specs::Heaps::joined))]
fn halves(moment: i128) -> (i64, u64)
    ensures { joined result.0 result.1 ≡ moment }
{
    let high = moment.div_euclid(HALF) as i64;
    let low = moment.rem_euclid(HALF) as u64;
    (high, low)
}

/// The moment of these halves.
#[tactic(auto, unfolding(crate::specs::Heaps::joined))]
fn join(high: i64, low: u64) -> i128
    ensures { result ≡ joined high low }
{
    HALF * i128::from(high) + i128::from(low)
}

impl Entry {
    /// The entry of a slot that gets this moment at this age.
    pub(crate) fn new(highs: &mut Highs, moment: i128, age: u32, slot: u32) -> Entry
        requires { slot < length highs.old }
        ensures moment { moment_in highs.new result ≡ moment }
        ensures slot { result.slot ≡ slot }
        ensures highs { IsRewritten highs.old highs.new slot }
    {
        let (high, low) = halves(moment);
        highs.write(slot, high);
        Entry { low, age, slot }
    }

    /// Its moment.
    pub(crate) fn moment(&self, highs: &Highs) -> i128
        ensures { result ≡ moment_in highs.now self.now }
    {
        join(highs.of(self.slot), self.low)
    }
}
