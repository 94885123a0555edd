ghost use Rattle.std.specs.Prelude.{◌≡◌, ◌≢◌, ◌⊎◌, ◌+◌, ◌-◌, ◌<◌, ◌≤◌, ℕ, ℤ, ◌≤ℤ◌, true, Option};
ghost use Rattle.std.specs.Prelude.{Some, None};
ghost use Rattle.std.specs.Prelude.{IfSome, IfNone, replicate, slice_index_or, slice_set};
ghost use Rattle.circular_lists.specs.Linked.{HasLinks, link_at};
ghost use Rattle.search_heap.specs.Rising.{AreEnds, IsFiled, IsFound, IsGathered, IsHomed};
ghost use Rattle.search_heap.specs.Rising.{IsInBucket};
ghost use Rattle.search_heap.specs.Rising.{IsLowest, IsRefiling, end_at, moment_at, moments_of};
ghost use Rattle.search_heap.specs.Slots.{IsLeastSlot};

use crate::buckets::Buckets;
use crate::ends::{bucket_of, spread};

/// The lists of the first bucket.
const EARLY: u32 = 0;

const LATE: u32 = 1;

/// The list of slots that wait for their bucket, behind those of all buckets.
const WAITING: u32 = 66;

/// The list on which a slot with this moment belongs.
pub(crate) fn list_of(ends: &[i64], moment: i64, early: bool) -> u32
    requires ends { AreEnds ends.now }
    requires low { end_at ends.now 0 ≤ℤ moment }
    ensures { IsInBucket ends.now (result - 1) moment }
{
    let bucket = bucket_of(ends, moment);
    if bucket != 0 {
        return bucket + 1;
    }
    if early {
        return EARLY;
    }
    LATE
}

/// The lesser of two moments.
fn lesser(one: i64, other: i64) -> i64
    ensures one { result ≤ℤ one }
    ensures other { result ≤ℤ other }
    ensures either { (result ≡ one) ⊎ (result ≡ other) }
{
    if other < one {
        return other;
    }
    one
}

impl Buckets {
    /// The slot that comes first of those in the first bucket.
    fn front(&self) -> Option<u32>
        requires { IsFiled self.now }
        ensures some { IfSome result (IsFound self.now) }
        ensures none { IfNone result ((s : ℕ) → IsFound self.now s → ⊥) }
    {
        if let Some(slot) = self.oldest(EARLY) {
            return Some(slot);
        }
        self.oldest(LATE)
    }

    /// The first list past those of the first bucket on which there is a slot, and the one there
    /// that came first.
    fn lowest(&self) -> Option<(u32, u32)>
        requires { HasLinks self.now.lists (self.now.slots + 67) }
        ensures some { (home : ℕ → Option ℕ) → IsHomed self.now home
            → IfSome result (IsLowest self.now.slots home) }
        ensures none { (home : ℕ → Option ℕ) → IsHomed self.now home
            → IfNone result ((s l : ℕ) → 2 ≤ l → l < 66 → home s ≢ Some l) }
    {
        for list in LATE + 1..WAITING {
            if let Some(slot) = self.oldest(list) {
                return Some((list, slot));
            }
        }
        None
    }

    /// Lets all slots of a list wait, one of which is given, and answers the least of their
    /// moments. There is no slot on the lists before it.
    fn gather(&mut self, list: u32, slot: u32) -> i64
        requires filed { IsFiled self.old }
        requires lowest { (home : ℕ → Option ℕ) → IsHomed self.old home
            → IsLowest self.old.slots home (list, slot) }
        requires first { (s : ℕ) → IsFound self.old s → ⊥ }
        ensures gathered { IsGathered self.new list result }
        ensures moments { moments_of self.new ≡ moments_of self.old }
        ensures frame { self.new ≡ record self.old { lists = self.new.lists } }
    {
        let mut least = self.moments[slot as usize];
        for _ in 0..self.slots {
            let Some(next) = self.oldest(list) else {
                return least;
            };
            least = lesser(least, self.moments[next as usize]);
            self.shift(next, WAITING);
        }
        least
    }

    /// Puts all slots that wait on the lists of their buckets.
    fn refile(&mut self)
        requires { IsRefiling self.old 0 }
        ensures filed { IsFiled self.new }
        ensures moments { moments_of self.new ≡ moments_of self.old }
        ensures frame { self.new ≡ record self.old { lists = self.new.lists } }
    {
        for _ in 0..self.slots {
            let Some(slot) = self.oldest(WAITING) else {
                return;
            };
            let place = slot as usize;
            let list = list_of(&self.ends, self.moments[place], self.early[place]);
            self.shift(slot, list);
        }
    }

    /// Lets the first bucket end at the least of all moments, if there is any.
    fn advance(&mut self)
        requires { IsFiled self.old }
        ensures filed { IsFiled self.new }
        ensures moments { moments_of self.new ≡ moments_of self.old }
        ensures found { (s : ℕ) (m : ℤ) → slice_index_or (moments_of self.new) s None ≡ Some m
            → (r : ℕ) × IsFound self.new r }
    {
        if self.front().is_some() {
            return;
        }
        let Some((list, slot)) = self.lowest() else {
            return;
        };
        let least = self.gather(list, slot);
        spread(&mut self.ends, least, list - 1);
        self.refile();
    }

    /// A slot whose moment is least, and its moment. Of equal moments an early one comes first, and
    /// then the one that was set first, as long as no moment is set below the one given last.
    pub(crate) fn least(&mut self) -> Option<(u32, i64)>
        requires { IsFiled self.old }
        ensures filed { IsFiled self.new }
        ensures moments { moments_of self.new ≡ moments_of self.old }
        ensures least { IsLeastSlot (moments_of self.old) result }
    {
        self.advance();
        let slot = self.front()?;
        Some((slot, self.ends[0]))
    }
}
