ghost use Rattle.std.specs.Prelude.{◌≡◌, ◌≢◌, ◌+◌, ◌<◌, ◌^◌, ℕ, true, is_some, Option, Some, None};
ghost use Rattle.std.specs.Prelude.{IfOk};
ghost use Rattle.std.specs.Prelude.{IfSome, IfNone, replicate, slice_index_or};
ghost use Rattle.circular_lists.specs.Linked.{HasLinks, link_at};
ghost use Rattle.circular_lists.specs.Updates.{put};
ghost use Rattle.search_heap.specs.Rising.{IsFiled, IsHomed, moment_at, moments_of};

use crate::ends::first_ends;
use base_types::OutOfMemory;
use circular_lists::{CircularLists, put_behind, take_off};
use std::alloc::Global;

/// How many lists there are: two for the first bucket, one for each other, and one for slots that
/// wait.
const LISTS: usize = 67;

/// The moments of slots in buckets, and the end of each bucket. The first bucket is for its end
/// alone, and has a list for the slots that are set early and one for the others; each other bucket
/// is for what comes after the end of the one before it, up to its own end, and has one list. A
/// list begins past all slots. Each slot that has a moment is on the list of its bucket, those that
/// came later nearer to the beginning, and any other slot is alone.
#[derive(Drop)]
pub(crate) struct Buckets {
    pub(crate) slots: u32,
    pub(crate) moments: Vec<i64>,
    pub(crate) early: Vec<bool>,
    pub(crate) lists: CircularLists,
    pub(crate) ends: Vec<i64>,
}

impl Buckets {
    /// So many slots, none of which has a moment.
    pub(crate) fn new(alloc: Global, slots: u32) -> Result<Buckets, OutOfMemory>
        ensures filed { IfOk result IsFiled }
        ensures moments { IfOk result (λ b. moments_of b ≡ replicate slots None) }
    {
        let moments = vec![in alloc; 0i64; slots as usize]?;
        let early = vec![in alloc; false; slots as usize]?;
        let lists = CircularLists::new(alloc, slots as usize + LISTS)?;
        let ends = first_ends(alloc)?;
        Ok(Buckets {
            slots,
            moments,
            early,
            lists,
            ends,
        })
    }

    /// Whether a slot has a moment.
    pub(crate) fn is_listed(&self, slot: u32) -> bool
        requires links { HasLinks self.now.lists (self.now.slots + 67) }
        requires slot { slot < self.now.slots }
        ensures { result ≡ is_some (moment_at self.now slot) }
    {
        self.lists.next[slot as usize] != slot
    }

    /// The moment of a slot.
    pub(crate) fn moment(&self, slot: u32) -> Option<i64>
        requires filed { IsFiled self.now }
        requires slot { slot < self.now.slots }
        ensures { result ≡ slice_index_or (moments_of self.now) slot None }
    {
        if !self.is_listed(slot) {
            return None;
        }
        Some(self.moments[slot as usize])
    }

    /// The slot that came first of those on a list.
    pub(crate) fn oldest(&self, list: u32) -> Option<u32>
        requires links { HasLinks self.now.lists (self.now.slots + 67) }
        requires list { list < 67 }
        ensures some { (home : ℕ → Option ℕ) → IsHomed self.now home
            → IfSome result (λ s. (s < self.now.slots) × (home s ≡ Some list)) }
        ensures none { (home : ℕ → Option ℕ) → IsHomed self.now home
            → IfNone result ((s : ℕ) → home s ≢ Some list) }
    {
        let slot = self.lists.previous[(self.slots + list) as usize];
        if slot >= self.slots {
            return None;
        }
        Some(slot)
    }

    /// Takes a slot off its list.
    pub(crate) fn take(&mut self, slot: u32)
        requires links { HasLinks self.old.lists (self.old.slots + 67) }
        requires slot { slot < self.old.slots }
        ensures links { HasLinks self.new.lists (self.new.slots + 67) }
        ensures homed { (home : ℕ → Option ℕ) → IsHomed self.old home
            → is_some (home slot) ≡ true → IsHomed self.new (put home slot None) }
        ensures alone { link_at self.new.lists.next.items slot ≡ slot }
        ensures frame { self.new ≡ record self.old { lists = self.new.lists } }
    {
        take_off(&mut self.lists, slot);
    }

    /// Puts a slot that is alone on a list.
    pub(crate) fn file(&mut self, slot: u32, list: u32)
        requires links { HasLinks self.old.lists (self.old.slots + 67) }
        requires slot { slot < self.old.slots }
        requires list { list < 67 }
        requires alone { link_at self.old.lists.next.items slot ≡ slot }
        ensures links { HasLinks self.new.lists (self.new.slots + 67) }
        ensures homed { (home : ℕ → Option ℕ) → IsHomed self.old home → home slot ≡ None
            → IsHomed self.new (put home slot (Some list)) }
        ensures frame { self.new ≡ record self.old { lists = self.new.lists } }
    {
        put_behind(&mut self.lists, self.slots + list, slot);
    }

    /// Puts a slot that is on a list on another one.
    pub(crate) fn shift(&mut self, slot: u32, list: u32)
        requires links { HasLinks self.old.lists (self.old.slots + 67) }
        requires slot { slot < self.old.slots }
        requires list { list < 67 }
        ensures links { HasLinks self.new.lists (self.new.slots + 67) }
        ensures homed { (home : ℕ → Option ℕ) → IsHomed self.old home
            → is_some (home slot) ≡ true → IsHomed self.new (put home slot (Some list)) }
        ensures moments { (home : ℕ → Option ℕ) → IsHomed self.old home
            → is_some (home slot) ≡ true → moments_of self.new ≡ moments_of self.old }
        ensures frame { self.new ≡ record self.old { lists = self.new.lists } }
    {
        self.take(slot);
        self.file(slot, list);
    }
}
