ghost use Rattle.std.specs.Prelude.{◌≡◌, ◌+◌, ◌<◌, ◌≤ℤ◌, true, Some, None, replicate, slice_set};
ghost use Rattle.std.specs.Prelude.{vec_len};
ghost use Rattle.circular_lists.specs.Linked.{HasLinks};
ghost use Rattle.search_heap.specs.Rising.{IsFiled, IsLowering, end_at, moment_at, moments_of};

use crate::buckets::Buckets;
use crate::ends::{set_end, spread};
use crate::filing::list_of;

impl Buckets {
    /// Whether a slot has this moment already, and comes early where it is to.
    fn has(&self, slot: u32, moment: i64, early: bool) -> bool
        requires links { HasLinks self.now.lists (self.now.slots + 67) }
        requires moments { vec_len self.now.moments ≡ self.now.slots }
        requires early { vec_len self.now.early ≡ self.now.slots }
        requires slot { slot < self.now.slots }
        ensures { result ≡ true → moment_at self.now slot ≡ Some moment }
    {
        if !self.is_listed(slot) {
            return false;
        }
        if self.moments[slot as usize] != moment {
            return false;
        }
        !early || self.early[slot as usize]
    }

    /// Takes the moment of a slot away.
    pub(crate) fn remove(&mut self, slot: u32)
        requires filed { IsFiled self.old }
        requires slot { slot < self.old.slots }
        ensures filed { IsFiled self.new }
        ensures moments { moments_of self.new ≡ slice_set (moments_of self.old) slot None }
        ensures slots { self.new.slots ≡ self.old.slots }
    {
        if !self.is_listed(slot) {
            return;
        }
        self.take(slot);
    }

    /// Puts a slot that has this moment, at which the first bucket ends, into the second one.
    fn put_back(&mut self, slot: u32, last: i64)
        requires lowering { IsLowering self.old last slot }
        requires slot { slot < self.old.slots }
        ensures lowering { IsLowering self.new last (slot + 1) }
        ensures moments { moments_of self.new ≡ moments_of self.old }
        ensures frame { self.new ≡ record self.old { lists = self.new.lists } }
    {
        if !self.is_listed(slot) {
            return;
        }
        if self.moments[slot as usize] != last {
            return;
        }
        self.shift(slot, 2);
    }

    /// Lets the first bucket end at a moment if that comes before its end, in time linear in the
    /// slots then: those in the first bucket come into the second one.
    fn lower(&mut self, moment: i64)
        requires { IsFiled self.old }
        ensures filed { IsFiled self.new }
        ensures moments { moments_of self.new ≡ moments_of self.old }
        ensures low { end_at self.new.ends.items 0 ≤ℤ moment }
        ensures slots { self.new.slots ≡ self.old.slots }
    {
        let last = self.ends[0];
        if last <= moment {
            return;
        }
        for slot in 0..self.slots {
            self.put_back(slot, last);
        }
        set_end(&mut self.ends, 0, moment);
    }

    /// Keeps this moment for a slot, and whether it comes early.
    fn note(&mut self, slot: u32, moment: i64, early: bool)
        requires moments { slot < vec_len self.old.moments }
        requires early { slot < vec_len self.old.early }
        ensures items { self.new.moments.items ≡ slice_set self.old.moments.items slot moment }
        ensures moments { vec_len self.new.moments ≡ vec_len self.old.moments }
        ensures early { vec_len self.new.early ≡ vec_len self.old.early }
        ensures frame { self.new
            ≡ record self.old { moments = self.new.moments; early = self.new.early } }
    {
        self.moments[slot as usize] = moment;
        self.early[slot as usize] = early;
    }

    /// Gives a slot that has no moment this one, which doesn't come before the end of the first
    /// bucket.
    fn give(&mut self, slot: u32, moment: i64, early: bool)
        requires filed { IsFiled self.old }
        requires slot { slot < self.old.slots }
        requires none { moment_at self.old slot ≡ None }
        requires low { end_at self.old.ends.items 0 ≤ℤ moment }
        ensures filed { IsFiled self.new }
        ensures moments { moments_of self.new ≡ slice_set (moments_of self.old) slot (Some moment) }
        ensures slots { self.new.slots ≡ self.old.slots }
    {
        let list = list_of(&self.ends, moment, early);
        self.note(slot, moment, early);
        self.file(slot, list);
    }

    /// Gives a slot this moment. Where it has it already it keeps its place, unless it is to come
    /// early and doesn't.
    pub(crate) fn set(&mut self, slot: u32, moment: i64, early: bool)
        requires filed { IsFiled self.old }
        requires slot { slot < self.old.slots }
        ensures filed { IsFiled self.new }
        ensures moments { moments_of self.new ≡ slice_set (moments_of self.old) slot (Some moment) }
        ensures slots { self.new.slots ≡ self.old.slots }
    {
        if self.has(slot, moment, early) {
            return;
        }
        self.remove(slot);
        self.lower(moment);
        self.give(slot, moment, early);
    }

    /// Takes all moments away, and lets the first bucket end at 0, in time linear in the slots.
    pub(crate) fn clear(&mut self)
        requires { IsFiled self.old }
        ensures filed { IsFiled self.new }
        ensures moments { moments_of self.new ≡ replicate self.old.slots None }
        ensures slots { self.new.slots ≡ self.old.slots }
    {
        for slot in 0..self.slots {
            self.remove(slot);
        }
        spread(&mut self.ends, 0, 64);
    }
}
