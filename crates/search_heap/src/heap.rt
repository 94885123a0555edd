ghost use Rattle.std.specs.Prelude.{◌≡◌, ◌<◌, IfOk, Some, None, length, replicate};
ghost use Rattle.std.specs.Prelude.{slice_index_or, slice_set, true};
ghost use Rattle.search_heap.specs.Slots.{IsLeastSlot};

use crate::entry::Entry;
use crate::highs::Highs;
use crate::sift::{renew, rise, settle};
use crate::tables::{lay_out, place_of, wipe_place, wipe_places};
use crate::tie_rank::TieRank;
use base_types::OutOfMemory;
use std::alloc::Global;
use std::marker::Model;

/// The least age of an entry that wasn't set early.
const LATE: u32 = 1 << 31;

/// The age of an entry that so many were set before: each early one is less than all others. Past
/// 2^31 the count begins anew, and only the order of equal moments is another one.
fn age_of(before: u32, turn: TieRank) -> u32 {
    match turn {
        TieRank::Early => before & !LATE,
        TieRank::Late => before | LATE,
    }
}

/// The age of the next entry that is set.
fn take_age(next_age: &mut u32, turn: TieRank) -> u32 {
    let age = age_of(*next_age, turn);
    *next_age = next_age.wrapping_add(1);
    age
}

/// Whether an entry keeps its age where the first moment becomes the second: they are the same, and
/// it comes among those of the same moment when it is to.
fn keeps(was: i128, age: u32, moment: i128, turn: TieRank) -> bool
    ensures { result ≡ true → was ≡ moment }
{
    match turn {
        TieRank::Early => was == moment && age < LATE,
        TieRank::Late => was == moment,
    }
}

/// An indexed heap of slots by their moments, in which an entry has up to four children; of equal
/// moments those set early stand before all others, and then the one that was set first. Each entry
/// has the low half of its moment and its age with it, since the slots of entries that are compared
/// lie far apart; the high halves stand by slot, and aren't read as long as all of them are 0.
/// Contracts see the list of the moments by slot.
#[derive(Drop)]
pub(crate) struct IndexedHeap {
    // The first so many entries are those of the slots that have a moment, in heap order; behind
    // them is room for the others. By slot there is the place of its entry, or a number past all
    // places. Both are empty, in room for all slots, until the first slot gets a moment.
    heap: Vec<Entry>,
    places: Vec<u32>,
    highs: Highs,
    count: usize,
    next_age: u32,
}

impl Model for IndexedHeap {
    ghost use Rattle.std.specs.Prelude.{ℤ, List, Option};
    ghost use Rattle.search_heap.specs.Fields.{entries_of, IsSound};

    ghost Value = { List (Option ℤ) };

    ghost view = { entries_of };

    ghost invariant = { IsSound };
}

impl IndexedHeap {
    /// So many slots, none of which has a moment.
    pub(crate) fn new(alloc: Global, size: u32) -> Result<IndexedHeap, OutOfMemory>
        ensures { IfOk result (λ h. h ≡ replicate size None) }
    {
        let heap = Vec::with_capacity(alloc, size as usize)?;
        let places = Vec::with_capacity(alloc, size as usize)?;
        let highs = Highs::new(alloc, size)?;
        Ok(IndexedHeap {
            heap,
            places,
            highs,
            count: 0,
            next_age: 0,
        })
    }

    /// The moment of a slot.
    pub(crate) fn moment(&self, slot: u32) -> Option<i128>
        requires { slot < length self.now }
        ensures { result ≡ slice_index_or self.now slot None }
    {
        let place = place_of(&self.places, self.count, slot)?;
        Some(self.heap[place].moment(&self.highs))
    }

    /// A slot whose moment is least, and its moment.
    pub(crate) fn least(&self) -> Option<(u32, i128)>
        ensures { IsLeastSlot self.now result }
    {
        if self.count == 0 {
            return None;
        }
        let entry = self.heap[0];
        Some((entry.slot, entry.moment(&self.highs)))
    }

    /// Gives a slot this moment. If it has it already it keeps its age, unless it is to come early
    /// and doesn't.
    pub(crate) fn set(&mut self, slot: u32, moment: i128, turn: TieRank)
        requires { slot < length self.old }
        ensures { self.new ≡ slice_set self.old slot (Some moment) }
    {
        let Some(place) = place_of(&self.places, self.count, slot) else {
            lay_out(&mut self.heap, &mut self.places, self.highs.slots());
            let age = take_age(&mut self.next_age, turn);
            let entry = Entry::new(&mut self.highs, moment, age, slot);
            let last = self.count;
            self.count += 1;
            rise(
                &self.highs,
                &mut self.heap,
                &mut self.places,
                self.count,
                last,
                entry,
            );
            return;
        };
        let old = self.heap[place];
        let was = old.moment(&self.highs);
        if keeps(was, old.age, moment, turn) {
            return;
        }
        let age = take_age(&mut self.next_age, turn);
        let entry = Entry::new(&mut self.highs, moment, age, slot);
        let (heap, places) = (&mut self.heap, &mut self.places);
        renew(
            &self.highs,
            heap,
            places,
            self.count,
            place,
            entry,
            was,
            moment,
        );
    }

    /// Takes the moment of a slot away.
    pub(crate) fn remove(&mut self, slot: u32)
        requires { slot < length self.old }
        ensures { self.new ≡ slice_set self.old slot None }
    {
        let Some(place) = place_of(&self.places, self.count, slot) else {
            return;
        };
        wipe_place(&mut self.places, slot);
        self.count -= 1;
        if place == self.count {
            return;
        }
        let last = self.heap[self.count];
        settle(
            &self.highs,
            &mut self.heap,
            &mut self.places,
            self.count,
            place,
            last,
        );
    }

    /// Takes all moments away, in time linear in the slots if there are any.
    pub(crate) fn clear(&mut self)
        ensures { self.new ≡ replicate (length self.old) None }
    {
        if self.count == 0 {
            return;
        }
        wipe_places(&mut self.places);
        self.highs.wipe();
        self.count = 0;
    }
}
