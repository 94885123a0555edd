ghost use Rattle.std.specs.Prelude.{◌≡◌, ◌<◌, pos, IfOk, length, replicate, slice_index_or};
ghost use Rattle.std.specs.Prelude.{slice_set, false};
ghost use Rattle.search_heap.specs.Heaps.{IsZeroAt};

use crate::tables::fill_up;
use base_types::OutOfMemory;
use std::alloc::Global;
use std::marker::Model;

/// The high halves of moments by slot. The table of them is empty, in room for all slots, as long
/// as none but 0 was written. Contracts see the list of them.
#[derive(Drop)]
pub(crate) struct Highs {
    table: Vec<i64>,
    slots: u32,
}

impl Model for Highs {
    ghost use Rattle.std.specs.Prelude.{ℤ, List, length, pos};
    ghost use Rattle.std.specs.Vec.{vec_capacity};
    ghost use Rattle.search_heap.specs.Heaps.{filled, IsReserved};

    ghost Value = { List ℤ };

    ghost view = { λ h. filled h.slots (pos 0) h.table.items };

    ghost invariant = { λ h. IsReserved h.slots (length h.table.items) (vec_capacity h.table) };
}

impl Highs {
    /// Of so many slots each with 0.
    pub(crate) fn new(alloc: Global, size: u32) -> Result<Highs, OutOfMemory>
        ensures { IfOk result (λ h. h ≡ replicate size (pos 0)) }
    {
        let table = Vec::with_capacity(alloc, size as usize)?;
        Ok(Highs { table, slots: size })
    }

    /// How many slots there are.
    pub(crate) fn slots(&self) -> u32
        ensures { result ≡ length self.now }
    {
        self.slots
    }

    /// Whether a slot may have another high half than 0.
    pub(crate) fn is_wide(&self) -> bool
        ensures { result ≡ false → IsZeroAt self.now }
    {
        !self.table.is_empty()
    }

    /// The high half of a slot, 0 past the last slot.
    pub(crate) fn of(&self, slot: u32) -> i64
        ensures { result ≡ slice_index_or self.now slot (pos 0) }
    {
        match self.table.get(slot as usize) {
            Some(high) => *high,
            None => 0,
        }
    }

    /// Gives a slot this high half.
    pub(crate) fn write(&mut self, slot: u32, high: i64)
        requires { slot < length self.old }
        ensures { self.new ≡ slice_set self.old slot high }
    {
        if high == 0 && self.table.is_empty() {
            return;
        }
        fill_up(&mut self.table, self.slots, 0);
        self.table[slot as usize] = high;
    }

    /// Gives each slot 0, in constant time.
    pub(crate) fn wipe(&mut self)
        ensures { self.new ≡ replicate (length self.old) (pos 0) }
    {
        self.table.clear();
    }
}
