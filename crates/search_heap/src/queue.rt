ghost use Rattle.std.specs.Prelude.{◌≡◌, ℕ, IfOk, Some, None, length};
ghost use Rattle.search_heap.specs.Moments.{Moments, no_moments, moment_of, with_moment, IsItem};
ghost use Rattle.search_heap.specs.Moments.{IsLeast};

use crate::heap::IndexedHeap;
use crate::item::Item;
use crate::slots::{is_numbered, item_of, slot_of};
use crate::tie_rank::TieRank;
use base_types::OutOfMemory;
use std::alloc::{AllocError, Global};
use std::marker::Model;

/// The moments at which edges and blossoms have their next event: an indexed heap in which an entry
/// has up to four children (chapter 26 asks for the least of all slacks and duals at each step).
/// Contracts see the moment of each item that has one.
#[derive(Drop)]
pub struct EdgeQueue {
    edges: u32,
    nodes: u32,
    heap: IndexedHeap,
}

impl Model for EdgeQueue {
    ghost use Rattle.std.specs.Prelude.{◌≡◌, ◌+◌, ◌<◌, ◌^◌, length};
    ghost use Rattle.search_heap.specs.Moments.{Moments};
    ghost use Rattle.search_heap.specs.Slots.{by_item};

    ghost Value = { Moments };

    ghost view = { λ q. by_item q.edges q.heap };

    ghost invariant = { λ q. (length q.heap ≡ q.edges + q.nodes) × (q.edges + q.nodes < 2 ^ 32) };
}

impl EdgeQueue {
    /// A queue for the edges 1 to `edges` and the nodes 1 to `nodes`, none of which has a moment.
    /// No later call takes memory; the first that gives a moment writes the tables that are kept
    /// for all items.
    ///
    /// # Errors
    ///
    /// `OutOfMemory` if an allocation fails, and always for 2^32 items.
    pub fn new(alloc: Global, edges: u32, nodes: u32) -> Result<EdgeQueue, OutOfMemory>
        // Event times of edges and blossoms are a finite map; a new one is empty.
        ensures { IfOk result (λ q. q ≡ no_moments edges nodes) }
    {
        let Some(size) = edges.checked_add(nodes) else {
            return Err(AllocError);
        };
        let heap = IndexedHeap::new(alloc, size)?;
        Ok(EdgeQueue { edges, nodes, heap })
    }

    /// The moment of an item. Any number may be asked for, in constant time.
    pub fn moment(&self, item: Item) -> Option<i128>
        // The time of an item, if it has one.
        ensures { result ≡ moment_of self.now item }
    {
        if !is_numbered(self.edges, self.nodes, &item) {
            return None;
        }
        self.heap.moment(slot_of(self.edges, &item))
    }

    /// An item whose moment is least, and its moment, in constant time. Of equal moments any may be
    /// given: `set_early` says which one it tries to give.
    pub fn least(&self) -> Option<(Item, i128)>
        // An item of the least time, or none if the map is empty.
        ensures { IsLeast self.now result }
    {
        let (slot, moment) = self.heap.least()?;
        Some((item_of(self.edges, slot), moment))
    }

    /// Gives an item this moment, whether it had one or not, in time logarithmic in the number of
    /// moments, and in constant time if it has it already. A call that is the first to need a
    /// table writes it in time linear in the items: at most two up to the next `clear`.
    pub fn set(&mut self, item: Item, moment: i128)
        requires { IsItem self.old item }

        // Gives an item a time and changes no other.
        ensures { self.new ≡ with_moment self.old item (Some moment) }
    {
        let slot = slot_of(self.edges, &item);
        self.heap.set(slot, moment, TieRank::Late);
    }

    /// The same, but among equal moments `least` answers this item before those that `set` gave
    /// theirs, and of items of one call the one that was given its moment first.
    pub fn set_early(&mut self, item: Item, moment: i128)
        requires { IsItem self.old item }
        ensures { self.new ≡ with_moment self.old item (Some moment) }
    {
        let slot = slot_of(self.edges, &item);
        self.heap.set(slot, moment, TieRank::Early);
    }

    /// Takes the moment of an item away, in time logarithmic in the number of moments. Where it had
    /// none, nothing happens.
    pub fn remove(&mut self, item: Item)
        requires { IsItem self.old item }

        // Takes an item's time away and changes no other.
        ensures { self.new ≡ with_moment self.old item None }
    {
        let slot = slot_of(self.edges, &item);
        self.heap.remove(slot);
    }

    /// Takes all moments away, in time linear in the items, and in constant time where none has
    /// one.
    pub fn clear(&mut self)
        // Takes all times away.
        ensures { self.new ≡ no_moments (length self.old.edges) (length self.old.blossoms) }
    {
        self.heap.clear();
    }
}
