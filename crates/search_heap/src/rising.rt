ghost use Rattle.std.specs.Prelude.{◌≡◌, IfOk, Some, None, length};
ghost use Rattle.search_heap.specs.declared.item.Item.TheVariants.{Blossom as OfNode};
ghost use Rattle.search_heap.specs.Moments.{IsItem, IsLeast, Moments, moment_of, no_moments};
ghost use Rattle.search_heap.specs.Moments.{with_moment};

use crate::buckets::Buckets;
use crate::item::Item;
use crate::slots::{is_numbered, item_of, slot_of};
use base_types::{NodeId, OutOfMemory};
use std::alloc::Global;
use std::marker::Model;

/// The moments at which nodes have their next event, the least first, for a search in which moments
/// only rise: none is set below the one that was given last. Then each call but `clear` takes
/// constant time, besides at most 64 moves for each moment that is set; where one is set below,
/// every answer is right all the same, but that call takes time linear in the nodes. It is a radix
/// heap (Ahuja, Mehlhorn, Orlin and Tarjan, Faster algorithms for the shortest path problem).
/// Contracts see it as they see an `EdgeQueue` without edges.
#[derive(Drop)]
pub struct RisingQueue {
    buckets: Buckets,
}

impl Model for RisingQueue {
    ghost use Rattle.search_heap.specs.Moments.{Moments};
    ghost use Rattle.search_heap.specs.Rising.{IsFiled, moments_of};
    ghost use Rattle.search_heap.specs.Slots.{by_item};

    ghost Value = { Moments };

    ghost view = { λ q. by_item 0 (moments_of q.buckets) };

    ghost invariant = { λ q. IsFiled q.buckets };
}

impl RisingQueue {
    /// A queue for the nodes 1 to `nodes`, none of which has a moment. No later call takes memory.
    pub fn new(alloc: Global, nodes: u32) -> Result<RisingQueue, OutOfMemory>
        ensures { IfOk result (λ q. q ≡ no_moments 0 nodes) }
    {
        let buckets = Buckets::new(alloc, nodes)?;
        Ok(RisingQueue { buckets })
    }

    /// The moment of a node. Any number may be asked for, in constant time.
    pub fn moment(&self, node: NodeId) -> Option<i64>
        ensures { result ≡ moment_of self.now (OfNode node) }
    {
        let item = Item::Blossom(node);
        if !is_numbered(0, self.buckets.slots, &item) {
            return None;
        }
        self.buckets.moment(slot_of(0, &item))
    }

    /// A node whose moment is least, and its moment. Of equal moments any may be given; as long as
    /// moments only rise it is one that was set early if there is any, and of those the one that
    /// was given its moment first.
    pub fn least(&mut self) -> Option<(Item, i64)>
        ensures least { IsLeast self.old result }
        ensures same { self.new ≡ self.old }
    {
        let (slot, moment) = self.buckets.least()?;
        Some((item_of(0, slot), moment))
    }

    /// Gives a node this moment, whether it had one or not.
    pub fn set(&mut self, node: NodeId, moment: i64)
        requires { IsItem self.old (OfNode node) }
        ensures { self.new ≡ with_moment self.old (OfNode node) (Some moment) }
    {
        let slot = slot_of(0, &Item::Blossom(node));
        self.buckets.set(slot, moment, false);
    }

    /// Gives a node this moment, as `set` does, and lets it come before those of the same moment
    /// that weren't set by this call.
    pub fn set_early(&mut self, node: NodeId, moment: i64)
        requires { IsItem self.old (OfNode node) }
        ensures { self.new ≡ with_moment self.old (OfNode node) (Some moment) }
    {
        let slot = slot_of(0, &Item::Blossom(node));
        self.buckets.set(slot, moment, true);
    }

    /// Takes the moment of a node away. Where it had none, nothing happens.
    pub fn remove(&mut self, node: NodeId)
        requires { IsItem self.old (OfNode node) }
        ensures { self.new ≡ with_moment self.old (OfNode node) None }
    {
        let slot = slot_of(0, &Item::Blossom(node));
        self.buckets.remove(slot);
    }

    /// Takes all moments away, in time linear in the nodes.
    pub fn clear(&mut self)
        ensures { self.new ≡ no_moments (length self.old.edges) (length self.old.blossoms) }
    {
        self.buckets.clear();
    }
}
