//! Sets that refer to earlier ones, as trees.
ghost use Rattle.std.specs.Prelude.{◌≡◌, ◌≤◌, ◌<◌, length, All, IfOk};
ghost use Rattle.graph_theory.specs.Duals.{IsNumber};
ghost use Rattle.graph_theory.specs.OddSets.{AreEarlier};
ghost use Rattle.dual_check.specs.Crossed.{IsWithin};
ghost use Rattle.dual_check.specs.Forests.{AreItemLists, MayBeInnermost, shared_dual, begin_of};
ghost use Rattle.dual_check.specs.Forests.{end_of, vertex_at};
ghost use Rattle.dual_check.specs.Links.{IsGrown, MayBeWay};
ghost use Rattle.dual_check.specs.Trees.{number_at};

use crate::climbing::{enclosing_of, jumps_of};
use crate::named::places_of;
use crate::parents::parents_of;
use crate::stretches::{begins_of, ends_of, sizes_of, total_of};
use graph_theory::OddSet;
use mb_base::{OutOfMemory, VertexId};
use std::alloc::Global;

/// A vertex of a tree, and the place of the set that names it.
#[derive(Clone, Copy)]
pub(crate) struct Place {
    pub vertex: VertexId,
    pub set: usize,
}

/// The trees of sets: the vertices that they name in one list, tree by tree, in which each set is a
/// stretch, from where it begins to where it ends.
#[derive(Drop)]
pub(crate) struct Forest {
    begins: Vec<usize>,
    ends: Vec<usize>,
    pub places: Vec<Place>,
    /// For each set the place of the one that refers to it, or the number of sets where none does.
    parents: Vec<usize>,
    /// For each set one that lies around it, or itself where none does, some way up.
    jumps: Vec<usize>,
    /// For each set its dual and those of all sets around it, added up.
    enclosing: Vec<i128>,
}

impl Forest {
    /// The trees of the first `count` sets. It takes time linear in their items.
    pub(crate) fn of(alloc: Global, sets: &[OddSet], count: usize) -> Result<Forest, OutOfMemory>
        requires count { count ≤ length sets.now }
        requires earlier { AreEarlier sets.now }
        requires lists { AreItemLists sets.now count }
        requires numbers { All (λ s. IsNumber s.dual) sets.now }
        ensures { IfOk result (IsGrown sets.now count) }
    {
        let parents = parents_of(alloc, sets, count)?;
        let parent_list = parents.as_slice();
        let sizes = sizes_of(alloc, sets, count)?;
        let size_list = sizes.as_slice();
        let total = total_of(parent_list, size_list, count)?;
        let begins = begins_of(alloc, sets, count, parent_list, size_list)?;
        let begin_list = begins.as_slice();
        let ends = ends_of(alloc, sets, count, parent_list, size_list, begin_list)?;
        let places = places_of(
            alloc,
            sets,
            count,
            parent_list,
            size_list,
            begin_list,
            total,
        )?;
        let jumps = jumps_of(alloc, sets, count, parent_list)?;
        let enclosing = enclosing_of(alloc, sets, count, parent_list)?;
        Ok(Forest {
            begins,
            ends,
            places,
            parents,
            jumps,
            enclosing,
        })
    }

    /// Where the stretch of a set begins.
    pub(crate) fn begin(&self, set: usize) -> usize
        requires { set < length self.now.begins.items }
        ensures { result ≡ begin_of self.now set }
    {
        self.begins[set]
    }

    /// Where it ends.
    pub(crate) fn end(&self, set: usize) -> usize
        requires { set < length self.now.ends.items }
        ensures { result ≡ end_of self.now set }
    {
        self.ends[set]
    }

    /// The place of the set that refers to one, or the number of sets where none does.
    pub(crate) fn parent(&self, set: usize) -> usize
        requires { set < length self.now.parents.items }
        ensures { result ≡ number_at self.now.parents.items set }
    {
        self.parents[set]
    }

    /// The vertex at a position.
    pub(crate) fn vertex(&self, position: usize) -> VertexId
        requires { position < length self.now.places.items }
        ensures { result ≡ vertex_at self.now position }
    {
        self.places[position].vertex
    }

    /// The next set up from one that is worth a look, as those between begin after position `p`: a
    /// jump up where that doesn't lead past such sets, or else a step. The sets stand for the
    /// contract alone.
    fn way_up(&self, sets: &[OddSet], count: usize, p: usize, set: usize) -> Option<usize>
        requires grown { IsGrown sets.now count self.now }
        requires set { set < count }
        ensures { MayBeWay count self.now p set result }
    {
        let far = self.jumps[set];
        if far > set && self.begin(far) > p {
            return Some(far);
        }
        let parent = self.parent(set);
        if parent >= count {
            return None;
        }
        Some(parent)
    }

    /// The innermost of the `count` sets that spans two positions. The sets stand for the contract
    /// alone.
    pub(crate) fn innermost(
        &self,
        sets: &[OddSet],
        count: usize,
        p: usize,
        q: usize,
    ) -> Option<usize>
        requires grown { IsGrown sets.now count self.now }
        requires order { p ≤ q }
        requires in_range { q < length self.now.places.items }
        ensures { MayBeInnermost count self.now p q result }
    {
        let mut set = self.places[q].set;
        while self.begin(set) > p {
            let Some(next) = self.way_up(sets, count, p, set) else {
                return None;
            };
            set = next;
        }
        Some(set)
    }

    /// The duals of those of the `count` sets that span two positions, added up. The sets stand for
    /// the contract alone.
    pub(crate) fn shared(&self, sets: &[OddSet], count: usize, p: usize, q: usize) -> i128
        requires grown { IsGrown sets.now count self.now }
        requires order { p ≤ q }
        requires in_range { q < length self.now.places.items }
        requires numbers { All (λ s. IsNumber s.dual) sets.now }
        ensures exact { result ≡ shared_dual sets.now count self.now p q }
        ensures value_limit { IsWithin 1 result }
    {
        let Some(set) = self.innermost(sets, count, p, q) else {
            return 0;
        };
        self.enclosing[set]
    }
}
