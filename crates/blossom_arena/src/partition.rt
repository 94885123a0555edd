use crate::members::Members;
use crate::tables::{numbered, renumber};
use base_types::OutOfMemory;
use graph_theory::GRAPH_VERTEX_LIMIT;
use std::alloc::Global;
use std::marker::Model;

/// The vertices by their outermost nodes, and at each vertex the duals of all other nodes that hold
/// it, added up modulo 2^64. A vertex names a set, and the set its outermost node and what the sums
/// of its vertices have in common, so that a node takes over a whole set in constant time. A set is
/// named by one of its vertices. Contracts see the table by vertex and by set.
#[derive(Drop)]
pub(crate) struct Partition {
    // By vertex: its set, and its sum without that of the set. Sums wrap around at 64 bits, and a
    // part may leave their range: a whole sum is exact if it fits.
    sets: Vec<u32>,
    bases: Vec<i64>,
    // By set: its outermost node, and its sum.
    tops: Vec<u32>,
    offsets: Vec<i64>,
}

impl Model for Partition {
    ghost use Rattle.blossom_arena.specs.Placement.{IsPartition, SetTables, tables_of};

    ghost Value = { SetTables };

    ghost view = { tables_of };

    ghost invariant = { IsPartition };
}

impl Partition {
    ghost use Rattle.std.specs.Prelude.{ℕ, ◌≡◌, ◌<◌, ◌≤◌, ◌+◌, ◌^◌, IfOk, length};
    ghost use Rattle.std.specs.List.{AllByRecursion};
    ghost use Rattle.graph_theory.specs.declared.limits.TheConstants.{GRAPH_VERTEX_LIMIT};
    ghost use Rattle.blossom_arena.specs.Placement.{AreAlone, added_at, all_added, given, placed};
    ghost use Rattle.blossom_arena.specs.Placement.{placement_of, put_in, topped};

    /// Each of the vertices 1 to n for itself, with sums of 0. Place 0 is unused.
    pub(crate) fn new(alloc: Global, n: u32) -> Result<Partition, OutOfMemory>
        requires { n ≤ GRAPH_VERTEX_LIMIT }
        ensures { IfOk result (λ p. AreAlone (placement_of p) (n + 1)) }
    {
        let places = n as usize + 1;
        Ok(Partition {
            sets: numbered(alloc, n)?,
            bases: vec![in alloc; 0i64; places]?,
            tops: numbered(alloc, n)?,
            offsets: vec![in alloc; 0i64; places]?,
        })
    }

    /// Makes each vertex a set for itself again, with a sum of 0.
    pub(crate) fn reset(&mut self)
        requires { length self.old.sets < 2 ^ 32 }
        ensures { AreAlone (placement_of self.new) (length self.old.sets) }
    {
        renumber(&mut self.sets);
        renumber(&mut self.tops);
        self.bases.fill(0);
        self.offsets.fill(0);
    }

    /// The outermost node of a vertex.
    pub(crate) fn outermost(&self, vertex: u32) -> u32
        requires { vertex < length self.now.sets }
        ensures { result ≡ (placement_of self.now).top ((placement_of self.now).set vertex) }
    {
        self.tops[self.sets[vertex as usize] as usize]
    }

    /// The sum at a vertex.
    pub(crate) fn inner(&self, vertex: u32) -> i64
        requires { vertex < length self.now.sets }
        ensures { result ≡ (placement_of self.now).inner vertex }
    {
        self.bases[vertex as usize].wrapping_add(self.offsets[self.sets[vertex as usize] as usize])
    }

    /// Gives all vertices of a set an outermost node, and so much more to their sums.
    pub(crate) fn give(&mut self, set: u32, node: u32, y: i64)
        requires { set < length self.old.sets }
        ensures len { length self.new.sets ≡ length self.old.sets }
        ensures placement { placement_of self.new ≡ given (placement_of self.old) set node y }
    {
        let offset = self.offsets[set as usize].wrapping_add(y);
        self.offsets[set as usize] = offset;
        self.tops[set as usize] = node;
    }

    /// Gives a set an outermost node.
    fn cap(&mut self, set: u32, node: u32)
        requires { set < length self.old.sets }
        ensures len { length self.new.sets ≡ length self.old.sets }
        ensures placement { placement_of self.new ≡ topped (placement_of self.old) set node }
    {
        self.tops[set as usize] = node;
    }

    /// Puts a vertex into a set, with so much more in its sum.
    fn put(&mut self, vertex: u32, set: u32, y: i64)
        requires vertex { vertex < length self.old.sets }
        requires set { set < length self.old.sets }
        ensures len { length self.new.sets ≡ length self.old.sets }
        ensures placement { placement_of self.new ≡ put_in (placement_of self.old) vertex set y }
    {
        let sum = self.inner(vertex).wrapping_add(y);
        let base = sum.wrapping_sub(self.offsets[set as usize]);
        self.bases[vertex as usize] = base;
        self.sets[vertex as usize] = set;
    }

    /// Puts vertices into a set with this outermost node, with so much more in the sum of each.
    pub(crate) fn place(&mut self, vertices: Members<'_>, set: u32, node: u32, y: i64)
        requires vertices { AllByRecursion (λ v. v < length self.old.sets) vertices }
        requires set { set < length self.old.sets }
        ensures len { length self.new.sets ≡ length self.old.sets }
        ensures placement { placement_of self.new
            ≡ placed (placement_of self.old) vertices.entry set node y }
    {
        self.cap(set, node);
        for v in vertices {
            self.put(v.number(), set, y);
        }
    }

    /// Adds to the sum at a vertex.
    fn add(&mut self, vertex: u32, y: i64)
        requires { vertex < length self.old.sets }
        ensures len { length self.new.sets ≡ length self.old.sets }
        ensures placement { placement_of self.new ≡ added_at (placement_of self.old) vertex y }
    {
        let base = self.bases[vertex as usize].wrapping_add(y);
        self.bases[vertex as usize] = base;
    }

    /// Adds to the sum at each of these vertices.
    pub(crate) fn add_each(&mut self, vertices: Members<'_>, y: i64)
        requires { AllByRecursion (λ v. v < length self.old.sets) vertices }
        ensures len { length self.new.sets ≡ length self.old.sets }
        ensures placement { placement_of self.new
            ≡ all_added (placement_of self.old) vertices.entry y }
    {
        for v in vertices {
            self.add(v.number(), y);
        }
    }
}
