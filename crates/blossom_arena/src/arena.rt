ghost use Rattle.std.specs.Prelude.{◌≡◌, ℕ, ◌+◌, ◌<◌, ◌≤◌, pos, ◌≤ℤ◌, ◌+ℤ◌, true, false, IfOk};
ghost use Rattle.graph_theory.specs.declared.limits.TheConstants.{GRAPH_VERTEX_LIMIT};
ghost use Rattle.graph_theory.specs.Parts.{holds};
ghost use Rattle.graph_theory.specs.Nested.{most_blossoms};
ghost use Rattle.graph_theory.specs.Duals.{IsNumber};
ghost use Rattle.blossom_arena.specs.Family.{Family, IsFamily, IsCircuit, empty_family, is_vertex};
ghost use Rattle.blossom_arena.specs.Family.{is_node, is_outermost, shrunk, dissolved};
ghost use Rattle.blossom_arena.specs.Family.{raised, moving, dual_at, outermost, child_holding};
ghost use Rattle.blossom_arena.specs.Family.{ring_of, members_of, chain_of, names_of};
ghost use Rattle.blossom_arena.specs.Changes.{gain, label_at, share};
ghost use Rattle.blossom_arena.specs.declared.label.Label.TheVariants.{Out};
ghost use Rattle.blossom_arena.specs.Slack.{IsDualSum, IsNearSum, held_by};

use crate::blossoms::Blossoms;
use crate::chain::{Chain, child_below};
use crate::dual_table::{Duals, narrowed, total};
use crate::label::Label;
use crate::links::{Link, node_at};
use crate::members::Members;
use crate::order::{put_first, take_out};
use crate::partition::Partition;
use crate::ring::Ring;
use crate::runs::{Kept, absorb, find_kept, find_run, has_kept, join, release, room_for};
use crate::tables::{
    NO_NODE, bare, bare_table, note, order_tables, ring_tables, set_entry, thread, wipe,
};
use base_types::{EdgeId, NodeId, OutOfMemory, VertexId};
use graph_theory::GRAPH_VERTEX_LIMIT;
use slab::Slab;
use std::alloc::Global;
use std::marker::Model;

/// Blossoms over the vertices 1 to n, each of them a node, and a dual for each node, as the
/// weighted matching algorithm keeps them (chapter 26). Duals are in doubled units, so that they
/// stay whole, and within 10^18. Outermost nodes move: a change of duals raises the duals of all
/// that move as outer nodes and lowers those that move as inner ones, in constant time. Contracts
/// see the list of the blossoms, newest first, and the lists of the duals, as they are now, and of
/// the motions by node number.
#[derive(Drop)]
pub struct Arena {
    vertex_count: u32,
    // By node number, with place 0 unused: its dual and how it moves, the blossom in whose ring it
    // lies or 0, and in that ring the next node and the edge to it. A number that no node has got
    // has the parent `NO_NODE`, so that one look tells whether it is an outermost node.
    duals: Duals,
    parents: Vec<u32>,
    nexts: Vec<u32>,
    edges: Vec<EdgeId>,
    // By vertex: its outermost node and the duals of all other nodes that hold it, added up modulo
    // 2^64, and the vertex after it in the blossoms that hold both.
    partition: Partition,
    followers: Vec<u32>,
    // By node number: the next older and the next newer blossom. Place 0 stands between the two
    // ends.
    older: Vec<u32>,
    newer: Vec<u32>,
    // The blossoms, the one of node n + 1 + k under the key k.
    kept: Slab<Kept>,
}

impl Model for Arena {
    ghost use Rattle.blossom_arena.specs.Family.{Family};
    ghost use Rattle.blossom_arena.specs.Fields.{family_of, IsSound};

    ghost Value = { Family };

    ghost view = { family_of };

    ghost invariant = { IsSound };
}

impl Arena {
    /// No blossom, all duals 0, and room for all blossoms that n vertices can have: (n - 1) / 2. No
    /// later call takes memory.
    ///
    /// # Errors
    ///
    /// `OutOfMemory` if an allocation fails.
    pub fn new(alloc: Global, n: u32) -> Result<Arena, OutOfMemory>
        requires { n ≤ GRAPH_VERTEX_LIMIT }

        // A family of blossoms is odd and laminar with each dual within 10^18, and each call is one
        // equation on the whole family.
        ensures family { IfOk result (λ f. f ≡ empty_family n) }
        ensures is_family { IfOk result IsFamily }
    {
        let count = n as usize;
        let room = n.saturating_sub(1) as usize / 2;
        let places = count + room + 1;
        let followers = vec![in alloc; 0u32; count + 1]?;
        let parents = bare_table(alloc, n, places)?;
        let (nexts, edges) = ring_tables(alloc, places)?;
        let (older, newer) = order_tables(alloc, places)?;
        let kept = room_for(alloc, room)?;
        let duals = Duals::new(alloc, places)?;
        let partition = Partition::new(alloc, n)?;
        Ok(Arena {
            vertex_count: n,
            duals,
            parents,
            nexts,
            edges,
            partition,
            followers,
            older,
            newer,
            kept,
        })
    }

    /// How many vertices there are.
    pub fn vertex_count(&self) -> u32
        ensures count { result ≡ self.now.vertex_count }
        ensures is_family { IsFamily self.now }
    {
        self.vertex_count
    }

    /// The greatest number that a node can have.
    pub fn node_limit(&self) -> u32
        ensures limit { result ≡ self.now.vertex_count + most_blossoms self.now.vertex_count }
        ensures is_family { IsFamily self.now }
    {
        self.vertex_count + self.vertex_count.saturating_sub(1) / 2
    }

    /// Whether this is the node of a blossom. Any number may be asked for.
    pub fn is_blossom(&self, node: NodeId) -> bool
        ensures blossom { result ≡ holds (names_of self.now.blossoms) node }
        ensures is_family { IsFamily self.now }
    {
        let number = node.number();
        if number <= self.vertex_count {
            return false;
        }
        has_kept(&self.kept, self.vertex_count, number)
    }

    /// Whether this is a vertex or a blossom. Any number may be asked for.
    pub fn is_node(&self, node: NodeId) -> bool
        ensures node { result ≡ is_node self.now.vertex_count self.now.blossoms node }
        ensures is_family { IsFamily self.now }
    {
        let number = node.number();
        if number <= self.vertex_count {
            return number != 0;
        }
        self.is_blossom(node)
    }

    /// Whether this is a node and no other node holds it, by one look at a table. Any number may be
    /// asked for.
    pub fn is_outermost(&self, node: NodeId) -> bool
        ensures outermost { result ≡ is_outermost self.now.vertex_count self.now.blossoms node }
        ensures is_family { IsFamily self.now }
    {
        let number = node.number();
        if number as usize >= self.parents.len() {
            return false;
        }
        self.parents[number as usize] == 0
    }

    /// The outermost node that holds a vertex, in constant time.
    pub fn outermost(&self, v: VertexId) -> NodeId
        requires { is_vertex self.now.vertex_count v ≡ true }

        // The outermost node that holds a vertex.
        ensures node { result ≡ outermost self.now.blossoms v }
        ensures is_family { IsFamily self.now }
    {
        NodeId::new(self.partition.outermost(v.number()))
    }

    /// The dual of a node, in doubled units.
    pub fn dual(&self, node: NodeId) -> i64
        requires { is_node self.now.vertex_count self.now.blossoms node ≡ true }
        ensures dual { result ≡ dual_at self.now.duals node }
        ensures is_family { IsFamily self.now }
    {
        self.duals.get(node.number() as usize)
    }

    /// Adds up the duals of all nodes that hold a vertex, in constant time. The sum is known to lie
    /// within 2 * 10^18.
    pub fn near_sum(&self, vertex: VertexId) -> i64
        requires vertex { is_vertex self.now.vertex_count vertex ≡ true }
        requires near { IsNearSum (dual_at self.now.duals vertex
            +ℤ held_by (dual_at self.now.duals) self.now.blossoms vertex) }

        // The duals of all nodes that hold a vertex, added up in 64 bits.
        ensures near_sum { result ≡ dual_at self.now.duals vertex
            +ℤ held_by (dual_at self.now.duals) self.now.blossoms vertex }
        ensures is_family { IsFamily self.now }
    {
        let inner = self.partition.inner(vertex.number());
        inner.wrapping_add(self.dual(self.outermost(vertex)))
    }

    /// Adds up the duals of all nodes that hold a vertex, in time linear in these nodes.
    pub fn dual_sum(&self, v: VertexId) -> i128
        requires { is_vertex self.now.vertex_count v ≡ true }

        // The duals of all nodes that hold a vertex, added up.
        ensures dual_sum { result ≡ dual_at self.now.duals v
            +ℤ held_by (dual_at self.now.duals) self.now.blossoms v }
        ensures in_range { IsDualSum result }
        ensures is_family { IsFamily self.now }
    {
        total(&self.duals, self.chain(v))
    }

    /// Adds d, in doubled units, to the dual of a node. The sum lies within 10^18, and is
    /// nonnegative for a blossom.
    pub fn add_dual(&mut self, node: NodeId, d: i128)
        requires node { is_node self.old.vertex_count self.old.blossoms node ≡ true }
        requires in_range { IsNumber (dual_at self.old.duals node +ℤ d) }
        requires not_below { self.old.vertex_count < node
            → pos 0 ≤ℤ (dual_at self.old.duals node +ℤ d) }
        ensures family { self.new ≡ raised self.old node d }
        ensures is_family { IsFamily self.new }
    {
        let number = node.number();
        self.duals.raise(number as usize, d);
        if self.parents[number as usize] == 0 {
            return;
        }
        self.partition.add_each(
            Members::of(
                &self.followers,
                find_run(&self.kept, self.vertex_count, number),
            ),
            narrowed(d),
        );
    }

    /// Lets an outermost node move as this label says from now on: with changes of duals where it
    /// is outer, against them where inner, and not at all where out (chapter 26). No dual changes.
    pub fn move_as(&mut self, node: NodeId, label: Label)
        requires { is_outermost self.old.vertex_count self.old.blossoms node ≡ true }
        ensures family { self.new ≡ moving self.old node label }
        ensures is_family { IsFamily self.new }
    {
        self.duals.move_as(node.number() as usize, label);
    }

    /// Lets no node move any more, in time linear in the nodes. No dual changes.
    pub fn rest(&mut self)
        ensures motions { (a : ℕ) → label_at self.new.motions a ≡ Out }
        ensures frame { self.new ≡ record self.old { motions = self.new.motions } }
        ensures is_family { IsFamily self.new }
    {
        self.duals.rest();
    }

    /// Adds to the dual of each outermost node its share of a change of d, as it moves (chapter
    /// 26): d for an outer one, -d for an inner one, and nothing for one that is out. It takes
    /// constant time, but time linear in the nodes once the changes since all duals were 0 add up
    /// to more than 10^18. The sums lie within 10^18, and are nonnegative for blossoms.
    pub fn advance(&mut self, d: i64)
        requires low { pos 0 ≤ℤ d }
        requires in_range { (a : ℕ) → is_outermost self.old.vertex_count self.old.blossoms a ≡ true
            → IsNumber (dual_at self.old.duals a +ℤ share d (label_at self.old.motions a)) }
        requires not_below { (a : ℕ)
            → is_outermost self.old.vertex_count self.old.blossoms a ≡ true
            → self.old.vertex_count < a
            → pos 0 ≤ℤ (dual_at self.old.duals a +ℤ share d (label_at self.old.motions a)) }
        ensures duals { (a : ℕ) → dual_at self.new.duals a ≡ dual_at self.old.duals a
            +ℤ gain self.old d a }
        ensures frame { self.new ≡ record self.old { duals = self.new.duals } }
        ensures is_family { IsFamily self.new }
    {
        self.duals.advance(d);
    }

    /// The links of the circuit that a blossom was made of.
    pub fn ring(&self, b: NodeId) -> Ring<'_>
        requires { holds (names_of self.now.blossoms) b ≡ true }

        // The circuit of a blossom, its members and the chain of nodes above a vertex as exact
        // lists (also `members`, `chain`).
        ensures ring { result ≡ ring_of self.now.blossoms b }
        ensures is_family { IsFamily self.now }
    {
        let kept = find_kept(&self.kept, self.vertex_count, b.number());
        Ring::of(&self.nexts, &self.edges, kept.first, kept.links)
    }

    /// The vertices of a node, in the order of the circuits that it was made of; those of a vertex
    /// are itself.
    pub fn members(&self, node: NodeId) -> Members<'_>
        requires { is_node self.now.vertex_count self.now.blossoms node ≡ true }
        ensures members { result ≡ members_of self.now.blossoms node }
        ensures is_family { IsFamily self.now }
    {
        Members::of(
            &self.followers,
            find_run(&self.kept, self.vertex_count, node.number()),
        )
    }

    /// The nodes that hold a vertex, innermost first.
    pub fn chain(&self, v: VertexId) -> Chain<'_>
        requires { is_vertex self.now.vertex_count v ≡ true }
        ensures chain { result ≡ chain_of self.now.blossoms v }
        ensures is_family { IsFamily self.now }
    {
        Chain::of(&self.parents, v.number())
    }

    /// The node of a blossom's ring that holds a vertex of the blossom, in as many steps as nodes
    /// hold the vertex.
    pub fn child_holding(&self, b: NodeId, v: VertexId) -> NodeId
        requires blossom { holds (names_of self.now.blossoms) b ≡ true }
        requires inside { holds (members_of self.now.blossoms b) v ≡ true }

        // Which child of a blossom holds a vertex.
        ensures child { result ≡ child_holding self.now.blossoms b v }
        ensures is_family { IsFamily self.now }
    {
        NodeId::new(child_below(&self.parents, v.number(), b.number()))
    }

    /// The blossoms, newest first.
    pub fn blossoms(&self) -> Blossoms<'_>
        ensures blossoms { result ≡ names_of self.now.blossoms }
        ensures is_family { IsFamily self.now }
    {
        Blossoms::of(&self.older, self.older[0], self.kept.len() as u32)
    }

    /// Makes one node of a circuit of outermost nodes, of dual 0, and answers it, in time linear in
    /// the circuit and in the vertices of all its nodes but the largest. The circuit has an odd
    /// number of at least three nodes, all different. It rests, and so do they.
    pub fn shrink(&mut self, circuit: &[Link]) -> NodeId
        requires { IsCircuit self.old.vertex_count self.old.blossoms circuit.now }
        ensures fresh { is_node self.old.vertex_count self.old.blossoms result ≡ false }
        ensures above { self.old.vertex_count < result }
        ensures within { result ≤ self.old.vertex_count + most_blossoms self.old.vertex_count }
        ensures family { self.new ≡ shrunk self.old result circuit.now }
        ensures is_family { IsFamily self.new }
    {
        let run = join(&mut self.followers, &self.kept, self.vertex_count, circuit);
        let first = node_at(circuit, 0, 0);
        let links = circuit.len() as u32;
        let key = self.kept.insert_reserved(Kept { first, links, run });
        let node = self.vertex_count + 1 + key as u32;
        thread(&mut self.nexts, circuit, first);
        note(&mut self.edges, &mut self.parents, circuit, node);
        set_entry(&mut self.parents, node, 0);
        absorb(
            &mut self.partition,
            circuit,
            &self.followers,
            &self.kept,
            self.vertex_count,
            &self.duals,
            run.core,
            node,
        );
        self.duals.rest_each(circuit);
        self.duals.put(node as usize, 0, Label::Out);
        put_first(&mut self.older, &mut self.newer, node);
        NodeId::new(node)
    }

    /// Takes away an outermost blossom of dual 0, in time linear in its circuit and in the vertices
    /// of all nodes of the circuit but the largest. They rest.
    pub fn dissolve(&mut self, b: NodeId)
        requires blossom { holds (names_of self.old.blossoms) b ≡ true }
        requires outermost { is_outermost self.old.vertex_count self.old.blossoms b ≡ true }
        requires dual { dual_at self.old.duals b ≡ pos 0 }
        ensures family { self.new ≡ dissolved self.old b }
        ensures is_family { IsFamily self.new }
    {
        let node = b.number();
        let kept = self.kept.remove((node - (self.vertex_count + 1)) as usize);
        take_out(&mut self.older, &mut self.newer, node);
        release(
            &mut self.partition,
            &mut self.parents,
            Ring::of(&self.nexts, &self.edges, kept.first, kept.links),
            &self.followers,
            &self.kept,
            self.vertex_count,
            &self.duals,
            kept.run.core,
        );
        set_entry(&mut self.parents, node, NO_NODE);
        self.duals.move_as(node as usize, Label::Out);
    }

    /// Takes away all blossoms and makes all duals 0, which rest.
    pub fn clear(&mut self)
        ensures family { self.new ≡ empty_family self.old.vertex_count }
        ensures is_family { IsFamily self.new }
    {
        self.kept.clear();
        self.duals.wipe();
        self.partition.reset();
        bare(&mut self.parents, self.vertex_count);
        wipe(&mut self.older);
        wipe(&mut self.newer);
    }
}
