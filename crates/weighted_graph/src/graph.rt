ghost use Rattle.std.specs.Prelude.{◌≡◌, ℕ, ◌+◌, ◌<◌, ◌≤◌, ◌^◌, length, [], ◌∷◌, ◌++◌, ℤ, pos};
ghost use Rattle.std.specs.Prelude.{◌≤ℤ◌};

use crate::incidence::Incidence;
use base_types::{EdgeId, OutOfMemory, Steps, VertexId};
use graph_theory::Edge;
use std::alloc::Global;
use std::marker::Model;
use std::sync::ledger::Ledger;

/// A graph with the vertices 1 to n, and weighted edges between different ones. Edges are numbered
/// from 1 in the order in which they were added.
#[derive(Drop)]
pub struct Graph {
    alloc: Global,
    vertices: u32,
    edges: Vec<Edge>,
}

impl Model for Graph {
    ghost use Rattle.std.specs.Prelude.{◌≡◌, ℕ, length};
    ghost use Rattle.graph_theory.specs.Graph.{Multigraph, IsGraph};

    ghost Value = { Multigraph };

    ghost view = { λ g. record { vertices = g.vertices; edges = g.edges.items } };

    ghost invariant = { λ g. IsGraph (record { vertices = g.vertices; edges = g.edges.items }) };
}

impl Graph {
    ghost use Rattle.std.specs.Prelude.{◌≡◌, ◌≢◌, ℕ, ◌+◌, ◌<◌, ◌≤◌, ◌^◌, length, [], ◌∷◌, ◌++◌};
    ghost use Rattle.std.specs.Prelude.{OnOk, OnErr, IfOk, ℤ, pos, ◌-◌};
    ghost use Rattle.graph_theory.specs.Graph.{Multigraph, IsGraph, IsEdgeWithin, IsWeight};
    ghost use Rattle.graph_theory.specs.Graph.{IsEdgeNumber, edge_of, other_end};
    ghost use Rattle.weighted_graph.specs.Index.{IsIndex};

    /// A graph with n vertices and no edges. It takes no memory.
    pub fn new(alloc: Global, n: u32) -> Self
        ensures { result ≡ record { vertices = n; edges = [] } }
    {
        Graph {
            alloc,
            vertices: n,
            edges: Vec::new(alloc),
        }
    }

    /// Puts an edge at the end of the list.
    fn push(&mut self, edge: Edge) -> Result<EdgeId, OutOfMemory>
        requires room { length self.old.edges < 2 ^ 32 - 1 }
        requires ends { IsEdgeWithin self.old.vertices edge }
        requires weight { IsWeight edge.w }
        ensures added { OnOk result (self.new ≡ record self.old {
          edges = self.old.edges ++ edge ∷ [];
        }) }
        ensures number { IfOk result (λ e. e ≡ length self.old.edges + 1) }
        ensures unchanged { OnErr result (self.new ≡ self.old) }
        ensures graph { IsGraph self.new }
    {
        self.edges.push(edge)?;
        Ok(EdgeId::new(self.edges.len() as u32))
    }

    /// Adds an edge between `u` and `v` of weight `w`, and answers its number.
    pub fn add(&mut self, u: VertexId, v: VertexId, w: i64) -> Result<EdgeId, OutOfMemory>
        requires room { length self.old.edges < 2 ^ 32 - 1 }
        requires ends { IsEdgeWithin self.old.vertices (record { u = u; v = v; w = w }) }
        requires weight { IsWeight w }

        // Adds an edge and numbers it; the graph is unchanged if memory runs out.
        ensures added { OnOk result (self.new ≡ record self.old {
          edges = self.old.edges ++ record { u = u; v = v; w = w } ∷ [];
        }) }
        ensures number { IfOk result (λ e. e ≡ length self.old.edges + 1) }
        ensures unchanged { OnErr result (self.new ≡ self.old) }
        ensures graph { IsGraph self.new }
    {
        self.push(Edge { u, v, w })
    }

    /// The ends and the weight of an edge, and one step more on the counter.
    pub fn look<L: Ledger>(&self, e: EdgeId, steps: &mut Steps<L>) -> (VertexId, VertexId, i64)
        requires { IsEdgeNumber self.now e }

        // An edge inspection gives ends and weight and counts exactly one step.
        ensures from { result.0 ≡ (edge_of self.now e).u }
        ensures to { result.1 ≡ (edge_of self.now e).v }
        ensures weight { result.2 ≡ (edge_of self.now e).w }
        ensures step { steps.new ≡ steps.old + 1 }
        ensures graph { IsGraph self.now }
    {
        steps.tick();
        self.edge(e)
    }

    /// The ends and the weight of an edge. It counts no step.
    pub fn edge(&self, e: EdgeId) -> (VertexId, VertexId, i64)
        requires { IsEdgeNumber self.now e }
        ensures from { result.0 ≡ (edge_of self.now e).u }
        ensures to { result.1 ≡ (edge_of self.now e).v }
        ensures weight { result.2 ≡ (edge_of self.now e).w }
        ensures graph { IsGraph self.now }
    {
        let edge = self.edges[e.number() as usize - 1];
        (edge.u, edge.v, edge.w)
    }

    /// The end of an edge that is not `v`, where `v` is an end. It counts no step.
    pub fn other_end(&self, e: EdgeId, v: VertexId) -> VertexId
        requires { IsEdgeNumber self.now e }
        ensures end { result ≡ other_end (edge_of self.now e) v }
        ensures high { result ≤ self.now.vertices }
        ensures graph { IsGraph self.now }
    {
        let (from, to, _) = self.edge(e);
        if from == v { to } else { from }
    }

    /// How many vertices there are.
    pub fn vertices(&self) -> u32
        ensures count { result ≡ self.now.vertices }
        ensures graph { IsGraph self.now }
    {
        self.vertices
    }

    /// How many edges there are.
    pub fn edges(&self) -> u32
        ensures count { result ≡ length self.now.edges }
        ensures graph { IsGraph self.now }
    {
        self.edges.len() as u32
    }

    /// The edges in the order of their numbers, for passes over all of them.
    pub fn edge_list(&self) -> &[Edge]
        ensures list { result.now ≡ self.now.edges }
        ensures graph { IsGraph self.now }
    {
        &self.edges
    }

    /// For each vertex its edges, ascending, in time linear in vertices and edges.
    pub fn index(&self) -> Result<Incidence, OutOfMemory>
        // The index lists exactly the edges at each vertex, ascending.
        ensures index { IfOk result (IsIndex self.now) }
        ensures graph { IsGraph self.now }
    {
        Incidence::of(self.alloc, self.vertices, &self.edges)
    }
}
