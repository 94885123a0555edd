ghost use Rattle.std.specs.Prelude.{◌≡◌, ℕ, ◌+◌, ◌-◌, ◌<◌, ◌≤◌, ◌^◌, length, [], ◌∷◌, ◌++◌};
ghost use Rattle.std.specs.Prelude.{replicate};

use crate::limits::{EDGE_LIMIT, VALUE_LIMIT, VERTEX_LIMIT};
use mb_base::{EdgeId, OutOfMemory, VertexId};
use std::alloc::Global;
use std::marker::Model;
use weighted_graph::Graph;

/// An edge of an instance: its ends, its weight, and its capacity where it has one.
#[derive(Clone, Copy, PartialEq, Eq)]
pub struct InstanceEdge {
    pub u: VertexId,
    pub v: VertexId,
    pub w: i64,
    pub capacity: Option<u32>,
}

/// An instance: vertices 1 to n, each with a value and with the least and the greatest degree that
/// an answer may have there, and edges numbered from 1. It has at most
/// `VERTEX_LIMIT` vertices and `EDGE_LIMIT` edges; weights are within `WEIGHT_LIMIT` of
/// `graph_theory`, and values and capacities at most `VALUE_LIMIT`.
#[derive(Drop)]
pub struct Instance {
    alloc: Global,
    edges: Vec<InstanceEdge>,
    values: Vec<u32>,
    lows: Vec<u32>,
    highs: Vec<u32>,
}

impl Model for Instance {
    ghost use Rattle.std.specs.Prelude.{length};
    ghost use Rattle.mb_problem.specs.Network.{Network, IsNetwork};

    ghost Value = { Network };

    ghost view = { λ i. record {
      edges = i.edges.items;
      values = i.values.items;
      lows = i.lows.items;
      highs = i.highs.items;
    } };

    ghost invariant = { λ i. IsNetwork (record {
      edges = i.edges.items;
      values = i.values.items;
      lows = i.lows.items;
      highs = i.highs.items;
    }) };
}

impl Instance {
    ghost use Rattle.std.specs.Prelude.{◌≡◌, ◌≢◌, ℕ, ◌+◌, ◌-◌, ◌<◌, ◌≤◌, ◌^◌, length, [], ◌∷◌};
    ghost use Rattle.std.specs.Prelude.{◌++◌, OnOk, OnErr, IfOk, ℤ, pos, replicate, slice_set};
    ghost use Rattle.graph_theory.specs.Graph.{IsWeight, HasNoLoop};
    ghost use Rattle.mb_problem.specs.Network.{Network, IsNetwork, IsInstanceEdge};
    ghost use Rattle.mb_problem.specs.Network.{instance_edge_of, value_of, graph_of, plain_graph};
    ghost use Rattle.mb_problem.specs.Network.{vertices, low_of, high_of, at_most};

    /// An instance of n vertices, each of this value and of a degree from 0 to 1, and no edges.
    pub fn new(alloc: Global, n: u32, value: u32) -> Result<Instance, OutOfMemory>
        requires vertices { n ≤ VERTEX_LIMIT }
        requires value_limit { value ≤ VALUE_LIMIT }
        ensures { IfOk result (λ i. i ≡ record {
          edges = [];
          values = replicate n value;
          lows = replicate n 0;
          highs = replicate n 1;
        }) }
    {
        let values = vec![in alloc; value; n as usize]?;
        Instance::from_values(alloc, Vec::new(alloc), values)
    }

    /// The instance of these edges, and of the values, the least and the greatest degrees of the
    /// vertices 1 to n.
    pub fn from_parts(
        alloc: Global,
        edges: Vec<InstanceEdge>,
        values: Vec<u32>,
        lows: Vec<u32>,
        highs: Vec<u32>,
    ) -> Instance
        requires { IsNetwork (record {
          edges = edges.items;
          values = values.items;
          lows = lows.items;
          highs = highs.items;
        }) }
        ensures { result ≡ record {
          edges = edges.items;
          values = values.items;
          lows = lows.items;
          highs = highs.items;
        } }
    {
        Instance {
            alloc,
            edges,
            values,
            lows,
            highs,
        }
    }

    /// The instance of these edges and of the values of the vertices 1 to n, each of a degree from
    /// 0 to 1.
    pub fn from_values(
        alloc: Global,
        edges: Vec<InstanceEdge>,
        values: Vec<u32>,
    ) -> Result<Instance, OutOfMemory>
        requires { IsNetwork (record {
          edges = edges.items;
          values = values.items;
          lows = replicate (length values.items) 0;
          highs = replicate (length values.items) 1;
        }) }
        ensures { IfOk result (λ i. i ≡ record {
          edges = edges.items;
          values = values.items;
          lows = replicate (length values.items) 0;
          highs = replicate (length values.items) 1;
        }) }
    {
        let lows = vec![in alloc; 0u32; values.len()]?;
        let highs = vec![in alloc; 1u32; values.len()]?;
        Ok(Instance::from_parts(alloc, edges, values, lows, highs))
    }

    /// Puts an edge at the end of the list.
    fn push(&mut self, edge: InstanceEdge) -> Result<EdgeId, OutOfMemory>
        requires room { length self.old.edges < EDGE_LIMIT }
        requires edge { IsInstanceEdge (vertices self.old) edge }
        ensures added { OnOk result (self.new ≡ record self.old {
          edges = self.old.edges ++ edge ∷ [];
        }) }
        ensures number { IfOk result (λ e. e ≡ length self.old.edges + 1) }
        ensures unchanged { OnErr result (self.new ≡ self.old) }
        ensures network { IsNetwork self.new }
    {
        self.edges.push(edge)?;
        Ok(EdgeId::new(self.edges.len() as u32))
    }

    /// Adds an edge, whose ends may be equal, and answers its number.
    pub fn add_edge(
        &mut self,
        u: VertexId,
        v: VertexId,
        w: i64,
        capacity: Option<u32>,
    ) -> Result<EdgeId, OutOfMemory>
        requires room { length self.old.edges < EDGE_LIMIT }
        requires edge { IsInstanceEdge (vertices self.old) (record {
          u = u;
          v = v;
          w = w;
          capacity = capacity;
        }) }
        ensures added { OnOk result (self.new ≡ record self.old {
          edges = self.old.edges ++ record { u = u; v = v; w = w; capacity = capacity } ∷ [];
        }) }
        ensures number { IfOk result (λ e. e ≡ length self.old.edges + 1) }
        ensures unchanged { OnErr result (self.new ≡ self.old) }
        ensures network { IsNetwork self.new }
    {
        self.push(InstanceEdge { u, v, w, capacity })
    }

    /// Gives a vertex its value.
    pub fn set_value(&mut self, v: VertexId, value: u32)
        requires low { 1 ≤ v }
        requires high { v ≤ vertices self.old }
        requires value_limit { value ≤ VALUE_LIMIT }
        ensures set { self.new
            ≡ record self.old { values = slice_set self.old.values (v - 1) value } }
        ensures network { IsNetwork self.new }
    {
        self.values[v.number() as usize - 1] = value;
    }

    /// Gives a vertex the least and the greatest degree that an answer may have there.
    pub fn set_range(&mut self, v: VertexId, low: u32, high: u32)
        requires first { 1 ≤ v }
        requires last { v ≤ vertices self.old }
        requires ordered { low ≤ high }
        requires value_limit { high ≤ VALUE_LIMIT }
        ensures set { self.new ≡ record self.old {
          lows = slice_set self.old.lows (v - 1) low;
          highs = slice_set self.old.highs (v - 1) high;
        } }
        ensures network { IsNetwork self.new }
    {
        let place = v.number() as usize - 1;
        self.lows[place] = low;
        self.highs[place] = high;
    }

    /// How many vertices there are.
    pub fn vertices(&self) -> u32
        ensures count { result ≡ vertices self.now }
        ensures network { IsNetwork self.now }
    {
        self.values.len() as u32
    }

    /// How many edges there are.
    pub fn edges(&self) -> u32
        ensures count { result ≡ length self.now.edges }
        ensures network { IsNetwork self.now }
    {
        self.edges.len() as u32
    }

    /// The ends, the weight and the capacity of an edge.
    pub fn edge(&self, e: EdgeId) -> (VertexId, VertexId, i64, Option<u32>)
        requires low { 1 ≤ e }
        requires high { e ≤ length self.now.edges }
        ensures from { result.0 ≡ (instance_edge_of self.now e).u }
        ensures to { result.1 ≡ (instance_edge_of self.now e).v }
        ensures weight { result.2 ≡ (instance_edge_of self.now e).w }
        ensures capacity { result.3 ≡ (instance_edge_of self.now e).capacity }
        ensures network { IsNetwork self.now }
    {
        let edge = self.edges[e.number() as usize - 1];
        (edge.u, edge.v, edge.w, edge.capacity)
    }

    /// The value of a vertex.
    pub fn value(&self, v: VertexId) -> u32
        requires low { 1 ≤ v }
        requires high { v ≤ vertices self.now }
        ensures value { result ≡ value_of self.now v }
        ensures network { IsNetwork self.now }
    {
        self.values[v.number() as usize - 1]
    }

    /// The least and the greatest degree that an answer may have at a vertex.
    pub fn range(&self, v: VertexId) -> (u32, u32)
        requires first { 1 ≤ v }
        requires last { v ≤ vertices self.now }
        ensures low { result.0 ≡ low_of self.now v }
        ensures high { result.1 ≡ high_of self.now v }
        ensures network { IsNetwork self.now }
    {
        let place = v.number() as usize - 1;
        (self.lows[place], self.highs[place])
    }

    /// The edges in the order of their numbers, for passes over all of them.
    pub fn edge_list(&self) -> &[InstanceEdge]
        ensures list { result.now ≡ self.now.edges }
        ensures network { IsNetwork self.now }
    {
        &self.edges
    }

    /// The values of the vertices 1 to n.
    pub fn value_list(&self) -> &[u32]
        ensures list { result.now ≡ self.now.values }
        ensures network { IsNetwork self.now }
    {
        &self.values
    }

    /// The least degrees of the vertices 1 to n.
    pub fn low_list(&self) -> &[u32]
        ensures list { result.now ≡ self.now.lows }
        ensures network { IsNetwork self.now }
    {
        &self.lows
    }

    /// The greatest degrees of the vertices 1 to n.
    pub fn high_list(&self) -> &[u32]
        ensures list { result.now ≡ self.now.highs }
        ensures network { IsNetwork self.now }
    {
        &self.highs
    }

    /// The instance whose values are the greatest degrees.
    pub fn at_most(&self) -> Result<Instance, OutOfMemory>
        ensures instance { IfOk result (λ i. i ≡ at_most self.now) }
        ensures network { IfOk result IsNetwork }
    {
        let edges = Vec::from_slice(self.alloc, self.edge_list())?;
        let values = Vec::from_slice(self.alloc, self.high_list())?;
        let lows = Vec::from_slice(self.alloc, self.low_list())?;
        let highs = Vec::from_slice(self.alloc, self.high_list())?;
        Ok(Instance::from_parts(self.alloc, edges, values, lows, highs))
    }

    /// The graph of the instance: its edges without their capacities.
    pub fn graph(&self) -> Result<Graph, OutOfMemory>
        ensures { IfOk result (λ g. g ≡ graph_of self.now) }
    {
        let mut graph = Graph::new(self.alloc, self.vertices());
        for edge in self.edge_list() {
            graph.add(edge.u, edge.v, edge.w)?;
        }
        Ok(graph)
    }

    /// The graph of the instance without its loops, in the order of their numbers.
    pub fn plain(&self) -> Result<Graph, OutOfMemory>
        ensures graph { IfOk result (λ g. g ≡ plain_graph self.now) }
        ensures loopless { IfOk result HasNoLoop }
    {
        let mut graph = Graph::new(self.alloc, self.vertices());
        for edge in self.edge_list() {
            if edge.u != edge.v {
                graph.add(edge.u, edge.v, edge.w)?;
            }
        }
        Ok(graph)
    }
}
