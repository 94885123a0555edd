ghost use Rattle.std.specs.Prelude.{◌≡◌, ℕ, ◌<◌, ◌≤◌, ◌^◌};

use std::marker::Model;

/// The number of a vertex. Vertices count from 1.
#[derive(Clone, Copy, PartialEq, Eq, PartialOrd, Debug)]
pub struct VertexId(u32);

impl Model for VertexId {
    ghost Value = { ℕ };

    ghost view = { λ v. v.0 };

    ghost inverse = { λ n. record { 0 = n } };
}

impl VertexId {
    /// The vertex of this number.
    pub fn new(number: u32) -> Self
        ensures { result ≡ number }
    {
        VertexId(number)
    }

    /// Its number.
    pub fn number(self) -> u32
        ensures { result ≡ self }
    {
        self.0
    }
}

/// The number of an edge. Edges count from 1.
#[derive(Clone, Copy, PartialEq, Eq, Debug)]
pub struct EdgeId(u32);

impl Model for EdgeId {
    ghost Value = { ℕ };

    ghost view = { λ e. e.0 };

    ghost inverse = { λ n. record { 0 = n } };
}

impl EdgeId {
    /// The edge of this number.
    pub fn new(number: u32) -> Self
        ensures { result ≡ number }
    {
        EdgeId(number)
    }

    /// Its number.
    pub fn number(self) -> u32
        ensures { result ≡ self }
    {
        self.0
    }
}

/// The number of a node. The vertices 1 to n are nodes, and the blossoms have the numbers after n,
/// up to n + (n - 1) / 2.
#[derive(Clone, Copy, PartialEq, Eq)]
pub struct NodeId(u32);

impl Model for NodeId {
    ghost Value = { ℕ };

    ghost view = { λ a. a.0 };

    ghost inverse = { λ n. record { 0 = n } };
}

impl NodeId {
    /// The node of this number.
    pub fn new(number: u32) -> Self
        ensures { result ≡ number }
    {
        NodeId(number)
    }

    /// Its number.
    pub fn number(self) -> u32
        ensures { result ≡ self }
    {
        self.0
    }
}
