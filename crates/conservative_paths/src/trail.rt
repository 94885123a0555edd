ghost use Rattle.std.specs.Prelude.{◌≡◌, ℕ, ◌+◌, ◌<◌, ◌≤◌, [], length, slice_index, drop, IfOk};
ghost use Rattle.std.specs.Prelude.{OnOk, IsTrue, ◌↔◌};
ghost use Rattle.conservative_paths.specs.Trails.{Begins, Follows, IsCut};

use mb_base::{EdgeId, OutOfMemory, VertexId};
use std::alloc::Global;

/// Whether the vertex stands at this place.
fn stands_at(vertices: &[VertexId], place: usize, vertex: VertexId) -> bool
    ensures { IsTrue result ↔
        ((place < length vertices.now) × (slice_index vertices.now place ≡ vertex)) }
{
    if place >= vertices.len() {
        return false;
    }
    vertices[place] == vertex
}

/// A path that grows: the vertex that it has come to, its edges and its vertices in order, and for
/// each vertex the place at which it stands among these, if it does.
#[derive(Drop)]
pub(crate) struct Trail {
    pub(crate) here: VertexId,
    pub(crate) edges: Vec<EdgeId>,
    pub(crate) vertices: Vec<VertexId>,
    pub(crate) place: Vec<usize>,
}

impl Trail {
    /// Room for paths between the vertices 1 to n.
    pub(crate) fn new(alloc: Global, n: u32) -> Result<Self, OutOfMemory>
        ensures { IfOk result (λ trail. length trail.place.items ≡ n + 1) }
    {
        let room = n as usize + 1;
        Ok(Trail {
            here: VertexId::new(0),
            edges: Vec::with_capacity(alloc, room)?,
            vertices: Vec::with_capacity(alloc, room)?,
            place: vec![in alloc; 0usize; room]?,
        })
    }

    /// Begins a path of this vertex alone.
    pub(crate) fn begin(&mut self, base: VertexId) -> Result<(), OutOfMemory>
        requires { base < length self.old.place.items }
        ensures { OnOk result (Begins base self.old self.new) }
    {
        self.edges.clear();
        self.vertices.clear();
        self.vertices.push(base)?;
        self.place[base.number() as usize] = 0;
        self.here = base;
        Ok(())
    }

    /// Goes on over an edge to its other end. Where the path has come to that vertex before, it
    /// answers the place, and does not list it again.
    pub(crate) fn follow(
        &mut self,
        edge: EdgeId,
        there: VertexId,
    ) -> Result<Option<usize>, OutOfMemory>
        requires { there < length self.old.place.items }
        ensures { IfOk result (Follows edge there self.old self.new) }
    {
        self.edges.push(edge)?;
        self.here = there;
        let place = self.place[there.number() as usize];
        if stands_at(&self.vertices, place, there) {
            return Ok(Some(place));
        }
        self.place[there.number() as usize] = self.vertices.len();
        self.vertices.push(there)?;
        Ok(None)
    }

    /// The edges of the path from this place on.
    pub(crate) fn since(&self, place: usize) -> &[EdgeId]
        requires { place ≤ length self.now.edges.items }
        ensures { result.now ≡ drop place self.now.edges.items }
    {
        &self.edges[place..]
    }

    /// Cuts the path back to the vertex at this place.
    pub(crate) fn cut(&mut self, place: usize)
        requires { place < length self.old.vertices.items }
        ensures { IsCut place self.old self.new }
    {
        self.edges.truncate(place);
        self.vertices.truncate(place + 1);
    }
}
