ghost use Rattle.graph_theory.specs.Limits.{IsWithinLimits};
ghost use Rattle.mb_problem.specs.Size.{size_of};
ghost use Rattle.cert_check.specs.Extents.{IsExtent};

use certificates::certified_vertices;
use mb_problem::{Instance, Kind};

/// How many vertices and edges an instance has, and vertices the graph of its certificates.
#[derive(Clone, Copy)]
pub struct Sizes {
    pub vertices: u32,
    pub edges: u32,
    pub certified: u32,
}

/// The extent of an instance and a kind, in time linear in the instance.
pub fn extent_of(instance: &Instance, kind: Kind) -> Sizes
    requires { IsWithinLimits (size_of kind instance.now) }
    ensures { IsExtent kind instance.now result }
{
    let vertices = instance.vertices();
    let edges = instance.edges();
    let certified = certified_vertices(instance, kind);
    Sizes {
        vertices,
        edges,
        certified,
    }
}
