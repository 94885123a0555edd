ghost use Rattle.std.specs.Prelude.{◌≡◌, ℕ, ◌+◌, ◌≤◌, slice_index};
ghost use Rattle.mb_problem.specs.Network.{vertices, value_of};
ghost use Rattle.mb_problem.specs.Size.{value_total};
ghost use Rattle.gadget_base.specs.Gadgets.{values_below};
ghost use Rattle.gadget_base.specs.Starts.{AreStarts};

use mb_base::VertexId;
use mb_problem::Instance;

/// How many vertices come before the copies of a vertex, if each has as many as its value says, and
/// how many copies it has. `starts` are those of the values.
pub fn copies_of(instance: &Instance, starts: &[u32], v: VertexId) -> (u32, u32)
    requires starts { AreStarts (λ k. slice_index instance.now.values k)
        (vertices instance.now) starts.now }
    requires low { 1 ≤ v }
    requires high { v ≤ vertices instance.now }

    // The copies of each vertex are one block, and which copies are whose.
    ensures before { result.0 ≡ values_below instance.now v }
    ensures count { result.1 ≡ value_of instance.now v }
    ensures inside { result.0 + result.1 ≤ value_total instance.now }
{
    (starts[v.number() as usize - 1], instance.value(v))
}
