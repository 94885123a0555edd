ghost use Rattle.std.specs.Prelude.{◌≡◌, ◌<◌, ◌≤◌, ◌%◌, ℕ};
ghost use Rattle.mb_problem.specs.Network.{vertices, value_of};
ghost use Rattle.mb_problem.specs.Feasible.{AreEnds};
ghost use Rattle.mb_problem.specs.Ready.{HasEnds};

use crate::instance::Instance;
use mb_base::VertexId;

/// The first vertex of odd value after this one, or 0 if there is none.
fn next_odd(instance: &Instance, after: u32) -> u32
    ensures { (t : ℕ) → after < t → t ≤ vertices instance.now → value_of instance.now t % 2 ≡ 1
        → (after < result) × (result ≤ t) × (value_of instance.now result % 2 ≡ 1) }
{
    for v in after..instance.vertices() {
        if instance.value(VertexId::new(v + 1)) % 2 == 1 {
            return v + 1;
        }
    }
    0
}

/// The two vertices of odd value, the lesser first. It takes time linear in the vertices.
pub fn ends(instance: &Instance) -> (VertexId, VertexId)
    requires { HasEnds instance.now }

    // The two ends of a path, the lesser first.
    ensures { AreEnds instance.now result.0 result.1 }
{
    let s = next_odd(instance, 0);
    let t = next_odd(instance, s);
    (VertexId::new(s), VertexId::new(t))
}
