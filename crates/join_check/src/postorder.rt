ghost use Rattle.std.specs.Prelude.{ℕ, ◌<◌, ◌≤◌, length, slice_index, IsTrue};
ghost use Rattle.join_check.specs.Checks.{ArePostorder};

/// Whether a node begins where a node before it begins that no other of those before holds, or
/// right after it. The nodes before are in postorder.
fn is_nested(befores: &[u32], node: usize) -> bool
    requires some { 1 ≤ node }
    requires node { node < length befores.now }
    requires before { ArePostorder befores.now node }
    ensures { IsTrue result → (x : ℕ) → x < node → slice_index befores.now node < x
        → slice_index befores.now node ≤ slice_index befores.now x }
{
    let first = befores[node] as usize;
    let mut last = node - 1;
    while last > first {
        last = befores[last] as usize;
    }
    last == first
}

/// Whether the nodes stand in postorder: each holds whole nodes that end right before it. It takes
/// time linear in the nodes, since each has one parent.
pub(crate) fn is_postorder(befores: &[u32]) -> bool
    ensures { IsTrue result → ArePostorder befores.now (length befores.now) }
{
    for node in 1..befores.len() {
        if befores[node] as usize >= node {
            return false;
        }
        if !is_nested(befores, node) {
            return false;
        }
    }
    true
}
