ghost use Rattle.std.specs.Prelude.{◌≡◌, ◌<◌, ℕ, slice_index, slice_set, vec_len};

use crate::tables::set_entry;

/// Puts a node before all that are in the order, as the newest. Place 0 of the two tables stands
/// between the oldest and the newest.
pub(crate) fn put_first(older: &mut Vec<u32>, newer: &mut Vec<u32>, node: u32)
    requires older { node < vec_len older.old }
    requires newer { node < vec_len newer.old }
    requires next { slice_index older.old.items 0 < vec_len newer.old }
    ensures older { older.new.items
        ≡ slice_set (slice_set older.old.items node (slice_index older.old.items 0)) 0 node }
    ensures newer { newer.new.items
        ≡ slice_set (slice_set newer.old.items (slice_index older.old.items 0) node) node 0 }
{
    let next = older[0];
    set_entry(older, node, next);
    set_entry(older, 0, node);
    set_entry(newer, next, node);
    set_entry(newer, node, 0);
}

/// Takes a node out of the order.
pub(crate) fn take_out(older: &mut Vec<u32>, newer: &mut Vec<u32>, node: u32)
    requires older { node < vec_len older.old }
    requires newer { node < vec_len newer.old }
    requires next { slice_index older.old.items node < vec_len newer.old }
    requires before { slice_index newer.old.items node < vec_len older.old }
    ensures older { older.new.items ≡ slice_set older.old.items (slice_index newer.old.items node)
        (slice_index older.old.items node) }
    ensures newer { newer.new.items ≡ slice_set newer.old.items (slice_index older.old.items node)
        (slice_index newer.old.items node) }
{
    let next = older[node as usize];
    let before = newer[node as usize];
    set_entry(older, before, next);
    set_entry(newer, next, before);
}
