ghost use Rattle.std.specs.Prelude.{◌≡◌, ◌<◌, ◌≤◌, ◌^◌, ◌+◌, ◌-ℤ◌, ◌==◌, if◌then◌else◌, pos, ℕ};
ghost use Rattle.std.specs.Prelude.{map, length, vec_len, slice_index, is_some, IfOk, []};
ghost use Rattle.slab.specs.Slab.{get};
ghost use Rattle.std.specs.List.{AllByRecursion};
ghost use Rattle.blossom_arena.specs.declared.links.Link.{Link};
ghost use Rattle.blossom_arena.specs.declared.runs.Run.{Run};
ghost use Rattle.blossom_arena.specs.Family.{nodes_of, dual_at};
ghost use Rattle.blossom_arena.specs.Fields.{core_at, empty_run, joined, joined_size, joined_tail};
ghost use Rattle.blossom_arena.specs.Fields.{kept_of, key_of, longer_of, longest_of, run_of};
ghost use Rattle.blossom_arena.specs.Fields.{runs_of, vertices_at, vertices_of};
ghost use Rattle.blossom_arena.specs.Tables.{filled};
ghost use Rattle.blossom_arena.specs.Placement.{absorbed, given, heir_of, placed, placement_of};
ghost use Rattle.blossom_arena.specs.Placement.{released};
ghost use Rattle.graph_theory.specs.Duals.{IsNumber};

use crate::dual_table::Duals;
use crate::links::Link;
use crate::members::Members;
use crate::partition::Partition;
use crate::ring::Ring;
use base_types::OutOfMemory;
use slab::Slab;
use std::alloc::{AllocError, Global};

/// The vertices of a node: so many from `head` to `tail`, each the follower of the one before it,
/// and `core`, the one of them that names their set while the node is outermost.
#[derive(Clone, Copy)]
pub(crate) struct Run {
    pub(crate) head: u32,
    pub(crate) tail: u32,
    pub(crate) size: u32,
    pub(crate) core: u32,
}

/// The run of no vertex.
const EMPTY_RUN: Run = Run {
    head: 0,
    tail: 0,
    size: 0,
    core: 0,
};

/// What is kept of a blossom: the first node of its ring, how many links the ring has, and its
/// vertices.
#[derive(Clone, Copy)]
pub(crate) struct Kept {
    pub(crate) first: u32,
    pub(crate) links: u32,
    pub(crate) run: Run,
}

/// Room for what is kept of so many blossoms.
///
/// # Errors
///
/// `OutOfMemory` if an allocation fails.
pub(crate) fn room_for(alloc: Global, room: usize) -> Result<Slab<Kept>, OutOfMemory>
    ensures empty { IfOk result (λ s. s.slots ≡ []) }
    ensures room { IfOk result (λ s. s.capacity ≡ room) }
{
    let kept = Slab::with_capacity(alloc, room)?;
    if kept.capacity() != room {
        return Err(AllocError);
    }
    Ok(kept)
}

/// What is kept of the blossom of this node.
pub(crate) fn find_kept(kept: &Slab<Kept>, count: u32, node: u32) -> Kept
    requires { count < node }
    ensures { result ≡ kept_of count kept.now node }
{
    match kept.get((node - (count + 1)) as usize) {
        Some(found) => *found,
        None => Kept {
            first: 0,
            links: 0,
            run: EMPTY_RUN,
        },
    }
}

/// Whether there is a blossom of this node.
pub(crate) fn has_kept(kept: &Slab<Kept>, count: u32, node: u32) -> bool
    requires { count < node }
    ensures { result ≡ is_some (get kept.now (key_of count node)) }
{
    kept.get((node - (count + 1)) as usize).is_some()
}

/// Where the vertices of a node stand.
pub(crate) fn find_run(kept: &Slab<Kept>, count: u32, node: u32) -> Run
    ensures { result ≡ run_of count kept.now node }
{
    if node <= count {
        return Run {
            head: node,
            tail: node,
            size: 1,
            core: node,
        };
    }
    find_kept(kept, count, node).run
}

/// The longer of two runs, and the first if they have one length.
fn longer(run: Run, other: Run) -> Run
    ensures { result ≡ longer_of run other }
{
    if other.size <= run.size {
        return run;
    }
    other
}

/// Joins the runs of a circuit's nodes to one with the core of the longest. Place 0 of the table
/// takes the first vertex.
pub(crate) fn join(followers: &mut Vec<u32>, kept: &Slab<Kept>, count: u32, circuit: &[Link]) -> Run
    requires some { 0 < vec_len followers.old }
    requires within { AllByRecursion (λ (r : Run). r.tail < vec_len followers.old)
        (runs_of count kept.now circuit.now) }
    requires size_limit { joined_size (runs_of count kept.now circuit.now) < 2 ^ 32 }
    ensures items { followers.new.items
        ≡ joined followers.old.items 0 (runs_of count kept.now circuit.now) }
    ensures len { vec_len followers.new ≡ vec_len followers.old }
    ensures head { result.head ≡ slice_index followers.new.items 0 }
    ensures tail { result.tail ≡ joined_tail 0 (runs_of count kept.now circuit.now) }
    ensures size { result.size ≡ joined_size (runs_of count kept.now circuit.now) }
    ensures core { result.core ≡ (longest_of empty_run (runs_of count kept.now circuit.now)).core }
{
    let mut tail = 0;
    let mut size = 0;
    let mut longest = EMPTY_RUN;
    for link in circuit {
        let run = find_run(kept, count, link.node.number());
        followers[tail as usize] = run.head;
        tail = run.tail;
        size += run.size;
        longest = longer(longest, run);
    }
    Run {
        head: followers[0],
        tail,
        size,
        core: longest.core,
    }
}

/// Puts the vertices of a circuit's node into the set of a core, if they aren't in it.
fn take_in(partition: &mut Partition, followers: &[u32], run: Run, core: u32, node: u32, y: i64)
    requires within { AllByRecursion (λ v. v < length followers.now)
        (vertices_of followers.now run) }
    requires places { length partition.old.sets ≡ length followers.now }
    requires core { core < length followers.now }
    ensures len { length partition.new.sets ≡ length partition.old.sets }
    ensures placement { placement_of partition.new
        ≡ if run.core == core then placement_of partition.old
        else placed (placement_of partition.old) (vertices_of followers.now run) core node y }
{
    if run.core == core {
        return;
    }
    partition.place(Members::of(followers, run), core, node, y);
}

/// Makes a node the outermost one of all vertices of a circuit, and adds to the sum at each the
/// dual of the circuit's node that holds it. The set of the core stays, and only the vertices of
/// all other nodes are put into it.
pub(crate) fn absorb(
    partition: &mut Partition,
    circuit: &[Link],
    followers: &[u32],
    kept: &Slab<Kept>,
    count: u32,
    duals: &Duals,
    core: u32,
    node: u32,
)
    requires places { length partition.old.sets ≡ length followers.now }
    requires core { core < length followers.now }
    requires largest { (placement_of partition.old).top ((placement_of partition.old).set core)
        < length duals.now.values }
    requires within { AllByRecursion
        (λ (l : Link). AllByRecursion (λ v. v < length followers.now)
        (vertices_at followers.now count kept.now l.node)) circuit.now }
    requires nodes { AllByRecursion (λ (l : Link). l.node < length duals.now.values) circuit.now }
    ensures len { length partition.new.sets ≡ length partition.old.sets }
    ensures placement { placement_of partition.new
        ≡ absorbed (vertices_at followers.now count kept.now) (core_at count kept.now)
        (dual_at duals.now.values) core node (given (placement_of partition.old) core node
        (dual_at duals.now.values ((placement_of partition.old).top
        ((placement_of partition.old).set core)))) (nodes_of circuit.now) }
{
    let largest = partition.outermost(core);
    partition.give(core, node, duals.get(largest as usize));
    for link in circuit {
        let child = link.node.number();
        let run = find_run(kept, count, child);
        take_in(
            partition,
            followers,
            run,
            core,
            node,
            duals.get(child as usize),
        );
    }
}

/// The number with the other sign.
fn negated(y: i64) -> i64
    requires { IsNumber y }
    ensures { result ≡ pos 0 -ℤ y }
{
    0 - y
}

/// Puts the vertices of a ring's node into a set of its own, unless their set is that of its core.
fn let_out(partition: &mut Partition, followers: &[u32], run: Run, core: u32, node: u32, y: i64)
    requires within { AllByRecursion (λ v. v < length followers.now)
        (vertices_of followers.now run) }
    requires places { length partition.old.sets ≡ length followers.now }
    requires core { run.core < length followers.now }
    requires number { IsNumber y }
    ensures len { length partition.new.sets ≡ length partition.old.sets }
    ensures placement { placement_of partition.new
        ≡ if run.core == core then placement_of partition.old
        else placed (placement_of partition.old) (vertices_of followers.now run) run.core node
        (pos 0 -ℤ y) }
{
    if run.core == core {
        return;
    }
    partition.place(Members::of(followers, run), run.core, node, negated(y));
}

/// The node whose core this is, of two.
fn heir(before: u32, node: u32, own: u32, core: u32) -> u32
    ensures { result ≡ if own == core then node else before }
{
    if own == core {
        return node;
    }
    before
}

/// Makes each node of a ring the outermost one of its vertices, with no parent, and takes its dual
/// away from the sums there. The node whose core is that of the whole ring keeps the set, and only
/// the vertices of all others are put into other ones.
pub(crate) fn release(
    partition: &mut Partition,
    parents: &mut Vec<u32>,
    ring: Ring<'_>,
    followers: &[u32],
    kept: &Slab<Kept>,
    count: u32,
    duals: &Duals,
    core: u32,
)
    requires places { length partition.old.sets ≡ length followers.now }
    requires core { core < length followers.now }
    requires some { 0 < length duals.now.values }
    requires within { AllByRecursion (λ (l : Link). AllByRecursion (λ v. v < length followers.now)
        (vertices_at followers.now count kept.now l.node)
        × (core_at count kept.now l.node < length followers.now)) ring }
    requires nodes { AllByRecursion (λ (l : Link). l.node < length duals.now.values) ring }
    requires parents { AllByRecursion (λ (l : Link). l.node < vec_len parents.old) ring }
    ensures parents { parents.new.items ≡ filled parents.old.items (nodes_of ring.entry) 0 }
    ensures parents_len { vec_len parents.new ≡ vec_len parents.old }
    ensures len { length partition.new.sets ≡ length partition.old.sets }
    ensures placement { placement_of partition.new
        ≡ given (released (vertices_at followers.now count kept.now) (core_at count kept.now)
        (dual_at duals.now.values) core (placement_of partition.old) (nodes_of ring.entry)) core
        (heir_of (core_at count kept.now) core 0 (nodes_of ring.entry))
        (pos 0 -ℤ dual_at duals.now.values (heir_of (core_at count kept.now) core 0
        (nodes_of ring.entry))) }
{
    let mut largest = 0;
    for link in ring {
        let child = link.node.number();
        let run = find_run(kept, count, child);
        parents[child as usize] = 0;
        largest = heir(largest, child, run.core, core);
        let_out(
            partition,
            followers,
            run,
            core,
            child,
            duals.get(child as usize),
        );
    }
    partition.give(core, largest, negated(duals.get(largest as usize)));
}
