use super::forests::{PAIR, proves};
use join_check::Levels;
use mb_base::{OutOfMemory, Sequence};
use std::alloc::Global;
use std::process::Abort;
use std::test::Fail;

/// What is changed: the edges of a join, or a list of its forest.
#[derive(Clone, Copy, PartialEq, Eq)]
enum List {
    Join,
    Lengths,
    Befores,
    Nodes,
    Heights,
    Meets,
}

use List::{Befores, Heights, Join, Lengths, Meets, Nodes};

/// A change of one list: the item at a place, one more at its end, or, with None, all items from
/// the place on gone.
#[derive(Clone, Copy)]
struct Change {
    list: List,
    place: usize,
    item: Option<i64>,
}

/// Changes of a forest that proves the join of edge 1 between two vertices. None of them leaves a
/// proof.
const CHANGES: [(&str, List, usize, Option<i64>); 33] = [
    ("no edge", Join, 0, None),
    ("an edge of number 0", Join, 0, Some(0)),
    ("an edge that isn't there", Join, 0, Some(3)),
    (
        "an edge of the greatest number",
        Join,
        0,
        Some(4_294_967_295),
    ),
    ("a join that isn't least", Join, 0, Some(2)),
    ("an edge twice", Join, 1, Some(1)),
    ("no nodes", Lengths, 0, None),
    ("a node less", Lengths, 2, None),
    ("a node more", Lengths, 3, Some(0)),
    ("a length outside", Lengths, 0, Some(1)),
    ("no length", Lengths, 1, Some(0)),
    ("a negative length", Lengths, 1, Some(-1)),
    ("the least length", Lengths, 1, Some(i64::MIN)),
    ("the greatest length", Lengths, 1, Some(i64::MAX)),
    (
        "a length past the limit",
        Lengths,
        1,
        Some(131_072_000_000_000_001),
    ),
    ("a node without its start", Befores, 2, None),
    ("a node that begins after itself", Befores, 1, Some(2)),
    ("the greatest start", Befores, 1, Some(4_294_967_295)),
    ("a node that holds both vertices", Befores, 2, Some(0)),
    ("a vertex without its node", Nodes, 1, None),
    ("a vertex outside", Nodes, 0, Some(0)),
    ("a vertex in the other node", Nodes, 0, Some(2)),
    ("a vertex in a node that isn't there", Nodes, 0, Some(3)),
    ("the greatest node", Nodes, 0, Some(4_294_967_295)),
    ("a vertex without its height", Heights, 1, None),
    ("a vertex below the top", Heights, 0, Some(0)),
    ("a vertex above the top", Heights, 0, Some(2)),
    ("a negative height", Heights, 0, Some(-1)),
    ("the least height", Heights, 0, Some(i64::MIN)),
    ("the greatest height", Heights, 0, Some(i64::MAX)),
    ("an edge without its meet", Meets, 1, None),
    ("a meet that isn't there", Meets, 0, Some(3)),
    ("the greatest meet", Meets, 0, Some(4_294_967_295)),
];

/// The items of a list with a change, if it is one of this list.
fn items(
    alloc: Global,
    list: List,
    items: &[i64],
    change: &Change,
) -> Result<Vec<i64>, OutOfMemory> {
    let mut found = Vec::from_slice(alloc, items)?;
    if change.list != list {
        return Ok(found);
    }
    match change.item {
        None => found.truncate(change.place),
        Some(item) => {
            if change.place < found.len() {
                found[change.place] = item;
            } else {
                found.push(item)?;
            }
        }
    }
    Ok(found)
}

/// The same for numbers of edges or nodes.
fn numbers(
    alloc: Global,
    list: List,
    old: &[i64],
    change: &Change,
) -> Result<Vec<u32>, OutOfMemory> {
    let mut found = Vec::new(alloc);
    for item in &items(alloc, list, old, change)? {
        found.push(u32::try_from(*item).unwrap_or(u32::MAX))?;
    }
    Ok(found)
}

/// Whether the forest proves the join after a change.
fn is_proved_after(alloc: Global, change: &Change) -> Result<Option<bool>, Fail> {
    let join = numbers(alloc, Join, &[1], change)?;
    let levels = Levels {
        lengths: Sequence::from_vec(items(alloc, Lengths, &[0, 1, 1], change)?),
        befores: Sequence::from_vec(numbers(alloc, Befores, &[0, 0, 1], change)?),
        nodes: Sequence::from_vec(numbers(alloc, Nodes, &[1, 2], change)?),
        heights: Sequence::from_vec(items(alloc, Heights, &[1, 1], change)?),
        meets: Sequence::from_vec(numbers(alloc, Meets, &[0, 0], change)?),
    };
    proves(alloc, PAIR, &join, &levels)
}

/// Whether the forest proves the join after a change of this list.
fn is_proved_with(
    rt: &impl Abort,
    alloc: Global,
    list: List,
    place: usize,
    item: Option<i64>,
) -> Result<bool, Fail> {
    let change = Change { list, place, item };
    let proved = is_proved_after(alloc, &change)?;
    assert!(rt; proved.is_some());
    Ok(proved == Some(true))
}

#[test]
fn a_change_of_one_item_leaves_no_proof(rt: HostRuntime) -> Result<(), Fail> {
    // The join without a change is proved.
    assert!(rt; is_proved_with(&rt, rt.alloc(), Join, 0, Some(1))?);
    for (name, list, place, item) in &CHANGES {
        assert!(rt;
            !is_proved_with(&rt, rt.alloc(), *list, *place, *item)?,
            "{name}"
        );
    }
    Ok(())
}
