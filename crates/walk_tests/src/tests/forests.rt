use dimacs_read::read;
use join_check::{Levels, is_proved};
use mb_base::{EdgeId, Sequence};
use mb_problem::{Kind, Parity};
use std::alloc::Global;
use std::test::Fail;

/// A forest, as the lists of its lengths and places.
struct Forest {
    lengths: &'static [i64],
    befores: &'static [u32],
    nodes: &'static [u32],
    heights: &'static [i64],
    meets: &'static [u32],
}

/// A text, the edges of a join, a forest, and whether it proves that no join weighs less.
struct Row {
    text: &'static [u8],
    join: &'static [u32],
    forest: Forest,
    wanted: bool,
}

/// Two vertices of odd value, and two edges between them.
pub const PAIR: &[u8] = b"p edge 2 2\nn 1 1\nn 2 1\ne 1 2 1\ne 1 2 4\n";

const HEAVY_PAIR: &[u8] = b"p edge 2 2\nn 1 1\nn 2 1\ne 1 2 1\ne 1 2 5\n";

/// Two vertices of even value, and two edges between them, of which one turns.
const TURNED: &[u8] = b"p edge 2 2\ne 1 2 -1\ne 1 2 3\n";

/// A leaf for each of two vertices, of length 1.
const LEAVES: Forest = Forest {
    lengths: &[0, 1, 1],
    befores: &[0, 0, 1],
    nodes: &[1, 2],
    heights: &[1, 1],
    meets: &[0, 0],
};

const ROWS: [Row; 17] = [
    // A leaf for each end.
    Row {
        text: PAIR,
        join: &[1],
        forest: LEAVES,
        wanted: true,
    },
    // All length at one end.
    Row {
        text: PAIR,
        join: &[1],
        forest: Forest {
            lengths: &[0, 2, 0],
            befores: &[0, 0, 1],
            nodes: &[1, 2],
            heights: &[2, 0],
            meets: &[0, 0],
        },
        wanted: true,
    },
    // The empty set after a turn.
    Row {
        text: TURNED,
        join: &[],
        forest: LEAVES,
        wanted: true,
    },
    // No vertex is odd, and no weight negative.
    Row {
        text: b"p edge 2 1\ne 1 2 3\n",
        join: &[],
        forest: Forest {
            lengths: &[0],
            befores: &[0],
            nodes: &[0, 0],
            heights: &[0, 0],
            meets: &[0],
        },
        wanted: true,
    },
    // Nodes that hold an even number of odd vertices.
    Row {
        text: HEAVY_PAIR,
        join: &[2],
        forest: Forest {
            lengths: &[0, 1, 1, 8],
            befores: &[0, 0, 1, 0],
            nodes: &[1, 2],
            heights: &[1, 1],
            meets: &[3, 3],
        },
        wanted: false,
    },
    Row {
        text: HEAVY_PAIR,
        join: &[2],
        forest: Forest {
            lengths: &[0, 1, 1, 8],
            befores: &[0, 0, 1, 2],
            nodes: &[1, 2],
            heights: &[1, 1],
            meets: &[0, 0],
        },
        wanted: false,
    },
    // Nodes that cross.
    Row {
        text: PAIR,
        join: &[2],
        forest: Forest {
            lengths: &[0, 4, 0, 4],
            befores: &[0, 0, 0, 1],
            nodes: &[1, 2],
            heights: &[4, 0],
            meets: &[2, 2],
        },
        wanted: false,
    },
    // A meet that holds one end alone.
    Row {
        text: PAIR,
        join: &[2],
        forest: Forest {
            lengths: &[0, 4, 4],
            befores: &[0, 0, 1],
            nodes: &[1, 2],
            heights: &[4, 4],
            meets: &[1, 0],
        },
        wanted: false,
    },
    // An odd vertex below the top of its node.
    Row {
        text: PAIR,
        join: &[2],
        forest: Forest {
            lengths: &[0, 1, 7],
            befores: &[0, 0, 1],
            nodes: &[1, 2],
            heights: &[1, 1],
            meets: &[0, 0],
        },
        wanted: false,
    },
    // Edges that are too short: one end outside, and two trees.
    Row {
        text: PAIR,
        join: &[2],
        forest: Forest {
            lengths: &[0, 8],
            befores: &[0, 0],
            nodes: &[1, 0],
            heights: &[8, 0],
            meets: &[0, 0],
        },
        wanted: false,
    },
    Row {
        text: PAIR,
        join: &[2],
        forest: Forest {
            lengths: &[0, 4, 4],
            befores: &[0, 0, 1],
            nodes: &[1, 2],
            heights: &[4, 4],
            meets: &[0, 0],
        },
        wanted: false,
    },
    // A turned edge that is too short.
    Row {
        text: TURNED,
        join: &[1, 2],
        forest: Forest {
            lengths: &[0, 3, 3],
            befores: &[0, 0, 1],
            nodes: &[1, 2],
            heights: &[3, 3],
            meets: &[0, 0],
        },
        wanted: false,
    },
    // Lengths that don't pay for the join.
    Row {
        text: PAIR,
        join: &[2],
        forest: LEAVES,
        wanted: false,
    },
    // A join of other vertices, and an edge of a join missing: all other tests pass.
    Row {
        text: b"p edge 3 2\nn 1 1\nn 3 1\ne 1 2 1\ne 2 3 1\n",
        join: &[1],
        forest: Forest {
            lengths: &[0, 1, 1],
            befores: &[0, 0, 1],
            nodes: &[1, 0, 2],
            heights: &[1, 0, 1],
            meets: &[0, 0],
        },
        wanted: false,
    },
    Row {
        text: b"p edge 2 1\nn 1 1\nn 2 1\ne 1 2 0\n",
        join: &[],
        forest: Forest {
            lengths: &[0],
            befores: &[0],
            nodes: &[0, 0],
            heights: &[0, 0],
            meets: &[0],
        },
        wanted: false,
    },
    // No join, and a list that is too short.
    Row {
        text: PAIR,
        join: &[1, 2],
        forest: LEAVES,
        wanted: false,
    },
    Row {
        text: PAIR,
        join: &[1],
        forest: Forest {
            lengths: &[0, 1, 1],
            befores: &[0, 0],
            nodes: &[1, 2],
            heights: &[1, 1],
            meets: &[0, 0],
        },
        wanted: false,
    },
];

/// Whether a forest proves that these edges are a join of least weight; None if the text isn't an
/// instance.
pub fn proves(
    alloc: Global,
    text: &[u8],
    join: &[u32],
    levels: &Levels,
) -> Result<Option<bool>, Fail> {
    let Ok((instance, _)) = read(alloc, text, Kind::TJoin) else {
        return Ok(None);
    };
    let mut edges = Vec::new(alloc);
    for number in join {
        edges.push(EdgeId::new(*number))?;
    }
    Ok(Some(is_proved(alloc, &instance, &Parity::Values, &edges, levels)?))
}

/// Whether the outcome for a row is the one that is wanted.
fn decides(alloc: Global, row: &Row) -> Result<bool, Fail> {
    let levels = Levels {
        lengths: Sequence::from_vec(Vec::from_slice(alloc, row.forest.lengths)?),
        befores: Sequence::from_vec(Vec::from_slice(alloc, row.forest.befores)?),
        nodes: Sequence::from_vec(Vec::from_slice(alloc, row.forest.nodes)?),
        heights: Sequence::from_vec(Vec::from_slice(alloc, row.forest.heights)?),
        meets: Sequence::from_vec(Vec::from_slice(alloc, row.forest.meets)?),
    };
    Ok(proves(alloc, row.text, row.join, &levels)? == Some(row.wanted))
}

#[test]
fn forests_that_prove_joins(rt: HostRuntime) -> Result<(), Fail> {
    for row in &ROWS {
        assert!(rt; decides(rt.alloc(), row)?);
    }
    Ok(())
}
