use mb_problem::Kind;

/// An instance, and how many vertices and edges its graph has.
type Sized = (Kind, &'static [u8], (u64, u64));

pub const SIZES: [Sized; 13] = [
    (Kind::Match, b"p edge 4096 0\n", (8192, 4096)),
    (
        Kind::BMatch,
        b"p edge 2 1\nn 1 2049\nn 2 2049\ne 1 2 1\n",
        (4098, 4_198_401),
    ),
    (
        Kind::BMatch,
        b"p edge 2 1\nn 1 1024\nn 2 1024\ne 1 2 1\n",
        (2048, 1_048_576),
    ),
    (
        Kind::CapMatch,
        b"p edge 2 1\nn 1 2\nn 2 2\ne 1 2 4 1\n",
        (6, 5),
    ),
    (Kind::Postman, b"p edge 3 2\ne 1 2 4\ne 2 3 6\n", (4, 3)),
    (
        Kind::Path,
        b"p edge 3 3\nn 1 1\nn 3 1\ne 1 2 3\ne 2 3 -1\ne 1 3 4\n",
        (8, 10),
    ),
    (Kind::Match, b"p edge 2 2\ne 1 1 5\ne 1 2 3\n", (4, 4)),
    (Kind::BMatch, b"p edge 1 1\nn 1 4\ne 1 1 5\n", (4, 6)),
    (Kind::Interval, b"p edge 1 1\nn 1 2 2\ne 1 1 3\n", (12, 24)),
    (Kind::Interval, LIGHTER, (12, 14)),
    (Kind::Interval, BETWEEN, (16, 19)),
    (Kind::OddPath, WAYS, (6, 7)),
    (Kind::EvenPath, WAYS, (6, 7)),
];

/// An instance, and its certificate graph.
pub struct Case {
    pub kind: Kind,
    pub text: &'static [u8],
    pub vertices: u32,
    pub edges: &'static [(u32, u32, i64)],
}

/// The middle vertex has degree 1 or 2, and the others 0 or 1.
pub const BETWEEN: &[u8] = b"p edge 3 2\nn 1 0 1\nn 2 1 2\nn 3 0 1\ne 1 2 4\ne 2 3 -1\n";

const PARALLEL: &[u8] = b"p edge 2 2\ne 1 2 5\ne 1 2 7\n";

/// One edge with capacity 1, one without a capacity, and one with capacity 0.
const CAPACITIES: &[u8] = b"p edge 2 3\nn 1 2\nn 2 2\ne 1 2 4 1\ne 1 2 7\ne 2 1 -1 0\n";

const FACTORS: &[u8] = b"p edge 2 3\nn 1 2\nn 2 2\ne 1 2 4\ne 1 2 7\ne 2 1 -1\n";

/// The middle vertex has value 2.
const PATH: &[u8] = b"p edge 3 2\nn 2 2\ne 1 2 4\ne 3 2 -1\n";

/// Two edges between odd vertices, and a third vertex without an edge.
const ODD_ENDS: &[u8] = b"p edge 3 2\nn 1 1\nn 2 3\ne 1 2 5\ne 2 1 -3\n";

const TRIANGLE: &[u8] = b"p edge 3 3\ne 1 2 -1\ne 2 3 -1\ne 1 3 1\n";

/// A loop beside an edge.
const BESIDE: &[u8] = b"p edge 2 2\ne 1 1 9\ne 1 2 3\n";

/// The same where each copy of vertex 1 is joined to the others, and to the copy of vertex 2.
const COPIED: &[u8] = b"p edge 2 2\nn 1 3\ne 1 1 9\ne 1 2 3\n";

/// A loop that can be used once.
const AROUND: &[u8] = b"p edge 1 1\nn 1 2\ne 1 1 5\n";

/// A loop at one of two odd vertices.
const ODD_LOOP: &[u8] = b"p edge 2 2\nn 1 1\nn 2 1\ne 2 2 -1\ne 1 2 5\n";

/// Two edges, each of degree 0 or 1 at its ends.
const LIGHTER: &[u8] = b"p edge 2 2\ne 1 2 1\ne 1 2 5\n";

const EQUAL: &[u8] = b"p edge 2 2\ne 1 2 3\ne 1 2 3\n";

/// A way of three edges, and one of two.
pub const WAYS: &[u8] = b"p edge 4 4\nn 1 1\nn 4 1\ne 1 2 1\ne 2 3 1\ne 3 4 1\ne 1 3 5\n";

/// Two parallel edges from the lesser end to the middle, and a loop at a vertex off the path.
const PARALLEL_WAYS: &[u8] = b"p edge 4 4\nn 2 1\nn 3 1\ne 2 1 4\ne 2 1 6\ne 1 3 5\ne 4 4 2\n";

/// One edge between the ends, and two between the other vertices.
const ASIDE: &[u8] = b"p edge 4 3\nn 1 1\nn 2 1\ne 1 2 7\ne 3 4 2\ne 3 4 0\n";

pub const GRAPHS: [Case; 23] = [
    Case {
        kind: Kind::Match,
        text: b"p edge 2 1\ne 1 2 -5\n",
        vertices: 4,
        edges: &[(1, 2, 5), (3, 4, 5), (1, 3, 0), (2, 4, 0)],
    },
    Case {
        kind: Kind::BMatch,
        text: b"p edge 2 1\nn 1 2\nn 2 2\ne 1 2 4\n",
        vertices: 4,
        edges: &[(1, 3, 4), (1, 4, 4), (2, 3, 4), (2, 4, 4)],
    },
    Case {
        kind: Kind::CapMatch,
        text: b"p edge 2 1\nn 1 2\nn 2 2\ne 1 2 4 1\n",
        vertices: 6,
        edges: &[(1, 5, 4), (2, 5, 4), (5, 6, 0), (6, 3, 0), (6, 4, 0)],
    },
    Case {
        kind: Kind::FFactor,
        text: b"p edge 2 1\ne 1 2 3\n",
        vertices: 4,
        edges: &[(1, 3, 3), (3, 4, 0), (4, 2, 0)],
    },
    Case {
        kind: Kind::TJoin,
        text: TRIANGLE,
        vertices: 6,
        edges: &[
            (1, 3, -1),
            (4, 5, -1),
            (2, 6, 1),
            (1, 2, 0),
            (3, 4, 0),
            (5, 6, 0),
        ],
    },
    Case {
        kind: Kind::Postman,
        text: b"p edge 3 2\ne 1 2 4\ne 2 3 6\n",
        vertices: 4,
        edges: &[(1, 2, 4), (3, 4, 6), (2, 3, 0)],
    },
    // Vertices 3 and 8 are the spares.
    Case {
        kind: Kind::TJoin,
        text: b"p edge 3 3\nn 1 1\nn 3 1\ne 1 2 3\ne 2 3 -1\ne 1 3 4\n",
        vertices: 8,
        edges: &[
            (1, 4, 3),
            (5, 6, -1),
            (2, 7, 4),
            (1, 2, 0),
            (1, 3, 0),
            (2, 3, 0),
            (4, 5, 0),
            (6, 7, 0),
            (6, 8, 0),
            (7, 8, 0),
        ],
    },
    Case {
        kind: Kind::Match,
        text: PARALLEL,
        vertices: 4,
        edges: &[
            (1, 2, -5),
            (3, 4, -5),
            (1, 2, -7),
            (3, 4, -7),
            (1, 3, 0),
            (2, 4, 0),
        ],
    },
    Case {
        kind: Kind::BMatch,
        text: PATH,
        vertices: 4,
        edges: &[(1, 2, 4), (1, 3, 4), (4, 2, -1), (4, 3, -1)],
    },
    Case {
        kind: Kind::CapMatch,
        text: CAPACITIES,
        vertices: 10,
        edges: &[
            (1, 5, 4),
            (2, 5, 4),
            (5, 6, 0),
            (6, 3, 0),
            (6, 4, 0),
            (1, 7, 7),
            (1, 8, 7),
            (2, 7, 7),
            (2, 8, 7),
            (7, 9, 0),
            (7, 10, 0),
            (8, 9, 0),
            (8, 10, 0),
            (9, 3, 0),
            (9, 4, 0),
            (10, 3, 0),
            (10, 4, 0),
        ],
    },
    Case {
        kind: Kind::FFactor,
        text: FACTORS,
        vertices: 10,
        edges: &[
            (1, 5, 4),
            (2, 5, 4),
            (5, 6, 0),
            (6, 3, 0),
            (6, 4, 0),
            (1, 7, 7),
            (2, 7, 7),
            (7, 8, 0),
            (8, 3, 0),
            (8, 4, 0),
            (3, 9, -1),
            (4, 9, -1),
            (9, 10, 0),
            (10, 1, 0),
            (10, 2, 0),
        ],
    },
    // A spare stands at each end.
    Case {
        kind: Kind::TJoin,
        text: ODD_ENDS,
        vertices: 6,
        edges: &[
            (1, 4, 5),
            (5, 2, -3),
            (1, 2, 0),
            (1, 3, 0),
            (2, 3, 0),
            (4, 5, 0),
            (4, 6, 0),
            (5, 6, 0),
        ],
    },
    Case {
        kind: Kind::Perfect,
        text: BESIDE,
        vertices: 2,
        edges: &[(1, 2, 3)],
    },
    Case {
        kind: Kind::Gallai,
        text: BESIDE,
        vertices: 2,
        edges: &[(1, 2, 0)],
    },
    Case {
        kind: Kind::Match,
        text: BESIDE,
        vertices: 4,
        edges: &[(1, 2, -3), (3, 4, -3), (1, 3, 0), (2, 4, 0)],
    },
    Case {
        kind: Kind::BMatch,
        text: COPIED,
        vertices: 4,
        edges: &[
            (1, 2, 9),
            (1, 3, 9),
            (2, 3, 9),
            (1, 4, 3),
            (2, 4, 3),
            (3, 4, 3),
        ],
    },
    Case {
        kind: Kind::FFactor,
        text: AROUND,
        vertices: 4,
        edges: &[(1, 3, 5), (2, 3, 5), (3, 4, 0), (4, 1, 0), (4, 2, 0)],
    },
    // Two ports of a loop, with two edges between them.
    Case {
        kind: Kind::Postman,
        text: b"p edge 1 1\ne 1 1 4\n",
        vertices: 2,
        edges: &[(1, 2, 4), (1, 2, 0)],
    },
    Case {
        kind: Kind::TJoin,
        text: ODD_LOOP,
        vertices: 4,
        edges: &[(2, 3, -1), (1, 4, 5), (2, 3, 0), (2, 4, 0), (3, 4, 0)],
    },
    Case {
        kind: Kind::Interval,
        text: b"p edge 2 1\nn 1 1 2\nn 2 0 1\ne 1 2 3\n",
        vertices: 10,
        edges: &[
            (1, 4, 3),
            (2, 4, 3),
            (4, 5, 0),
            (5, 3, 0),
            (6, 9, 3),
            (7, 9, 3),
            (9, 10, 0),
            (10, 8, 0),
            (2, 7, 0),
            (3, 8, 0),
        ],
    },
    Case {
        kind: Kind::OddPath,
        text: WAYS,
        vertices: 6,
        edges: &[
            (1, 2, 1),
            (2, 3, 1),
            (5, 6, 1),
            (3, 4, 1),
            (1, 3, 5),
            (2, 5, 0),
            (3, 6, 0),
        ],
    },
    Case {
        kind: Kind::EvenPath,
        text: WAYS,
        vertices: 6,
        edges: &[
            (1, 2, 1),
            (2, 3, 1),
            (4, 5, 1),
            (5, 6, 1),
            (1, 3, 5),
            (2, 4, 0),
            (3, 5, 0),
        ],
    },
    // A loop has no copy.
    Case {
        kind: Kind::EvenPath,
        text: PARALLEL_WAYS,
        vertices: 6,
        edges: &[(2, 1, 4), (2, 1, 6), (4, 5, 5), (1, 4, 0), (3, 6, 0)],
    },
];

/// An instance, the edges of a perfect matching of its graph, and the counts that these stand for.
type Back = (Kind, &'static [u8], &'static [u32], &'static [u32]);

pub const ANSWERS: [Back; 19] = [
    (
        Kind::Match,
        b"p edge 4 3\ne 1 2 2\ne 2 3 3\ne 3 4 2\n",
        &[1, 5, 2, 6],
        &[1, 0, 1],
    ),
    (Kind::Match, b"p edge 2 1\ne 1 2 -5\n", &[3, 4], &[0]),
    (
        Kind::BMatch,
        b"p edge 2 1\nn 1 2\nn 2 2\ne 1 2 4\n",
        &[1, 4],
        &[2],
    ),
    (
        Kind::FFactor,
        b"p edge 4 6\nn 1 2\nn 2 2\nn 3 2\nn 4 2\ne 1 2 1\ne 2 3 1\ne 3 4 1\ne 1 4 1\ne 1 3 5\ne 2 4 5\n",
        &[1, 4, 7, 9, 12, 14, 17, 20, 23, 28],
        &[1, 1, 1, 1, 0, 0],
    ),
    // The second copy weighs more.
    (Kind::Match, PARALLEL, &[1, 4], &[0, 1]),
    // Both copies weigh the same.
    (Kind::Match, PARALLEL, &[2, 1], &[1, 0]),
    (Kind::BMatch, PATH, &[2, 3], &[1, 1]),
    (Kind::CapMatch, CAPACITIES, &[1, 4, 8, 15, 13], &[1, 1, 0]),
    (Kind::CapMatch, CAPACITIES, &[17, 14, 9, 6, 3], &[0, 2, 0]),
    (Kind::FFactor, FACTORS, &[1, 4, 8, 12, 15], &[1, 0, 1]),
    (Kind::Perfect, BESIDE, &[1], &[0, 1]),
    (Kind::Match, BESIDE, &[1, 2], &[0, 1]),
    (Kind::BMatch, COPIED, &[1, 6], &[1, 1]),
    (Kind::FFactor, AROUND, &[1, 5], &[1]),
    // The second half weighs less, and then both weigh the same.
    (
        Kind::Interval,
        BETWEEN,
        &[2, 5, 8, 10, 13, 16, 17, 18],
        &[0, 1],
    ),
    (
        Kind::Interval,
        b"p edge 1 1\nn 1 2 2\ne 1 1 3\n",
        &[1, 8, 10, 13, 20, 22],
        &[1],
    ),
    (Kind::Interval, LIGHTER, &[2, 4, 6, 7, 9, 11], &[1, 0]),
    (Kind::Interval, EQUAL, &[2, 4, 6, 7, 9, 11], &[0, 1]),
    (Kind::Interval, EQUAL, &[1, 3, 5, 8, 10, 12], &[1, 0]),
];

/// The same where the answer is a join.
pub const JOINS: [Back; 6] = [
    (Kind::TJoin, TRIANGLE, &[3, 1, 2], &[1, 2, 3]),
    (Kind::TJoin, ODD_ENDS, &[4, 2, 7], &[2]),
    (
        Kind::Postman,
        b"p edge 3 2\ne 1 2 4\ne 2 3 6\n",
        &[1, 2],
        &[1, 2],
    ),
    // Of the two edges between the ports of a loop the first alone is it.
    (Kind::TJoin, ODD_LOOP, &[2, 1], &[1, 2]),
    (Kind::TJoin, ODD_LOOP, &[2, 3], &[2]),
    (Kind::Postman, b"p edge 1 1\ne 1 1 4\n", &[2], &[]),
];

/// An instance, the edges of a perfect matching of its graph, and the path that these stand for:
/// its start and its edges.
type Along = (Kind, &'static [u8], &'static [u32], u32, &'static [u32]);

pub const PATHS: [Along; 7] = [
    (Kind::OddPath, WAYS, &[1, 3, 4], 1, &[1, 2, 3]),
    (Kind::EvenPath, WAYS, &[5, 4, 6], 1, &[4, 3]),
    (Kind::EvenPath, PARALLEL_WAYS, &[1, 3, 5], 2, &[1, 3]),
    (Kind::EvenPath, PARALLEL_WAYS, &[5, 3, 2], 2, &[2, 3]),
    // A circuit of two edges, both copies of one edge, and vertices off the path are left.
    (Kind::OddPath, ASIDE, &[1, 2, 5], 1, &[1]),
    (Kind::OddPath, ASIDE, &[1, 2, 3], 1, &[1]),
    (Kind::OddPath, ASIDE, &[1, 6, 7], 1, &[1]),
];
