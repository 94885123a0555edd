/// What a graph is, how many vertices it has, its edges as ends and weight, whether it has a
/// perfect matching, and for each vertex the edge that matches it, or 1 for those of the barrier
/// and 0 for others.
pub type Run = (
    &'static str,
    u32,
    &'static [(u32, u32, i64)],
    bool,
    &'static [u32],
);

/// Graphs with one answer each.
pub const RUNS: [Run; 7] = [
    ("no vertex", 0, &[], true, &[]),
    ("one vertex, whose barrier is empty", 1, &[], false, &[0]),
    (
        "two triangles and a heavy edge between",
        6,
        &[
            (1, 2, 1),
            (2, 3, 1),
            (1, 3, 1),
            (4, 5, 1),
            (5, 6, 1),
            (4, 6, 1),
            (3, 4, 10),
        ],
        true,
        &[1, 1, 7, 7, 5, 5],
    ),
    (
        "two triangles with no edge between, whose barrier is empty",
        6,
        &[
            (1, 2, 4),
            (2, 3, 4),
            (1, 3, 4),
            (4, 5, 4),
            (5, 6, 4),
            (4, 6, 4),
        ],
        false,
        &[0, 0, 0, 0, 0, 0],
    ),
    (
        "a square whose lighter pair is taken",
        4,
        &[(1, 2, 5), (2, 3, -3), (3, 4, 5), (4, 1, 2)],
        true,
        &[4, 2, 2, 4],
    ),
    (
        "a star, whose middle is the barrier",
        4,
        &[(1, 2, 0), (1, 3, 0), (1, 4, 0)],
        false,
        &[1, 0, 0, 0],
    ),
    (
        "three triangles, each joined to vertex 1",
        10,
        &[
            (2, 3, 0),
            (3, 4, 0),
            (2, 4, 0),
            (5, 6, 0),
            (6, 7, 0),
            (5, 7, 0),
            (8, 9, 0),
            (9, 10, 0),
            (8, 10, 0),
            (1, 2, 0),
            (1, 5, 0),
            (1, 8, 0),
        ],
        false,
        &[1, 0, 0, 0, 0, 0, 0, 0, 0, 0],
    ),
];
