/// What an instance shows, and its text. There are few enough counts to try them all.
pub type Row = (&'static str, &'static str);

/// Perfect matchings of least weight.
pub const PERFECT: [Row; 16] = [
    ("no vertex", "p edge 0 0"),
    ("one vertex", "p edge 1 0"),
    ("two vertices and no edge", "p edge 2 0"),
    ("an edge", "p edge 2 1\ne 1 2 7"),
    ("parallel edges", "p edge 2 3\ne 1 2 5\ne 2 1 3\ne 1 2 4"),
    (
        "a value and a capacity don't count",
        "p edge 2 1\ne 1 2 7 0\nn 1 3",
    ),
    (
        "the greatest and the least weight",
        "p edge 4 4\ne 1 2 1000000000000\ne 3 4 -1000000000000\ne 1 3 -1000000000000\ne 2 4 1000000000000",
    ),
    ("a star", "p edge 4 3\ne 1 2\ne 1 3\ne 1 4"),
    (
        "two triangles and a heavy edge",
        "p edge 6 7\ne 1 2 1\ne 2 3 1\ne 1 3 1\ne 4 5 1\ne 5 6 1\ne 4 6 1\ne 3 4 10",
    ),
    (
        "three triangles at a vertex",
        "p edge 10 12\ne 1 2\ne 2 3\ne 1 3\ne 4 5\ne 5 6\ne 4 6\ne 7 8\ne 8 9\ne 7 9\ne 3 10\ne 6 10\ne 9 10",
    ),
    (
        "a triangle within a circuit of five, with a leaf",
        "p edge 6 8\ne 1 2 1\ne 2 3 1\ne 1 3 1\ne 3 4 2\ne 4 5 1\ne 5 1 2\ne 5 6 9\ne 2 6 8",
    ),
    (
        "an inner edge that is light",
        "p edge 4 3\ne 1 2 1000000000000\ne 2 3 -1000000000000\ne 3 4 1000000000000",
    ),
    (
        "a prism",
        "p edge 6 9\ne 1 2 2\ne 2 3 2\ne 1 3 2\ne 4 5 2\ne 5 6 2\ne 4 6 2\ne 1 4 9\ne 2 5 8\ne 3 6 7",
    ),
    ("a loop alone", "p edge 1 1\ne 1 1 3"),
    (
        "a light loop before an edge",
        "p edge 2 2\ne 1 1 -9\ne 1 2 7",
    ),
    (
        "loops between edges",
        "p edge 4 6\ne 1 2 5\ne 2 2 -9\ne 3 4 5\ne 1 3 2\ne 3 3 1\ne 2 4 2",
    ),
];

/// Matchings of greatest weight.
pub const MATCH: [Row; 13] = [
    ("no vertex", "p edge 0 0"),
    ("one vertex", "p edge 1 0"),
    ("no edge", "p edge 3 0"),
    (
        "weights below 0 alone",
        "p edge 3 3\ne 1 2 -1\ne 2 3 -1000000000000\ne 1 3 -5",
    ),
    ("weights of 0", "p edge 3 2\ne 1 2 0\ne 2 3 0"),
    ("parallel edges", "p edge 2 3\ne 1 2 5\ne 2 1 9\ne 1 2 -4"),
    ("a path of four", "p edge 4 3\ne 1 2 3\ne 2 3 7\ne 3 4 3"),
    (
        "the greatest weights",
        "p edge 4 4\ne 1 2 1000000000000\ne 3 4 1000000000000\ne 2 3 -1000000000000\ne 1 4 1",
    ),
    (
        "a triangle with a leaf at each corner",
        "p edge 6 6\ne 1 2 6\ne 2 3 6\ne 1 3 6\ne 1 4 4\ne 2 5 3\ne 3 6 2",
    ),
    (
        "a circuit of five",
        "p edge 5 5\ne 1 2 3\ne 2 3 1\ne 3 4 4\ne 4 5 1\ne 5 1 5",
    ),
    (
        "a value and a capacity don't count",
        "p edge 2 1\ne 1 2 7 0\nn 1 0\nn 2 3",
    ),
    ("a loop alone", "p edge 1 1\ne 1 1 9"),
    (
        "heavy loops between edges",
        "p edge 3 5\ne 1 1 9\ne 1 2 3\ne 2 2 8\ne 2 3 4\ne 3 3 1",
    ),
];

/// Matchings of most edges: texts of instances, and those of their documents.
pub const GREATEST: [Row; 4] = [
    ("p edge 0 0", "s OPTIMAL gallai 0\nd 0\nu 0\n"),
    ("p edge 2 1\ne 1 2", "s OPTIMAL gallai 1\nx 1 1\nd 0\nu 0\n"),
    (
        "p edge 3 0",
        "s OPTIMAL gallai 0\nd 3 1 2 3\nu 0\nr 1 0\nr 2 0\nr 3 0\n",
    ),
    (
        "p edge 3 4\ne 3 3 9\ne 1 1\ne 2 2 -1\ne 1 2 5",
        "s OPTIMAL gallai 1\nx 4 1\nd 1 3\nu 0\nr 3 0\n",
    ),
];

/// The vertices that some matching of most edges misses, and their neighbours: what an instance
/// shows, its text, and both sets.
pub const MISSED: [(&'static str, &'static str, &'static [i64], &'static [i64]); 7] = [
    (
        "a circuit of five",
        "p edge 5 5\ne 1 2\ne 2 3\ne 3 4\ne 4 5\ne 5 1",
        &[1, 2, 3, 4, 5],
        &[],
    ),
    (
        "a star",
        "p edge 4 3\ne 1 2\ne 1 3\ne 1 4",
        &[2, 3, 4],
        &[1],
    ),
    (
        "a star with loops before its edges",
        "p edge 4 5\ne 1 1\ne 2 2\ne 1 2\ne 1 3\ne 1 4",
        &[2, 3, 4],
        &[1],
    ),
    (
        "a star and an edge",
        "p edge 5 3\ne 1 2\ne 3 4\ne 3 5",
        &[4, 5],
        &[3],
    ),
    (
        "a circuit of four and one of three",
        "p edge 7 7\ne 1 2\ne 2 3\ne 3 4\ne 4 1\ne 5 6\ne 6 7\ne 7 5",
        &[5, 6, 7],
        &[],
    ),
    (
        "three triangles at a vertex",
        "p edge 10 12\ne 1 2\ne 2 3\ne 1 3\ne 4 5\ne 5 6\ne 4 6\ne 7 8\ne 8 9\ne 7 9\ne 3 10\ne 6 10\ne 9 10",
        &[1, 2, 3, 4, 5, 6, 7, 8, 9],
        &[10],
    ),
    (
        "a path of three with an edge at its middle",
        "p edge 5 4\ne 1 2\ne 2 3\ne 2 4\ne 4 5",
        &[1, 3],
        &[2],
    ),
];

/// b-matchings of least weight.
pub const BMATCH: [Row; 16] = [
    ("no vertex", "p edge 0 0"),
    ("a value of 0 alone", "p edge 1 0\nn 1 0"),
    ("a value of 1 and no edge", "p edge 1 0"),
    (
        "an edge used three times",
        "p edge 2 1\ne 1 2 -7\nn 1 3\nn 2 3",
    ),
    (
        "different values at an edge",
        "p edge 2 1\ne 1 2 5\nn 1 3\nn 2 2",
    ),
    (
        "parallel edges",
        "p edge 2 2\ne 1 2 5\ne 2 1 4\nn 1 2\nn 2 2",
    ),
    (
        "a triangle, each vertex twice",
        "p edge 3 3\ne 1 2 1\ne 2 3 2\ne 1 3 3\nn 1 2\nn 2 2\nn 3 2",
    ),
    (
        "a triangle, each vertex once",
        "p edge 3 3\ne 1 2 1\ne 2 3 2\ne 1 3 3",
    ),
    (
        "a vertex of value 0 among others",
        "p edge 3 3\ne 1 2 -9\ne 2 3 4\ne 1 3 -9\nn 1 0\nn 2 2\nn 3 2",
    ),
    (
        "the greatest and the least weight",
        "p edge 3 3\ne 1 2 1000000000000\ne 2 3 -1000000000000\ne 1 3 1000000000000\nn 1 1\nn 2 2\nn 3 3",
    ),
    (
        "capacities don't count",
        "p edge 2 1\ne 1 2 3 0\nn 1 2\nn 2 2",
    ),
    (
        "a star with a heavy middle",
        "p edge 4 3\ne 1 2 3\ne 1 3 -2\ne 1 4 1\nn 1 3\nn 2 1\nn 3 1\nn 4 1",
    ),
    ("a loop at a value of 2", "p edge 1 1\ne 1 1 5\nn 1 2"),
    ("a loop at a value of 3", "p edge 1 1\ne 1 1 5\nn 1 3"),
    ("parallel loops", "p edge 1 2\ne 1 1 5\ne 1 1 3\nn 1 4"),
    (
        "loops and an edge",
        "p edge 2 3\ne 1 1 -3\ne 1 2 4\ne 2 2 1\nn 1 4\nn 2 2",
    ),
];

/// The same with capacities.
pub const CAPMATCH: [Row; 15] = [
    ("no vertex", "p edge 0 0"),
    ("a value of 0 alone", "p edge 1 0\nn 1 0"),
    ("a capacity of 0", "p edge 2 1\ne 1 2 3 0"),
    (
        "a capacity of 0 and values of 0",
        "p edge 2 1\ne 1 2 3 0\nn 1 0\nn 2 0",
    ),
    (
        "a capacity below the values",
        "p edge 2 1\ne 1 2 3 1\nn 1 2\nn 2 2",
    ),
    (
        "a capacity above the values",
        "p edge 2 1\ne 1 2 3 4096\nn 1 2\nn 2 2",
    ),
    ("no capacity", "p edge 2 1\ne 1 2 -3\nn 1 2\nn 2 2"),
    (
        "parallel edges",
        "p edge 2 3\ne 1 2 1 1\ne 2 1 4 1\ne 1 2 9\nn 1 3\nn 2 3",
    ),
    (
        "a capacity that turns it",
        "p edge 4 4\ne 1 2 1 1\ne 2 3 5 2\ne 3 4 1 2\ne 4 1 5 1\nn 1 2\nn 2 2\nn 3 2\nn 4 2",
    ),
    (
        "a triangle, each vertex twice",
        "p edge 3 3\ne 1 2 -5 1\ne 2 3 2 1\ne 1 3 3 1\nn 1 2\nn 2 2\nn 3 2",
    ),
    (
        "a triangle with too little",
        "p edge 3 3\ne 1 2 -5 1\ne 2 3 2 0\ne 1 3 3 1\nn 1 2\nn 2 2\nn 3 2",
    ),
    (
        "the greatest and the least weight",
        "p edge 3 3\ne 1 2 1000000000000 1\ne 2 3 -1000000000000\ne 1 3 1000000000000 2\nn 1 1\nn 2 2\nn 3 3",
    ),
    ("a loop of capacity 0", "p edge 1 1\ne 1 1 2 0\nn 1 2"),
    ("a loop at a value of 1", "p edge 2 2\ne 1 1 -9 4\ne 1 2 3"),
    (
        "loops and an edge",
        "p edge 2 3\ne 1 1 -5 1\ne 1 2 3\ne 2 2 -2 2\nn 1 4\nn 2 4",
    ),
];

/// Counts of least weight with degrees between two bounds. A vertex without bounds has 0 and 1.
pub const INTERVAL: [Row; 27] = [
    ("no vertex", "p edge 0 0"),
    ("no edge", "p edge 2 0"),
    ("a least degree and no edge", "p edge 1 0\nn 1 1 1"),
    (
        "a least degree at a vertex without edges",
        "p edge 3 1\ne 1 2 -1\nn 3 1 2",
    ),
    ("no bounds, and an edge below 0", "p edge 2 1\ne 1 2 -7"),
    ("no bounds, and an edge above 0", "p edge 2 1\ne 1 2 7"),
    (
        "a greatest degree of 0",
        "p edge 2 1\ne 1 2 -7\nn 1 0 0\nn 2 0 3",
    ),
    (
        "an edge used three times",
        "p edge 2 1\ne 1 2 -7\nn 1 0 3\nn 2 2 4",
    ),
    (
        "an edge used as seldom as the bounds let it",
        "p edge 2 1\ne 1 2 5\nn 1 1 3\nn 2 2 4",
    ),
    (
        "bounds that no degree meets",
        "p edge 2 1\ne 1 2 5\nn 1 0 1\nn 2 2 3",
    ),
    (
        "a capacity of 0",
        "p edge 2 1\ne 1 2 -3 0\nn 1 0 2\nn 2 0 2",
    ),
    (
        "a capacity below the least degrees",
        "p edge 2 1\ne 1 2 3 1\nn 1 2 3\nn 2 2 3",
    ),
    (
        "a capacity between the bounds",
        "p edge 2 1\ne 1 2 -3 2\nn 1 1 3\nn 2 0 4",
    ),
    (
        "parallel edges",
        "p edge 2 3\ne 1 2 -1 1\ne 2 1 4 1\ne 1 2 9\nn 1 2 3\nn 2 1 3",
    ),
    (
        "a cover of the vertices by edges",
        "p edge 4 4\ne 1 2 3 1\ne 2 3 1 1\ne 3 4 2 1\ne 1 3 2 1\nn 1 1 2\nn 2 1 2\nn 3 1 3\nn 4 1 1",
    ),
    (
        "a triangle, each vertex once",
        "p edge 3 3\ne 1 2 1\ne 2 3 2\ne 1 3 3\nn 1 1 1\nn 2 1 1\nn 3 1 1",
    ),
    (
        "a triangle, one vertex at most once",
        "p edge 3 3\ne 1 2 1\ne 2 3 2\ne 1 3 3\nn 1 1 1\nn 2 0 1\nn 3 1 1",
    ),
    (
        "a triangle below 0",
        "p edge 3 3\ne 1 2 -5 1\ne 2 3 -2\ne 1 3 -3 1\nn 1 0 2\nn 2 0 1\nn 3 1 3",
    ),
    (
        "a star with a heavy middle",
        "p edge 4 3\ne 1 2 3\ne 1 3 -2\ne 1 4 1\nn 1 1 2\nn 2 0 1\nn 3 0 1\nn 4 1 1",
    ),
    (
        "two triangles and a heavy edge",
        "p edge 6 7\ne 1 2 1\ne 2 3 1\ne 1 3 1\ne 4 5 1\ne 5 6 1\ne 4 6 1\ne 3 4 10\nn 1 1 1\nn 2 1 1\nn 3 1 2\nn 4 1 1\nn 5 1 1\nn 6 1 1",
    ),
    (
        "the greatest and the least weight",
        "p edge 3 3\ne 1 2 1000000000000\ne 2 3 -1000000000000\ne 1 3 1000000000000\nn 1 1 1\nn 2 0 2\nn 3 1 3",
    ),
    ("a loop below 0 and no bounds", "p edge 1 1\ne 1 1 -3"),
    ("a loop and a degree of 2", "p edge 1 1\ne 1 1 3\nn 1 2 2"),
    ("a loop and a degree of 1", "p edge 1 1\ne 1 1 3\nn 1 1 1"),
    ("a loop of capacity 0", "p edge 1 1\ne 1 1 -3 0\nn 1 0 2"),
    (
        "parallel loops",
        "p edge 1 2\ne 1 1 -5 1\ne 1 1 -3\nn 1 1 5",
    ),
    (
        "loops and an edge",
        "p edge 2 3\ne 1 1 -5 1\ne 1 2 3\ne 2 2 -2 2\nn 1 1 4\nn 2 3 4",
    ),
];

/// Factors of least weight.
pub const FFACTOR: [Row; 17] = [
    ("no vertex", "p edge 0 0"),
    ("a value of 0 alone", "p edge 1 0\nn 1 0"),
    ("a value of 1 alone", "p edge 1 0"),
    ("an edge", "p edge 2 1\ne 1 2 -7"),
    (
        "an edge that would be used twice",
        "p edge 2 1\ne 1 2 -7\nn 1 2\nn 2 2",
    ),
    (
        "parallel edges",
        "p edge 2 3\ne 1 2 5\ne 2 1 9\ne 1 2 -4\nn 1 2\nn 2 2",
    ),
    (
        "a circuit of four",
        "p edge 4 5\ne 1 2 1\ne 2 3 1\ne 3 4 1\ne 4 1 1\ne 1 3 -9\nn 1 2\nn 2 2\nn 3 2\nn 4 2",
    ),
    (
        "two triangles",
        "p edge 6 7\ne 1 2 1\ne 2 3 1\ne 1 3 1\ne 4 5 1\ne 5 6 1\ne 4 6 1\ne 3 4 -10\nn 1 2\nn 2 2\nn 3 2\nn 4 2\nn 5 2\nn 6 2",
    ),
    (
        "odd values alone",
        "p edge 3 3\ne 1 2 1\ne 2 3 2\ne 1 3 3\nn 1 1\nn 2 1\nn 3 1",
    ),
    (
        "all four vertices thrice",
        "p edge 4 6\ne 1 2 1\ne 1 3 2\ne 1 4 3\ne 2 3 4\ne 2 4 5\ne 3 4 6\nn 1 3\nn 2 3\nn 3 3\nn 4 3",
    ),
    (
        "a choice of weights",
        "p edge 4 6\ne 1 2 1\ne 1 3 2\ne 1 4 3\ne 2 3 4\ne 2 4 5\ne 3 4 -6\nn 1 2\nn 2 1\nn 3 2\nn 4 1",
    ),
    (
        "a vertex of value 0 among others",
        "p edge 3 3\ne 1 2 -9\ne 2 3 4\ne 1 3 -9\nn 1 0",
    ),
    (
        "the greatest and the least weight",
        "p edge 4 4\ne 1 2 1000000000000\ne 3 4 -1000000000000\ne 1 3 -1000000000000\ne 2 4 1000000000000",
    ),
    ("capacities don't count", "p edge 2 1\ne 1 2 3 0"),
    ("a loop at a value of 2", "p edge 1 1\ne 1 1 5\nn 1 2"),
    (
        "a loop that would be used twice",
        "p edge 1 1\ne 1 1 5\nn 1 4",
    ),
    (
        "a loop and a path",
        "p edge 3 4\ne 1 2 3\ne 2 2 -1\ne 2 3 4\ne 1 3 9\nn 1 1\nn 2 2\nn 3 1",
    ),
];

/// Joins of least weight.
pub const TJOIN: [Row; 15] = [
    ("no vertex", "p edge 0 0"),
    ("no vertex of T", "p edge 3 2\ne 1 2 4\ne 2 3 5"),
    ("an edge below 0 and no vertex of T", "p edge 2 1\ne 1 2 -3"),
    (
        "a circuit below 0 and no vertex of T",
        "p edge 3 3\ne 1 2 -3\ne 2 3 1\ne 1 3 1",
    ),
    ("one vertex of T alone", "p edge 1 0\nn 1 1"),
    (
        "two vertices of T apart",
        "p edge 4 2\ne 1 2 1\ne 3 4 1\nn 1 1\nn 3 1",
    ),
    ("an edge", "p edge 2 1\ne 1 2 7\nn 1 1\nn 2 3"),
    (
        "parallel edges below 0",
        "p edge 2 3\ne 1 2 -5\ne 2 1 -3\ne 1 2 -4\nn 1 1\nn 2 1",
    ),
    (
        "a way round",
        "p edge 4 4\ne 1 2 9\ne 2 3 1\ne 3 4 1\ne 4 1 1\nn 1 1\nn 2 1",
    ),
    (
        "all four vertices of a circuit",
        "p edge 4 4\ne 1 2 3\ne 2 3 1\ne 3 4 4\ne 4 1 1\nn 1 1\nn 2 1\nn 3 1\nn 4 1",
    ),
    (
        "a star with an odd middle",
        "p edge 4 3\ne 1 2 3\ne 1 3 2\ne 1 4 1\nn 1 1\nn 2 1\nn 3 1\nn 4 1",
    ),
    (
        "the greatest and the least weight",
        "p edge 4 5\ne 1 2 1000000000000\ne 2 3 -1000000000000\ne 3 4 1000000000000\ne 4 1 -1000000000000\ne 1 3 0\nn 1 1\nn 3 1",
    ),
    (
        "loops below 0 and no vertex of T",
        "p edge 1 2\ne 1 1 -3\ne 1 1 -4",
    ),
    (
        "a loop at the one vertex of T",
        "p edge 1 1\ne 1 1 -3\nn 1 1",
    ),
    (
        "loops beside an edge",
        "p edge 2 3\ne 1 1 -3\ne 1 2 4\ne 2 2 5\nn 1 1\nn 2 1",
    ),
];

/// Tours of least weight through edges that are connected. No weight is negative.
pub const TOURS: [Row; 15] = [
    ("no edge", "p edge 3 0"),
    ("an edge", "p edge 2 1\ne 1 2 7"),
    ("a path of four", "p edge 4 3\ne 1 2 3\ne 2 3 7\ne 3 4 3"),
    ("a triangle", "p edge 3 3\ne 1 2 1\ne 2 3 2\ne 1 3 3"),
    (
        "two triangles at a vertex",
        "p edge 5 6\ne 1 2 1\ne 2 3 2\ne 1 3 3\ne 3 4 4\ne 4 5 5\ne 3 5 6",
    ),
    (
        "two triangles and a heavy edge",
        "p edge 6 7\ne 1 2 1\ne 2 3 1\ne 1 3 1\ne 4 5 1\ne 5 6 1\ne 4 6 1\ne 3 4 10",
    ),
    ("parallel edges", "p edge 2 3\ne 1 2 5\ne 2 1 3\ne 1 2 4"),
    ("a star", "p edge 4 3\ne 1 2 3\ne 1 3 2\ne 1 4 1"),
    (
        "a square with a heavy diagonal",
        "p edge 4 5\ne 1 2 1\ne 2 3 2\ne 3 4 4\ne 4 1 1\ne 1 3 9",
    ),
    (
        "four vertices, each two joined",
        "p edge 4 6\ne 1 2 1\ne 1 3 2\ne 1 4 3\ne 2 3 4\ne 2 4 5\ne 3 4 6",
    ),
    (
        "weights of 0",
        "p edge 4 4\ne 1 2 0\ne 2 3 0\ne 3 1 0\ne 3 4 0",
    ),
    (
        "the greatest weight and 0",
        "p edge 4 5\ne 1 2 1000000000000\ne 2 3 0\ne 3 4 1000000000000\ne 4 1 1000000000000\ne 1 3 1000000000000",
    ),
    ("a loop alone", "p edge 1 1\ne 1 1 7"),
    (
        "a loop at each end of an edge",
        "p edge 2 3\ne 1 1 1\ne 1 2 4\ne 2 2 3",
    ),
    (
        "a triangle and loops",
        "p edge 3 6\ne 1 1 1\ne 1 2 1\ne 2 3 2\ne 2 2 0\ne 1 3 3\ne 2 2 5",
    ),
];
