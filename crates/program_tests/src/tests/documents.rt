use doc_format::{CountLine, DocError, DocStatus, Document, DualLine, read, write};
use mb_problem::Kind;
use std::alloc::Global;
use std::test::Fail;

/// The first line that makes a text no document, where its first line has the number 3.
fn wrong_line(alloc: Global, text: &[u8]) -> Option<u64> {
    match read(alloc, text, 3) {
        Ok(document) => {
            drop(document);
            None
        }
        Err(DocError::DocForm { line }) => Some(line),
        Err(_) => None,
    }
}

/// Texts, and the first line that makes each no document.
const FIRST_WRONG: [(&[u8], u64); 4] = [
    (b"", 3),
    (b"\nc x\n", 5),
    (b"x 1 1\ns OPTIMAL perfect 5", 3),
    (b"s OPTIMAL perfect 5\ny 1 5\nx 1 1\n", 5),
];

#[test]
fn first_wrong_line_is_named(rt: HostRuntime) -> Result<(), Fail> {
    for (text, wanted) in &FIRST_WRONG {
        assert!(rt; wrong_line(rt.alloc(), *text) == Some(*wanted));
    }
    Ok(())
}

/// What is written in brief, and what follows in full.
const LETTERS: [(&[u8], &[u8]); 11] = [
    (
        b"s OPTIMAL perfect 12\nx 1 1\nx 5 1\nx 7 1\n",
        b"y 1 1\ny 2 1\ny 3 1\ny 4 1\ny 5 1\ny 6 1\nz 9 3 1 2 3\nz 9 3 4 5 6\n",
    ),
    (
        b"s OPTIMAL perfect -5\nx 1 1\nx 7 1\n",
        b"y 1 -2\ny 2 0\nz 4 3 3 1 2\nz 4 3 4 5 @1\nz 2 2 @2 6\nz 1 0\n",
    ),
    (b"s OPTIMAL path 2\nw 1 2 1 2\n", b"y 5 -2\nz 6 3 1 2 3\n"),
    (b"s INFEASIBLE bmatch\n", b"u 2 5 6\n"),
    (b"s INFEASIBLE tjoin\n", b"t 1 2\n"),
    (b"s INFEASIBLE postman\n", b"q 2 1 2\n"),
    (b"s NONCONSERVATIVE path\n", b"w 1 3 1 2 3\n"),
    (b"s OPTIMAL match 0\n", b""),
    (b"s OPTIMAL bottleneck 4\nx 2 1\n", b"u 1 3\n"),
    (
        b"s OPTIMAL gallai 1\nx 1 1\nd 3 2 3 4\nu 1 1\n",
        b"r 2 2 1 2\nr 3 0\nr 4 0\n",
    ),
    (b"s OPTIMAL gallai 0\nd 0\nu 0\n", b""),
];

/// Whether that is written of a document.
fn is_written(
    alloc: Global,
    document: &Document,
    brief: bool,
    wanted: &[u8],
) -> Result<bool, Fail> {
    Ok(write(alloc, document, brief)?.as_slice() == wanted)
}

/// Whether a text is read, and that is written of it.
fn is_spelled(alloc: Global, text: &[u8], wanted: &[u8]) -> Result<bool, Fail> {
    let Ok(document) = read(alloc, text, 1) else {
        return Ok(false);
    };
    let written = is_written(alloc, &document, false, wanted);
    drop(document);
    written
}

/// Whether a text is read, and its beginning is written of it.
fn is_shortened(alloc: Global, text: &[u8], brief: &[u8]) -> Result<bool, Fail> {
    let Ok(document) = read(alloc, text, 1) else {
        return Ok(false);
    };
    let written = is_written(alloc, &document, true, brief);
    drop(document);
    written
}

/// Whether a text is read, written in full as it is, and in brief without its certificate.
fn is_kept(alloc: Global, brief: &[u8], certificate: &[u8]) -> Result<bool, Fail> {
    let mut text = Vec::from_slice(alloc, brief)?;
    text.extend_from_slice(certificate)?;
    Ok(is_spelled(alloc, &text, &text)? && is_shortened(alloc, &text, brief)?)
}

#[test]
fn every_letter_is_read_and_written(rt: HostRuntime) -> Result<(), Fail> {
    for (brief, certificate) in &LETTERS {
        assert!(rt; is_kept(rt.alloc(), *brief, *certificate)?);
    }
    Ok(())
}

/// What is read, and what is written of it.
const SPELLED: [(&[u8], &[u8]); 4] = [
    (
        b"s  OPTIMAL perfect 05\nz 04 02 3 -0\n",
        b"s OPTIMAL perfect 5\nz 4 2 3 0\n",
    ),
    (
        b"s OPTIMAL perfect 5\nz 4 2 @007 @0\n",
        b"s OPTIMAL perfect 5\nz 4 2 @7 @0\n",
    ),
    (
        b"s OPTIMAL perfect 5\nz 4 1 @99999999999999999999\n",
        b"s OPTIMAL perfect 5\nz 4 1 @1000000000000000001\n",
    ),
    (
        b"s OPTIMAL perfect 5\nz 4 1 -99999999999999999999\n",
        b"s OPTIMAL perfect 5\nz 4 1 -1000000000000000001\n",
    ),
];

#[test]
fn numbers_are_written_in_one_way(rt: HostRuntime) -> Result<(), Fail> {
    for (text, wanted) in &SPELLED {
        assert!(rt; is_spelled(rt.alloc(), *text, *wanted)?);
    }
    Ok(())
}

/// Texts whose fourth line is wrong.
const WRONG_REFERENCES: [&[u8]; 14] = [
    b"s OPTIMAL perfect 5\nz 4 1 @\n",
    b"s OPTIMAL perfect 5\nz 4 1 @ 1\n",
    b"s OPTIMAL perfect 5\nz 4 1 @-1\n",
    b"s OPTIMAL perfect 5\nz 4 1 @-0\n",
    b"s OPTIMAL perfect 5\nz 4 1 @+1\n",
    b"s OPTIMAL perfect 5\nz 4 1 @1x\n",
    b"s OPTIMAL perfect 5\nz 4 1 @@1\n",
    b"s OPTIMAL perfect 5\nz 4 @1 1\n",
    b"s OPTIMAL perfect 5\nz @4 1 1\n",
    b"s OPTIMAL perfect 5\ny 1 @1\n",
    b"s INFEASIBLE bmatch\nu 1 @1\n",
    b"s INFEASIBLE tjoin\nt 1 @1\n",
    b"s INFEASIBLE postman\nq 1 @1\n",
    b"s NONCONSERVATIVE path\nw 1 1 @1\n",
];

// A reference is an `@` and a number without `-`, and an item of a `z` line.
#[test]
fn wrong_references_are_refused(rt: HostRuntime) -> Result<(), Fail> {
    for text in &WRONG_REFERENCES {
        assert!(rt; wrong_line(rt.alloc(), *text) == Some(4));
    }
    Ok(())
}

/// Texts, and the first line that makes each no document.
const WRONG_LINES: [(&[u8], u64); 27] = [
    (b"s INFEASIBLE gallai\n", 3),
    (b"s OPTIMAL gallai 1\nd\n", 4),
    (b"s OPTIMAL gallai 1\nd 1\n", 4),
    (b"s OPTIMAL gallai 1\nd 0 1\n", 4),
    (b"s OPTIMAL gallai 1\nd 2 1\n", 4),
    (b"s OPTIMAL gallai 1\nd 2 2 1\n", 4),
    (b"s OPTIMAL gallai 1\nd 2 1 1\n", 4),
    (b"s OPTIMAL gallai 1\nd 1 @1\n", 4),
    (b"s OPTIMAL gallai 1\nd 0\nd 0\n", 5),
    (b"s OPTIMAL gallai 1\nu 0\nd 0\n", 5),
    (b"s OPTIMAL gallai 1\nd 0\nx 1 1\n", 5),
    (b"s OPTIMAL gallai 1\nr 1 0\nd 0\n", 5),
    (b"s OPTIMAL gallai 1\nr 1 0\nu 0\n", 5),
    (b"s OPTIMAL gallai 1\nr\n", 4),
    (b"s OPTIMAL gallai 1\nr 1\n", 4),
    (b"s OPTIMAL gallai 1\nr 1 1\n", 4),
    (b"s OPTIMAL gallai 1\nr 1 0 2\n", 4),
    (b"s OPTIMAL gallai 1\nr 1 1 2 3\n", 4),
    (b"s OPTIMAL gallai 1\nr @1 0\n", 4),
    (b"s OPTIMAL gallai 1\nr 1 1 @1\n", 4),
    (b"s OPTIMAL gallai 1\nr 1 0\nr 1 0\n", 5),
    (b"s OPTIMAL gallai 1\nr 1 0\nr 3 0\nr 2 0\n", 6),
    (b"s OPTIMAL gallai 1\ny 1 1\n", 4),
    (b"s OPTIMAL perfect 1\nd 0\n", 4),
    (b"s OPTIMAL bottleneck 1\nr 1 0\n", 4),
    (b"s INFEASIBLE perfect\nd 0\n", 4),
    (b"s NONCONSERVATIVE path\nr 1 0\n", 4),
];

// A `d` line stands once, before the `u` line, its members ascending; `r` lines stand last, their
// vertices ascending, each with a vertex, a count and so many edges. No other kind has them.
#[test]
fn wrong_outer_and_path_lines_are_refused(rt: HostRuntime) -> Result<(), Fail> {
    for (text, wanted) in &WRONG_LINES {
        assert!(rt; wrong_line(rt.alloc(), *text) == Some(*wanted));
    }
    Ok(())
}

/// Whether a document begins so: its status, kind, line and weight.
fn begins(document: &Document, wanted: (DocStatus, Kind, u64, i64)) -> bool {
    document.status == wanted.0
        && document.kind == wanted.1
        && document.line == wanted.2
        && document.weight == wanted.3
}

/// Whether a document holds these `x` and `y` lines and no others.
fn holds(document: &Document, counts: &[CountLine], duals: &[DualLine]) -> bool {
    document.counts.as_slice() == counts
        && document.duals.as_slice() == duals
        && document.walk.is_none()
        && document.sets.is_empty()
}

// Numbers beyond the limit are kept as the first beyond it.
#[test]
fn parts_keep_their_lines_and_values(rt: HostRuntime) -> Result<(), Fail> {
    let text =
        b"\n s\tOPTIMAL ffactor -9999999999999999999\r\nc\nx 007 -0\n\ny 1 -1000000000000000002\n";
    let least = -1_000_000_000_000_000_001;
    let (line, edge, count) = (13, 7, 0);
    let counts = [CountLine { line, edge, count }];
    let (line, vertex, dual) = (15, 1, least);
    let duals = [DualLine { line, vertex, dual }];
    match read(rt.alloc(), text, 10) {
        Ok(document) => {
            assert!(rt; begins(&document, (DocStatus::Optimal, Kind::FFactor, 11, least)));
            assert!(rt; holds(&document, &counts, &duals));
            drop(document);
        }
        Err(_) => assert!(rt; false),
    }
    Ok(())
}

/// Whether the `d` line of a document has this number and these members.
fn has_outer(document: &Document, line: u64, members: &[i64]) -> bool {
    match &document.outer {
        Some(d) => d.line == line && d.members.as_slice() == members,
        None => false,
    }
}

/// Whether the `r` lines of a document are these: the line, the vertex and the edges of each.
fn has_paths(document: &Document, wanted: &[(u64, i64, &[i64])]) -> bool {
    if document.paths.len() != wanted.len() {
        return false;
    }
    for (r, (line, vertex, edges)) in document.paths.as_slice().iter().zip(wanted) {
        if r.line != *line || r.vertex != *vertex || r.edges.as_slice() != *edges {
            return false;
        }
    }
    true
}

// An `r` line may have no edge, and its vertex isn't among its edges.
#[test]
fn paths_keep_their_lines_and_edges(rt: HostRuntime) -> Result<(), Fail> {
    let text = b"s OPTIMAL gallai 1\nc\nd 2 1 3\n\nr 1 02 7 -0\nr 3 0\n";
    match read(rt.alloc(), text, 1) {
        Ok(document) => {
            assert!(rt; has_outer(&document, 3, &[1, 3]));
            assert!(rt; has_paths(&document, &[(5, 1, &[7, 0]), (6, 3, &[])]));
            drop(document);
        }
        Err(_) => assert!(rt; false),
    }
    Ok(())
}
