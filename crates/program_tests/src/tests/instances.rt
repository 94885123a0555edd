use dimacs_read::{InstanceError, Rest, Rule, read};
use mb_base::VertexId;
use mb_problem::{Instance, InstanceEdge, Kind};
use std::alloc::Global;
use std::test::Fail;

/// The rule and the line of a text that is refused.
fn refusal(alloc: Global, text: &[u8], kind: Kind) -> Option<(Rule, u64)> {
    match read(alloc, text, kind) {
        Ok(found) => {
            drop(found);
            None
        }
        Err(InstanceError::Malformed { rule, line }) => Some((rule, line)),
        Err(_) => None,
    }
}

const BELOW: &[u8] = b"p edge 3 2\n\ne 1 2 0\ne 2 3 -1\n";

const ONE_END: &[u8] = b"p edge 2 1\nn 1 1\ne 1 2 1\n";

const AROUND: &[u8] = b"p edge 1 1\ne 1 1 -1\n";

/// Texts, their kinds, and the rule and the line of those that are refused.
const REFUSALS: [(&[u8], Kind, Option<(Rule, u64)>); 10] = [
    (b"\0\n", Kind::Match, Some((Rule::UnknownLine, 1))),
    (b"p edge 2 0\ne 9 x\n", Kind::BMatch, Some((Rule::Range, 2))),
    (
        b"p edge 2 1\ne 1 2 -1000000000001\n",
        Kind::Match,
        Some((Rule::Range, 2)),
    ),
    (BELOW, Kind::Postman, Some((Rule::Negative, 4))),
    (BELOW, Kind::TJoin, None),
    (ONE_END, Kind::Path, Some((Rule::PathEnds, 4))),
    (ONE_END, Kind::Perfect, None),
    (
        b"p edge 3 2\ne 1 2 -1\ne 1 9\n",
        Kind::Postman,
        Some((Rule::Range, 3)),
    ),
    (AROUND, Kind::Postman, Some((Rule::Negative, 2))),
    (AROUND, Kind::Perfect, None),
];

#[test]
fn refusals_by_kind(rt: HostRuntime) -> Result<(), Fail> {
    for (text, kind, wanted) in &REFUSALS {
        assert!(rt; refusal(rt.alloc(), *text, *kind) == *wanted);
    }
    Ok(())
}

/// A text and its kind, the one edge and the values that it has, the bytes behind it and the number
/// of their first line.
struct Case {
    text: &'static [u8],
    kind: Kind,
    edge: (u32, u32, i64, Option<u32>),
    values: &'static [u32],
    follows: &'static [u8],
    line: u64,
}

/// The edge of these ends, weight and capacity.
fn edge(parts: (u32, u32, i64, Option<u32>)) -> InstanceEdge {
    let (u, v, w, capacity) = parts;
    InstanceEdge {
        u: VertexId::new(u),
        v: VertexId::new(v),
        w,
        capacity,
    }
}

/// Whether an instance and what follows it are those of a case.
fn is_case(instance: &Instance, rest: &Rest, case: &Case) -> bool {
    instance.edge_list() == [edge(case.edge)].as_slice()
        && instance.value_list() == case.values
        && rest.bytes.as_slice() == case.follows
        && rest.line == case.line
}

/// Whether the text of a case, with what follows it, is read as that.
fn reads_as(alloc: Global, case: &Case) -> Result<bool, Fail> {
    let mut input = Vec::from_slice(alloc, case.text)?;
    input.extend_from_slice(case.follows)?;
    match read(alloc, &input, case.kind) {
        Ok(found) => {
            let same = is_case(&found.0, &found.1, case);
            drop(found);
            Ok(same)
        }
        Err(_) => Ok(false),
    }
}

const EDGES: [Case; 5] = [
    Case {
        text: b"p edge 2 1\ne 1 2 -1000000000000\n",
        kind: Kind::Perfect,
        edge: (1, 2, -1_000_000_000_000, None),
        values: &[0, 0],
        follows: b"s OPTIMAL perfect 5\nx 1 1\ny 1 5\ny 2 5\n",
        line: 3,
    },
    Case {
        text: b"c x\r\np col 02 1\r\n\r\n  e\t2 1 -0\n",
        kind: Kind::BMatch,
        edge: (2, 1, 0, None),
        values: &[1, 1],
        follows: b"s OPTIMAL\nx",
        line: 5,
    },
    Case {
        text: b"p edge 3 1\nn 2 7\ne 1 3 -4 6\nn 1 0",
        kind: Kind::CapMatch,
        edge: (1, 3, -4, Some(6)),
        values: &[0, 7, 1],
        follows: b"",
        line: 5,
    },
    Case {
        text: b"p edge 2 1\ne 1 1 -5\n",
        kind: Kind::Perfect,
        edge: (1, 1, -5, None),
        values: &[0, 0],
        follows: b"s OPTIMAL perfect 5\n",
        line: 3,
    },
    Case {
        text: b"p edge 2 1\n e\t2 02 7 4\r\nn 2 3\n",
        kind: Kind::CapMatch,
        edge: (2, 2, 7, Some(4)),
        values: &[1, 3],
        follows: b"s OPTIMAL capmatch 7\n",
        line: 4,
    },
];

#[test]
fn an_edge_and_what_follows(rt: HostRuntime) -> Result<(), Fail> {
    for case in &EDGES {
        assert!(rt; reads_as(rt.alloc(), case)?);
    }
    Ok(())
}
