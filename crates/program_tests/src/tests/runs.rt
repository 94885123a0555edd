ghost use Rattle.std.specs.Prelude.{◌≡◌, ◌<◌};

use match_cli::{Status, run};
use mb_base::{MemSink, MemSource, Steps, SureSink, SureSource, read_all};
use std::alloc::Global;
use std::marker::Brand;
use std::process::Abort;
use std::sync::ledger::{Blank, Ledger};
use std::test::Fail;

/// The words after the program's name, and the input.
type Given<'a> = (&'a [&'a str], &'a [u8]);

/// How much a source gives and a sink takes at a time, and the calls of each that fail, from 1.
#[derive(Clone, Copy)]
struct Streams {
    piece: usize,
    read_fails: u64,
    write_fails: u64,
}

/// All at once, and no call fails.
const WHOLE: Streams = Streams {
    piece: 100_000,
    read_fails: 0,
    write_fails: 0,
};

/// What there is to see after a run: its status and what the sink kept.
#[derive(Drop)]
struct Seen {
    status: Status,
    kept: Vec<u8>,
}

/// The words of a command line of `blossom`.
fn words(alloc: Global, line: &[&str]) -> Result<Vec<String>, Fail> {
    let mut words = vec![in alloc; String::from_str(alloc, "blossom")?]?;
    for word in line {
        words.push(String::from_str(alloc, word)?)?;
    }
    Ok(words)
}

/// A run of these words over a source and a sink in memory.
fn run_words<L: Ledger>(
    blank: Blank,
    alloc: Global,
    words: &Vec<String>,
    input: &[u8],
    streams: Streams,
) -> Result<Seen, Fail>
    requires name { blank.name ≡ L.name }
    requires parts { blank.parts ≡ L.parts }
    requires some { 0 < blank.parts }
{
    let piece = streams.piece.max(1);
    let reads = vec![in alloc; streams.read_fails]?;
    let writes = vec![in alloc; streams.write_fails]?;
    let input = Vec::from_slice(alloc, input)?;
    let mut sink = MemSink::new(alloc, 1_000, piece, writes)?;
    let mut source = MemSource::new(input, piece, reads);
    let mut steps = Steps::<L>::new(blank);
    let status = run(alloc, words, &mut source, &mut sink, &mut steps);
    drop(source);
    let kept = Vec::from_slice(alloc, sink.kept());
    drop(sink);
    Ok(Seen {
        status,
        kept: kept?,
    })
}

/// A run over sources and sinks in memory.
fn run_over<L: Ledger>(
    blank: Blank,
    alloc: Global,
    given: Given,
    streams: Streams,
) -> Result<Seen, Fail>
    requires name { blank.name ≡ L.name }
    requires parts { blank.parts ≡ L.parts }
    requires some { 0 < blank.parts }
{
    let (line, input) = given;
    let line = words(alloc, line)?;
    let seen = run_words::<L>(blank, alloc, &line, input, streams);
    drop(line);
    seen
}

/// Whether a run ends so and writes that.
fn ends_so(
    alloc: Global,
    given: Given,
    streams: Streams,
    wanted: (Status, &[u8]),
) -> Result<bool, Fail> {
    let (status, kept) = wanted;
    let seen = run_over::<Brand>(Blank::new(1), alloc, given, streams)?;
    Ok(seen.status == status && seen.kept.as_slice() == kept)
}

/// A run, how it ends, and what it writes.
type Ending<'a> = (Given<'a>, Status, &'a [u8]);

/// Asserts that runs end as their rows say.
fn expect_endings(rt: &impl Abort, alloc: Global, rows: &[Ending]) -> Result<(), Fail> {
    for (given, status, kept) in rows {
        assert!(rt; ends_so(alloc, *given, WHOLE, (*status, *kept))?);
    }
    Ok(())
}

/// Asserts that a run ends so with sources and sinks of each size of pieces.
fn expect_in_pieces(rt: &impl Abort, alloc: Global, row: &Ending) -> Result<(), Fail> {
    let (given, status, kept) = *row;
    for piece in [1, 7, 100_000] {
        let streams = Streams {
            piece,
            read_fails: 0,
            write_fails: 0,
        };
        assert!(rt; ends_so(alloc, given, streams, (status, kept))?);
    }
    Ok(())
}

/// The same for each row.
fn expect_all_in_pieces(rt: &impl Abort, alloc: Global, rows: &[Ending]) -> Result<(), Fail> {
    for row in rows {
        expect_in_pieces(rt, alloc, row)?;
    }
    Ok(())
}

/// How many bytes of its input are left after a run.
fn count_left<L: Ledger>(blank: Blank, alloc: Global, given: Given) -> Result<Option<usize>, Fail>
    requires name { blank.name ≡ L.name }
    requires parts { blank.parts ≡ L.parts }
    requires some { 0 < blank.parts }
{
    let (line, input) = given;
    let mut source = SureSource::new(Vec::from_slice(alloc, input)?, 7);
    let mut sink = SureSink::new(alloc, 1_000, 7)?;
    let mut steps = Steps::<L>::new(blank);
    let line = words(alloc, line)?;
    let _status = run(alloc, &line, &mut source, &mut sink, &mut steps);
    if let Ok(left) = read_all(alloc, &mut source, 1_000) {
        return Ok(Some(left.len()));
    }
    Ok(None)
}

/// Whether a run leaves so many bytes of its input.
fn leaves(alloc: Global, given: Given, count: usize) -> Result<bool, Fail> {
    Ok(count_left::<Brand>(Blank::new(1), alloc, given)? == Some(count))
}

const ONE_EDGE: &[u8] = b"p edge 2 1\ne 1 2 5\ns OPTIMAL perfect 5\nx 1 1\ny 1 5\ny 2 5\n";

const CHECK: Given = (&["check", "perfect"], ONE_EDGE);

/// Two triangles and an edge of weight 10 between them: each perfect matching has that edge.
const TWO_TRIANGLES: &[u8] =
    b"p edge 6 7\ne 1 2 1\ne 2 3 1\ne 1 3 1\ne 4 5 1\ne 5 6 1\ne 4 6 1\ne 3 4 10\n";

const SOLVE_BRIEF: &[&str] = &["solve", "perfect", "--brief"];

const SOLVE: Given = (SOLVE_BRIEF, TWO_TRIANGLES);

/// An input that no trial reads.
const EDGE: &[u8] = b"p edge 2 1\ne 1 2 5\n";

/// One edge, whose weight is the first number drawn.
const TRIAL: Given = (&["trial", "perfect", "2", "2", "1"], EDGE);

/// 1,100 parallel edges, whose certificate graph has the square of that.
const LARGE_TRIAL: Given = (&["trial", "postman", "1", "2", "1100"], EDGE);

const ACCEPTED: &[u8] = b"s ACCEPTED\n";

const SOLVED: &[u8] = b"s OPTIMAL perfect 12\nx 1 1\nx 5 1\nx 7 1\n";

const TRIED: &[u8] = b"g 2 1\ns OPTIMAL perfect 294\ns ACCEPTED\n";

/// Runs, how each ends, and what it writes.
const RUNS: [Ending; 8] = [
    (CHECK, Status::Done, ACCEPTED),
    (SOLVE, Status::Done, SOLVED),
    (
        (&["solve", "perfect"], ONE_EDGE),
        Status::Malformed,
        b"s MALFORMED UnknownLine 3\n",
    ),
    (
        (&["solve", "cover"], TWO_TRIANGLES),
        Status::Usage,
        b"s USAGE\n",
    ),
    ((&[], ONE_EDGE), Status::Usage, b"s USAGE\n"),
    (
        (&["check", "match"], b"p edge 4096 0\n"),
        Status::Rejected,
        b"s REJECTED DocForm 2\n",
    ),
    (TRIAL, Status::Done, TRIED),
    (LARGE_TRIAL, Status::TooLarge, b"s TOOLARGE 2200 1210000\n"),
];

#[test]
fn runs_in_pieces(rt: HostRuntime) -> Result<(), Fail> {
    expect_all_in_pieces(&rt, rt.alloc(), &RUNS)
}

/// Four vertices of the greatest value, and one of value 0.
const FOUR_GREATEST: &[u8] = b"p edge 5 0\nn 1 4096\nn 2 4096\nn 3 4096\nn 4 4096\nn 5 0\n";

/// The same, but for a value of 1.
const FOUR_GREATEST_AND_ONE: &[u8] = b"p edge 5 0\nn 1 4096\nn 2 4096\nn 3 4096\nn 4 4096\n";

/// Runs over the largest graphs, how each ends, and what it writes.
const LARGEST: [Ending; 4] = [
    (
        (&["solve", "match", "--brief"], b"p edge 4096 0\n"),
        Status::Done,
        b"s OPTIMAL match 0\n",
    ),
    (
        (&["solve", "bmatch", "--brief"], FOUR_GREATEST),
        Status::Done,
        b"s INFEASIBLE bmatch\n",
    ),
    (
        (&["solve", "bmatch"], FOUR_GREATEST_AND_ONE),
        Status::TooLarge,
        b"s TOOLARGE 16385 0\n",
    ),
    (
        (&["check", "bmatch"], FOUR_GREATEST_AND_ONE),
        Status::TooLarge,
        b"s TOOLARGE 16385 0\n",
    ),
];

// The most vertices of an instance, and of the certificate graph.
#[test]
fn largest_graphs(rt: HostRuntime) -> Result<(), Fail> {
    expect_endings(&rt, rt.alloc(), &LARGEST)
}

const GREATEST_DUALS: &[u8] =
    b"p edge 1 0\ns OPTIMAL match 0\ny 1 1000000000000000000\ny 2 -1000000000000000000\n";

const DUAL_PAST_LIMIT: &[u8] =
    b"p edge 1 0\ns OPTIMAL match 0\ny 1 1000000000000000001\ny 2 -1000000000000000000\n";

const CHECK_MATCH: &[&str] = &["check", "match"];

/// Runs over the greatest numbers, how each ends, and what it writes.
const GREATEST: [Ending; 4] = [
    (
        (SOLVE_BRIEF, b"p edge 2 1\ne 1 2 1000000000000\n"),
        Status::Done,
        b"s OPTIMAL perfect 1000000000000\nx 1 1\n",
    ),
    (
        (SOLVE_BRIEF, b"p edge 2 1\ne 1 2 1000000000001\n"),
        Status::Malformed,
        b"s MALFORMED Range 2\n",
    ),
    ((CHECK_MATCH, GREATEST_DUALS), Status::Done, ACCEPTED),
    (
        (CHECK_MATCH, DUAL_PAST_LIMIT),
        Status::Rejected,
        b"s REJECTED DocRange 3\n",
    ),
];

// The greatest weight of an edge and the greatest dual, and one more.
#[test]
fn greatest_numbers(rt: HostRuntime) -> Result<(), Fail> {
    expect_endings(&rt, rt.alloc(), &GREATEST)
}

/// A vertex of value 3 with a loop, and an edge to one of value 1. The certificate graph has a
/// triangle for the loop, on the three copies.
const LOOP_AND_EDGE: &[u8] = b"p edge 2 2\nn 1 3\ne 1 1 4\ne 1 2 5\n";

/// A loop at a vertex of value 2, used once.
const USED_ONCE: &[u8] = b"p edge 1 1\nn 1 2\ne 1 1 4\ns OPTIMAL bmatch 4\nx 1 1\ny 1 4\ny 2 4\n";

const USED_TWICE: &[u8] = b"p edge 1 1\nn 1 2\ne 1 1 4\ns OPTIMAL bmatch 8\nx 1 2\ny 1 4\ny 2 4\n";

const LOOP_IS_CIRCUIT: &[u8] =
    b"p edge 2 2\nn 1 1\nn 2 1\ne 1 2 5\ne 2 2 -3\ns NONCONSERVATIVE path\nw 2 1 2\n";

/// Runs over loops, how each ends, and what it writes.
const LOOPS: [Ending; 5] = [
    (
        (&["solve", "bmatch", "--brief"], LOOP_AND_EDGE),
        Status::Done,
        b"s OPTIMAL bmatch 9\nx 1 1\nx 2 1\n",
    ),
    ((&["check", "bmatch"], USED_ONCE), Status::Done, ACCEPTED),
    (
        (&["check", "bmatch"], USED_TWICE),
        Status::Rejected,
        b"s REJECTED NotFeasible 4\n",
    ),
    (
        (&["solve", "postman", "--brief"], b"p edge 1 1\ne 1 1 5\n"),
        Status::Done,
        b"s OPTIMAL postman 5\nw 1 1 1\n",
    ),
    (
        (&["check", "path"], LOOP_IS_CIRCUIT),
        Status::Done,
        ACCEPTED,
    ),
];

// A loop counts twice at its vertex, a tour goes along it, and one that weighs less than 0 is a
// circuit by itself.
#[test]
fn edges_with_equal_ends(rt: HostRuntime) -> Result<(), Fail> {
    expect_endings(&rt, rt.alloc(), &LOOPS)
}

/// Runs, and how many bytes of its input each leaves.
const LEFT: [(Given, usize); 5] = [
    (CHECK, 0),
    (SOLVE, 0),
    (TRIAL, EDGE.len()),
    (LARGE_TRIAL, EDGE.len()),
    ((&["trial", "perfect", "2", "2"], EDGE), EDGE.len()),
];

// A trial reads nothing, whatever the answer is, and nor is anything read for words that are no
// command.
#[test]
fn what_is_left(rt: HostRuntime) -> Result<(), Fail> {
    for (given, left) in &LEFT {
        assert!(rt; leaves(rt.alloc(), *given, *left)?);
    }
    Ok(())
}

// A source whose first read fails is none to a trial.
#[test]
fn no_read_of_a_trial_fails(rt: HostRuntime) -> Result<(), Fail> {
    let streams = Streams {
        piece: 1,
        read_fails: 1,
        write_fails: 0,
    };
    assert!(rt; ends_so(rt.alloc(), TRIAL, streams, (Status::Done, TRIED))?);
    Ok(())
}

/// Runs, and what each writes.
const READ: [(Given, &[u8]); 2] = [(CHECK, ACCEPTED), (SOLVE, SOLVED)];

// One call more than there are bytes tells the end of the input. After it no call is made.
#[test]
fn each_read_may_fail(rt: HostRuntime) -> Result<(), Fail> {
    for (given, answer) in &READ {
        let bytes = given.1.len();
        for read_fails in 1..bytes as u64 + 3 {
            let done = read_fails as usize - 1;
            let streams = Streams {
                piece: 1,
                read_fails,
                write_fails: 0,
            };
            let wanted = if done <= bytes {
                (Status::ReadFault, b"".as_slice())
            } else {
                (Status::Done, *answer)
            };
            assert!(rt; ends_so(rt.alloc(), *given, streams, wanted)?);
        }
    }
    Ok(())
}

const REFUSED: Given = (&["solve", "perfect"], b"p edge 2 1\n");

/// Runs, how each ends, and what it writes.
const WRITTEN: [Ending; 4] = [
    (CHECK, Status::Done, ACCEPTED),
    (SOLVE, Status::Done, SOLVED),
    (TRIAL, Status::Done, TRIED),
    (REFUSED, Status::Malformed, b"s MALFORMED EdgeCount 2\n"),
];

#[test]
fn each_write_may_fail(rt: HostRuntime) -> Result<(), Fail> {
    for (given, status, answer) in &WRITTEN {
        for write_fails in 1..answer.len() as u64 + 2 {
            let streams = Streams {
                piece: 1,
                read_fails: 0,
                write_fails,
            };
            let wanted = match answer.get(..write_fails as usize - 1) {
                Some(front) if front.len() < answer.len() => (Status::WriteFault, front),
                _ => (*status, *answer),
            };
            assert!(rt; ends_so(rt.alloc(), *given, streams, wanted)?);
        }
    }
    Ok(())
}
