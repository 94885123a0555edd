ghost use Rattle.std.specs.Prelude.{◌≡◌, pos, map, IfOk};
ghost use Rattle.document_lines.specs.Lines.{walk_line, line_of};

use doc_format::WalkLine;
use mb_base::{EdgeId, OutOfMemory, Sequence, VertexId};
use mb_problem::Answer;
use std::alloc::Global;

/// The numbers of edges as they are on a line.
fn numbers(alloc: Global, edges: &[EdgeId]) -> Result<Vec<i64>, OutOfMemory>
    ensures { IfOk result (λ v. v.items ≡ map pos edges.now) }
{
    let mut numbers = Vec::new(alloc);
    for edge in edges {
        numbers.push(i64::from(edge.number()))?;
    }
    Ok(numbers)
}

/// The `w` line of a walk, in time linear in its edges.
fn line_from(alloc: Global, start: VertexId, edges: &[EdgeId]) -> Result<WalkLine, OutOfMemory>
    ensures { IfOk result (λ w. w ≡ walk_line start edges.now) }
{
    let edges = Sequence::from_vec(numbers(alloc, edges)?);
    Ok(WalkLine {
        line: 1,
        start: i64::from(start.number()),
        edges,
    })
}

/// The `w` line of an answer, if it is a walk of some edge.
pub fn walk_line(alloc: Global, answer: &Answer) -> Result<Option<WalkLine>, OutOfMemory>
    // The line of a walk: exactly its edges.
    ensures { IfOk result (λ line. line ≡ line_of answer.now) }
{
    match answer {
        Answer::Walk { start, edges } => Ok(Some(line_from(alloc, *start, edges.as_slice())?)),
        Answer::Counts(_) | Answer::Nothing => Ok(None),
    }
}
