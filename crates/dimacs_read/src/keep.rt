ghost use Rattle.std.specs.Prelude.{◌≡◌, ℕ, ◌+◌, ◌<◌, ◌≤◌, ◌^◌, []};
ghost use Rattle.std.specs.Prelude.{◌∷◌, ◌++◌, length, map, take, Option, Some, None};
ghost use Rattle.std.specs.Prelude.{OnOk, IfOk, vec_len};
ghost use Rattle.mb_problem.specs.Network.{IsNetwork};
ghost use Rattle.dimacs_read.specs.Format.{value_or, low_or, high_or};
ghost use Rattle.dimacs_read.specs.Line.{AllFit};
ghost use Rattle.dimacs_read.specs.Reading.{header_after, edges_after, values_after, HasPlace};

use crate::line::{Given, Header, Node, bounds_or, value_or};
use mb_base::OutOfMemory;
use mb_problem::InstanceEdge;
use std::alloc::Global;

/// What a line is, where it breaks no rule.
#[derive(Clone, Copy)]
pub enum Line {
    Skipped,
    Header(Header),
    Edge(InstanceEdge),
    Node(Node),
}

/// Keeps what a line says: the header with a place for each vertex's value, an edge, or what a
/// vertex is given.
pub fn keep_line(
    alloc: Global,
    header: &mut Option<Header>,
    values: &mut Vec<Option<Given>>,
    edges: &mut Vec<InstanceEdge>,
    line: Line,
) -> Result<(), OutOfMemory>
    requires { HasPlace (vec_len values.old) line }
    ensures header { OnOk result (header.new ≡ header_after header.old line) }
    ensures values { OnOk result (values.new.items ≡ values_after values.old.items line) }
    ensures edges { OnOk result (edges.new.items ≡ edges_after edges.old.items line) }
{
    match line {
        Line::Skipped => {}
        Line::Header(found) => {
            *values = vec![in alloc; None; found.vertices as usize]?;
            *header = Some(found);
        }
        Line::Edge(edge) => edges.push(edge)?,
        Line::Node(node) => values[node.vertex as usize - 1] = Some(node.given),
    }
    Ok(())
}

/// What an instance says of the vertices 1 to n, in three lists.
#[derive(Drop)]
pub struct VertexLists {
    pub values: Vec<u32>,
    pub lows: Vec<u32>,
    pub highs: Vec<u32>,
}

/// Lists with room for this many vertices.
fn empty_lists(alloc: Global, count: usize) -> Result<VertexLists, OutOfMemory>
    ensures values { IfOk result (λ l. l.values.items ≡ []) }
    ensures lows { IfOk result (λ l. l.lows.items ≡ []) }
    ensures highs { IfOk result (λ l. l.highs.items ≡ []) }
{
    let values = Vec::with_capacity(alloc, count)?;
    let lows = Vec::with_capacity(alloc, count)?;
    let highs = Vec::with_capacity(alloc, count)?;
    Ok(VertexLists {
        values,
        lows,
        highs,
    })
}

/// Adds what was given to the next vertex, else the defaults.
fn push_given(
    lists: &mut VertexLists,
    given: Option<Given>,
    default: u32,
) -> Result<(), OutOfMemory>
    ensures values { OnOk result (lists.new.values.items ≡ lists.old.values.items
        ++ value_or default given ∷ []) }
    ensures lows { OnOk result (lists.new.lows.items ≡ lists.old.lows.items
        ++ low_or given ∷ []) }
    ensures highs { OnOk result (lists.new.highs.items ≡ lists.old.highs.items
        ++ high_or given ∷ []) }
{
    let (low, high) = bounds_or(given);
    lists.values.push(value_or(given, default))?;
    lists.lows.push(low)?;
    lists.highs.push(high)?;
    Ok(())
}

/// What was given to all vertices, else the defaults.
pub fn with_defaults(
    alloc: Global,
    given: &[Option<Given>],
    default: u32,
) -> Result<VertexLists, OutOfMemory>
    ensures values { IfOk result (λ l. l.values.items ≡ map (value_or default) given.now) }
    ensures lows { IfOk result (λ l. l.lows.items ≡ map low_or given.now) }
    ensures highs { IfOk result (λ l. l.highs.items ≡ map high_or given.now) }
{
    let mut lists = empty_lists(alloc, given.len())?;
    for entry in given {
        push_given(&mut lists, *entry, default)?;
    }
    Ok(lists)
}
