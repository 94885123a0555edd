ghost use Rattle.std.specs.Prelude.{◌≡◌, ℕ, ◌<◌, ◌≤◌, ◌^◌, ◌||◌};
ghost use Rattle.std.specs.Prelude.{◌&&◌, not, false, length, All, IfOk};
ghost use Rattle.graph_theory.specs.Parts.{holds};
ghost use Rattle.graph_parts.specs.Marks.{is_marked, ListsMarked};
ghost use Rattle.graph_parts.specs.Flags.{IsFirstMarked};

use mb_base::{EdgeId, OutOfMemory, VertexId};
use std::alloc::Global;

/// So many places, none of them marked.
///
/// # Errors
///
/// `OutOfMemory` if an allocation fails.
pub fn no_marks(alloc: Global, count: usize) -> Result<Vec<bool>, OutOfMemory>
    ensures size { IfOk result (λ marks. length marks.items ≡ count) }
    ensures none { IfOk result (λ marks. (v : ℕ) → is_marked marks.items v ≡ false) }
{
    Ok(vec![in alloc; false; count]?)
}

/// Marks all members.
pub fn mark_all(marks: &mut [bool], members: &[VertexId])
    requires { All (λ v. v < length marks.old) members.now }
    ensures { (w : ℕ) → is_marked marks.new w ≡ (is_marked marks.old w || holds members.now w) }
{
    for vertex in members {
        marks[vertex.number() as usize] = true;
    }
}

/// Takes the marks off all members.
pub fn unmark_all(marks: &mut [bool], members: &[VertexId])
    requires { All (λ v. v < length marks.old) members.now }
    ensures { (w : ℕ) → is_marked marks.new w
        ≡ (is_marked marks.old w && not (holds members.now w)) }
{
    for vertex in members {
        marks[vertex.number() as usize] = false;
    }
}

/// The marked vertices, ascending.
pub(crate) fn list_marked(alloc: Global, marks: &[bool]) -> Result<Vec<VertexId>, OutOfMemory>
    requires { length marks.now ≤ 2 ^ 32 }
    ensures { IfOk result (λ vertices. ListsMarked marks.now vertices.items) }
{
    let mut vertices = Vec::new(alloc);
    for (number, marked) in marks.iter().enumerate() {
        if *marked && number > 0 {
            vertices.push(VertexId::new(number as u32))?;
        }
    }
    Ok(vertices)
}

/// The numbers of the edges that are taken, ascending.
pub(crate) fn list_taken(alloc: Global, taken: &[bool]) -> Result<Vec<EdgeId>, OutOfMemory>
    requires { length taken.now ≤ 2 ^ 32 }
    ensures { IfOk result (λ edges. ListsMarked taken.now edges.items) }
{
    let mut edges = Vec::new(alloc);
    for (number, is_taken) in taken.iter().enumerate() {
        if *is_taken && number > 0 {
            edges.push(EdgeId::new(number as u32))?;
        }
    }
    Ok(edges)
}

/// The first marked vertex.
pub(crate) fn first_marked(marks: &[bool]) -> Option<VertexId>
    requires { length marks.now ≤ 2 ^ 32 }
    ensures { IsFirstMarked marks.now result }
{
    for (number, marked) in marks.iter().enumerate() {
        if *marked {
            return Some(VertexId::new(number as u32));
        }
    }
    None
}
