ghost use Rattle.std.specs.Prelude.{◌≡◌, ℕ, ◌-◌, ◌<◌, ◌≤◌, ◌↔◌, Bool, true, false, length, All};
ghost use Rattle.std.specs.Prelude.{IsTrue, IfOk, slice_index_or, slice_set};
ghost use Rattle.graph_theory.specs.Walk.{AllDiffer};
ghost use Rattle.mb_problem.specs.Marks.{AreMarks};

use mb_base::{EdgeId, OutOfMemory};
use std::alloc::Global;

/// Marks a number, and tells whether it had no mark.
pub fn mark(marks: &mut [bool], number: u32) -> bool
    requires low { 1 ≤ number }
    requires high { number ≤ length marks.old }
    ensures new { IsTrue result ↔ (slice_index_or marks.old (number - 1) false ≡ false) }
    ensures marked { marks.new ≡ slice_set marks.old (number - 1) true }
{
    let place = number as usize - 1;
    let had = marks[place];
    marks[place] = true;
    !had
}

/// Whether there is no number without a mark.
pub fn are_all_marked(marks: &[bool]) -> bool
    ensures { IsTrue result ↔ ((k : ℕ) → k < length marks.now → slice_index_or marks.now k false
        ≡ true) }
{
    for marked in marks {
        if !*marked {
            return false;
        }
    }
    true
}

/// Marks for the numbers of edges from 1 to `m`: those that are listed. Greater ones have none.
pub fn marks_of(alloc: Global, m: u32, edges: &[EdgeId]) -> Result<Vec<bool>, OutOfMemory>
    requires { All (λ e. 1 ≤ e) edges.now }
    ensures { IfOk result (λ marks. AreMarks m marks.items edges.now) }
{
    let mut marks = vec![in alloc; false; m as usize]?;
    for e in edges {
        if e.number() <= m {
            mark(&mut marks, e.number());
        }
    }
    Ok(marks)
}

/// Whether the numbers of edges, from 1 to `m`, are all different.
pub fn edges_differ(alloc: Global, m: u32, edges: &[EdgeId]) -> Result<bool, OutOfMemory>
    requires { All (λ e. (1 ≤ e) × (e ≤ m)) edges.now }
    ensures { IfOk result (λ b. IsTrue b ↔ AllDiffer edges.now) }
{
    let mut marks = vec![in alloc; false; m as usize]?;
    for e in edges {
        if !mark(&mut marks, e.number()) {
            return Ok(false);
        }
    }
    Ok(true)
}
