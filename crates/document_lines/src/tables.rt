ghost use Rattle.std.specs.Prelude.{◌≡◌, ◌+◌, false, replicate, IfOk};

use mb_base::OutOfMemory;
use std::alloc::Global;

/// What the lines so far tell, and room for what the next one names.
#[derive(Drop)]
pub struct Tables {
    /// The number of the last line that holds a vertex, and 0 if none does.
    pub last: Vec<u32>,
    /// The number of the last line that saw a line.
    pub seen: Vec<u32>,
    /// The vertices that are marked, while they are put in order.
    pub marks: Vec<bool>,
    /// The vertices that a line names.
    pub vertices: Vec<u32>,
    /// The lines that it names.
    pub references: Vec<u32>,
}

impl Tables {
    /// The tables before the first of `count` lines on vertices 1 to `vertices`.
    pub fn new(alloc: Global, vertices: u32, count: u32) -> Result<Tables, OutOfMemory>
        ensures last { IfOk result (λ t. t.last.items ≡ replicate (vertices + 1) 0) }
        ensures seen { IfOk result (λ t. t.seen.items ≡ replicate (count + 1) 0) }
        ensures marks { IfOk result (λ t. t.marks.items ≡ replicate (vertices + 1) false) }
    {
        let places = vertices as usize + 1;
        Ok(Tables {
            last: vec![in alloc; 0; places]?,
            seen: vec![in alloc; 0; count as usize + 1]?,
            marks: vec![in alloc; false; places]?,
            vertices: Vec::new(alloc),
            references: Vec::new(alloc),
        })
    }
}
