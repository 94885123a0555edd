ghost use Rattle.std.specs.Prelude.{◌≡◌, IfOk, codes};
ghost use Rattle.check_text.specs.Lines.{malformed_line, too_large_line};

use crate::output::{Output, line, line_of_size};
use crate::status::Status;
use dimacs_read::Rule;
use mb_base::OutOfMemory;
use std::alloc::Global;

/// The answer to an instance that breaks a rule at a line.
///
/// # Errors
///
/// `OutOfMemory` if an allocation fails.
pub fn malformed(alloc: Global, rule: Rule, number: u64) -> Result<Output, OutOfMemory>
    // The text of each refusal: malformed, too large, too long.
    ensures text { IfOk result (λ a. a.text.items ≡ malformed_line rule number) }
    ensures status { IfOk result (λ a. a.status ≡ Status.Malformed) }
{
    let text = line(alloc, b"s MALFORMED ", rule.name().as_bytes(), number)?;
    let status = Status::Malformed;
    Ok(Output { text, status })
}

/// The answer to an instance whose certificate graph is past a limit, and the size of that graph.
///
/// # Errors
///
/// `OutOfMemory` if an allocation fails.
pub fn too_large(alloc: Global, vertices: u64, edges: u64) -> Result<Output, OutOfMemory>
    ensures text { IfOk result (λ a. a.text.items ≡ too_large_line
        (record { vertices = vertices; edges = edges })) }
    ensures status { IfOk result (λ a. a.status ≡ Status.TooLarge) }
{
    let text = line_of_size(alloc, b"s TOOLARGE ", vertices, edges)?;
    let status = Status::TooLarge;
    Ok(Output { text, status })
}

/// The answer to an input past its command's limit.
///
/// # Errors
///
/// `OutOfMemory` if an allocation fails.
pub fn too_long(alloc: Global) -> Result<Output, OutOfMemory>
    ensures text { IfOk result (λ a. a.text.items ≡ codes "s TOOLONG\n") }
    ensures status { IfOk result (λ a. a.status ≡ Status.TooLong) }
{
    let text = Vec::from_slice(alloc, b"s TOOLONG\n")?;
    let status = Status::TooLong;
    Ok(Output { text, status })
}
