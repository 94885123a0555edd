ghost use Rattle.std.specs.Prelude.{◌≡◌, ℕ, ◌+◌, ◌-◌, ◌<◌, ◌≤◌, ◌^◌, length, slice_index, IfOk};
ghost use Rattle.graph_theory.specs.Sums.{sum_to};
ghost use Rattle.gadget_base.specs.Starts.{AreStarts};

use mb_base::OutOfMemory;
use std::alloc::Global;

/// Where each block starts, where blocks of these sizes follow one another from 0, and at last the
/// size of all. It takes time linear in the sizes.
///
/// # Errors
///
/// `OutOfMemory` if an allocation fails.
pub fn starts(alloc: Global, sizes: &[u32]) -> Result<Vec<u32>, OutOfMemory>
    requires { sum_to (λ k. slice_index sizes.now k) (length sizes.now) < 2 ^ 32 }
    ensures { IfOk result (λ starts. AreStarts (λ k. slice_index sizes.now k)
        (length sizes.now) starts.items) }
{
    let mut starts = Vec::with_capacity(alloc, sizes.len() + 1)?;
    starts.push(0)?;
    let mut total = 0;
    for size in sizes {
        total += *size;
        starts.push(total)?;
    }
    Ok(starts)
}

/// The same where the size of all may pass 32 bits.
pub fn wide_starts(alloc: Global, sizes: &[u32]) -> Result<Vec<u64>, OutOfMemory>
    requires { length sizes.now < 2 ^ 32 }
    ensures { IfOk result (λ starts. AreStarts (λ k. slice_index sizes.now k)
        (length sizes.now) starts.items) }
{
    let mut starts = Vec::with_capacity(alloc, sizes.len() + 1)?;
    starts.push(0)?;
    let mut total = 0;
    for size in sizes {
        total += u64::from(*size);
        starts.push(total)?;
    }
    Ok(starts)
}

/// The block that holds a place, from 0, where block number k + 1 goes from `starts[k]` up to
/// `starts[k + 1]`. It takes time logarithmic in the number of blocks.
pub fn find_block(starts: &[u64], place: u64) -> usize
    requires some { 2 ≤ length starts.now }
    requires first { slice_index starts.now 0 ≤ place }
    requires last { place < slice_index starts.now (length starts.now - 1) }

    // The block in which an edge of a certificate graph lies.
    ensures inside { result + 1 < length starts.now }
    ensures begun { slice_index starts.now result ≤ place }
    ensures not_ended { place < slice_index starts.now (result + 1) }
{
    let mut low = 0;
    let mut high = starts.len() - 1;
    while low + 1 < high {
        let middle = low + (high - low) / 2;
        if starts[middle] <= place {
            low = middle;
        } else {
            high = middle;
        }
    }
    low
}
