ghost use Rattle.std.specs.Prelude.{◌≡◌, ◌-◌, pos, ◌≤ℤ◌, nat_abs, map, length, slice_set, All};
ghost use Rattle.std.specs.Prelude.{IfOk};
ghost use Rattle.certificates.specs.Claims.{counts_of};
ghost use Rattle.array_call.specs.Sheets.{IsCountOn};

use doc_format::CountLine;
use mb_base::OutOfMemory;
use std::alloc::Global;

/// A number of an edge as a place.
fn natural(number: i64) -> usize
    requires { pos 0 ≤ℤ number }
    ensures { result ≡ nat_abs number }
{
    number as usize
}

/// Gives the edge of a line its count.
fn put(counts: &mut Vec<i64>, x: &CountLine)
    requires { IsCountOn (length counts.old.items) x.now }
    ensures { counts.new.items
        ≡ slice_set counts.old.items (nat_abs x.now.edge - 1) (pos (nat_abs x.now.count)) }
{
    counts[natural(x.edge) - 1] = x.count;
}

/// The count of each of `m` edges: 0 for an edge without a line. It goes from the last line to the
/// first, since the first line of an edge counts.
pub fn counts_of(alloc: Global, lines: &[CountLine], m: usize) -> Result<Vec<i64>, OutOfMemory>
    requires { All (IsCountOn m) lines.now }
    ensures { IfOk result (λ v. v.items ≡ map pos (counts_of lines.now m)) }
{
    let mut counts = vec![in alloc; 0i64; m]?;
    for k in 0..lines.len() {
        put(&mut counts, &lines[lines.len() - 1 - k]);
    }
    Ok(counts)
}
