//! The sets of terminals: whether `starts` says where each begins, and the terminals of each.
ghost use Rattle.std.specs.Prelude.{◌≡◌, ◌<◌, ◌^◌, ◌||◌, length, None, IfSome};
ghost use Rattle.array_joins.specs.Sets.{set_at, set_count, falls_at, ends_wrong_at};
ghost use Rattle.array_joins.specs.Sets.{starts_fault};

/// Whether the first start isn't 0, or another one is less than the start before it.
fn falls_at(starts: &[u32], k: usize) -> bool
    requires { k < length starts.now }
    ensures { result ≡ falls_at starts.now k }
{
    if k == 0 {
        return starts[0] != 0;
    }
    starts[k] < starts[k - 1]
}

/// Whether this is the last start, and it isn't the number of terminals.
fn ends_wrong_at(starts: &[u32], count: usize, k: usize) -> bool
    requires { k < length starts.now }
    ensures { result ≡ ends_wrong_at starts.now count k }
{
    k + 1 == starts.len() && starts[k] as usize != count
}

/// Whether the start at an index is wrong, for so many terminals.
fn is_wrong(starts: &[u32], count: usize, k: usize) -> bool
    requires { k < length starts.now }
    ensures { result ≡ (falls_at starts.now k || ends_wrong_at starts.now count k) }
{
    falls_at(starts, k) || ends_wrong_at(starts, count, k)
}

/// The index of the first wrong start, for so many terminals; 0 if there is no start at all.
pub(crate) fn starts_fault(starts: &[u32], count: usize) -> Option<usize>
    ensures fault { result ≡ starts_fault starts.now count }
    ensures value_limit { IfSome result (λ k. k < 2 ^ 63) }
{
    if starts.is_empty() {
        return Some(0);
    }
    for k in 0..starts.len() {
        if is_wrong(starts, count, k) {
            return Some(k);
        }
    }
    None
}

/// The terminals of the set at an index.
pub(crate) fn set_at<'a>(starts: &[u32], terminals: &'a [u32], k: usize) -> &'a [u32]
    requires in_range { k < set_count starts.now }
    requires starts { starts_fault starts.now (length terminals.now) ≡ None }
    ensures set { result.now ≡ set_at starts.now terminals.now k }
    ensures size_limit { length result.now < 2 ^ 32 }
{
    let begin = starts[k] as usize;
    let end = starts[k + 1] as usize;
    prove!(begin <= end);
    prove!(end <= terminals.len());
    &terminals[begin..end]
}
