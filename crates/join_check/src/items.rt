ghost use Rattle.std.specs.Prelude.{◌≡◌, ℕ, ◌+◌, ◌<◌, ◌^◌, ◌+ℤ◌, ◌==◌, ◌&&◌, pos, length};
ghost use Rattle.std.specs.Prelude.{slice_index, if◌then◌else◌};
ghost use Rattle.join_check.specs.Checks.{at, IsLength};

/// Adds a length to the one at a place.
pub(crate) fn add_length(lengths: &mut [i64], place: usize, more: i64)
    requires in_range { place < length lengths.old }
    requires value_limit { IsLength (at lengths.old place) }
    requires more { IsLength more }
    ensures size { length lengths.new ≡ length lengths.old }
    ensures each { (x : ℕ) → at lengths.new x
        ≡ at lengths.old x +ℤ (if place == x then more else pos 0) }
{
    lengths[place] += more;
}

/// Adds 1 to the count at a place, or nothing.
pub(crate) fn add_if(counts: &mut [usize], place: usize, counts_it: bool)
    requires in_range { place < length counts.old }
    requires value_limit { slice_index counts.old place < 2 ^ 32 }
    ensures size { length counts.new ≡ length counts.old }
    ensures each { (x : ℕ) → slice_index counts.new x
        ≡ slice_index counts.old x + (if counts_it && (place == x) then 1 else 0) }
{
    if counts_it {
        counts[place] += 1;
    }
}
