ghost use Rattle.std.specs.Prelude.{◌≡◌, ◌<◌, ◌==◌, ◌+ℤ◌, ℕ, pos, length, if◌then◌else◌};
ghost use Rattle.dual_check.specs.Crossed.{total_at, IsWithin};

/// Adds a number to the total at a place.
pub(crate) fn add_to(totals: &mut [i128], place: usize, more: i128)
    requires in_range { place < length totals.old }
    requires value_limit { IsWithin 3 (total_at totals.old place) }
    requires more { IsWithin 2 more }
    ensures size { length totals.new ≡ length totals.old }
    ensures exact { (p : ℕ) → total_at totals.new p
        ≡ (total_at totals.old p +ℤ (if place == p then more else pos 0)) }
{
    totals[place] += more;
}
