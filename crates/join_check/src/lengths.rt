ghost use Rattle.std.specs.Prelude.{IsTrue};
ghost use Rattle.join_check.specs.Checks.{AreLengths};

/// The most that all lengths of a forest may add up to: twice the weights of all edges.
pub(crate) const LENGTH_LIMIT: i64 = 131_072_000_000_000_000;

/// Whether the first length is 0, none is negative, and all together stay within the limit.
pub(crate) fn are_lengths(lengths: &[i64]) -> bool
    ensures { IsTrue result → AreLengths lengths.now }
{
    let mut sum = 0;
    for (node, length) in lengths.iter().enumerate() {
        if *length < 0 {
            return false;
        }
        if node == 0 && *length > 0 {
            return false;
        }
        if *length > LENGTH_LIMIT - sum {
            return false;
        }
        sum += *length;
    }
    true
}
