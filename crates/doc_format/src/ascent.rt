ghost use Rattle.std.specs.Prelude.{◌≡◌};
ghost use Rattle.doc_format.specs.Parts.{ascends};

/// Whether each number is below the next.
pub fn is_ascending(numbers: &[i64]) -> bool
    ensures { result ≡ ascends numbers.now }
{
    numbers.is_sorted_by(|a, b| a < b)
}
