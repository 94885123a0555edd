ghost use Rattle.std.specs.Prelude.{◌≡◌, ◌≤◌, IfSome};
ghost use Rattle.match_cli.specs.Arguments.{natural_within};

use mb_base::natural_at_most;

/// The number that digits spell, if it is at most the limit.
pub fn read_natural(word: &str, limit: u64) -> Option<u64>
    ensures number { result ≡ natural_within limit word.now }
    ensures value_limit { IfSome result (λ n. n ≤ limit) }
{
    let value = natural_at_most(word.as_bytes(), u128::from(limit) + 1)?;
    if value <= u128::from(limit) {
        Some(value as u64)
    } else {
        None
    }
}
