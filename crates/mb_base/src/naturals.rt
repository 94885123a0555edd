ghost use Rattle.std.specs.Prelude.{◌≡◌, ℕ, ◌<◌, ◌≤◌, pos, ◌≤ℤ◌, length, min, ◌^◌, option_map};
ghost use Rattle.mb_base.specs.Text.{natural, number_of};

/// The number that at most 18 digits spell. It fits 64 bits, so no digit asks whether there is
/// room.
fn short_natural(digits: &[u8]) -> Option<u64>
    requires { length digits.now ≤ 18 }
    ensures { result ≡ natural digits.now }
{
    if digits.is_empty() {
        return None;
    }
    let mut value = 0u64;
    for b in digits {
        if !b.is_ascii_digit() {
            return None;
        }
        value = 10 * value + u64::from(*b - b'0');
    }
    Some(value)
}

/// The number that digits spell, or `cap` where it is greater.
fn capped_natural(digits: &[u8], cap: u128) -> Option<u128>
    requires { cap < 2 ^ 120 }
    ensures { result ≡ option_map (λ n. min n cap) (natural digits.now) }
{
    if digits.is_empty() {
        return None;
    }
    let mut value = 0u128;
    for b in digits {
        if !b.is_ascii_digit() {
            return None;
        }
        value = (10 * value + u128::from(*b - b'0')).min(cap);
    }
    Some(value)
}

/// The number that digits spell, or `cap` where it is greater. None exactly if there is no digit or
/// a byte that is none.
pub fn natural_at_most(digits: &[u8], cap: u128) -> Option<u128>
    requires { cap < 2 ^ 120 }
    ensures { result ≡ option_map (λ n. min n cap) (natural digits.now) }
{
    if digits.len() > 18 {
        return capped_natural(digits, cap);
    }
    let value = short_natural(digits)?;
    Some(u128::from(value).min(cap))
}

/// The number that a field spells: an optional minus, then decimal digits and nothing else. A value
/// beyond `bound` is answered as `bound + 1`, with its sign. None exactly if the field isn't a
/// number.
pub fn number(field: &[u8], bound: i64) -> Option<i64>
    requires low { pos 0 ≤ℤ bound }
    requires high { bound ≤ℤ pos (10 ^ 18) }

    // The number that a field spells, or none.
    ensures { result ≡ number_of bound field.now }
{
    let cap = bound as u128 + 1;
    match field {
        [b'-', digits @ ..] => {
            let value = natural_at_most(digits, cap)?;
            Some(-(value as i64))
        }
        _ => {
            let value = natural_at_most(field, cap)?;
            Some(value as i64)
        }
    }
}
