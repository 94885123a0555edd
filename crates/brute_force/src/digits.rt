ghost use Rattle.std.specs.Prelude.{◌≡◌, ◌≤◌, ◌<◌, All, IfOk, MatchOption};
ghost use Rattle.mb_problem.specs.declared.limits.TheConstants.{VALUE_LIMIT};
ghost use Rattle.brute_force.specs.Digits.{digits, digit_lists};
ghost use Rattle.brute_force.specs.declared.limits.TheConstants.{TRIAL_LIMIT};

use crate::limits::TRIAL_LIMIT;
use mb_base::{OutOfMemory, Sequence};
use std::alloc::Global;

/// How many lists of counts up to these there are, if they are few enough to be tried.
pub fn lists(mosts: &[u32]) -> Option<u64>
    requires { All (λ most. most ≤ VALUE_LIMIT) mosts.now }
    ensures { MatchOption result (TRIAL_LIMIT < digit_lists mosts.now)
        (λ n. (n ≡ digit_lists mosts.now) × (n ≤ TRIAL_LIMIT)) }
{
    let mut total = 1;
    for most in mosts {
        total *= u64::from(*most) + 1;
        if total > TRIAL_LIMIT {
            return None;
        }
    }
    Some(total)
}

/// The digits of a code, each up to the one of `mosts` at its place, the lowest first.
pub fn digits_of(alloc: Global, mosts: &[u32], code: u64) -> Result<Sequence<u32>, OutOfMemory>
    requires { All (λ most. most ≤ VALUE_LIMIT) mosts.now }
    ensures { IfOk result (λ list. list ≡ digits mosts.now code) }
{
    let mut list = Vec::new(alloc);
    let mut rest = code;
    for most in mosts {
        let base = u64::from(*most) + 1;
        list.push((rest % base) as u32)?;
        rest /= base;
    }
    Ok(Sequence::from_vec(list))
}
