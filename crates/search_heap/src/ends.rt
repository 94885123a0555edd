ghost use Rattle.std.specs.Prelude.{◌≡◌, ◌<◌, ◌-◌, pos, ◌+ℤ◌, ◌≤ℤ◌, IfOk, true, length, slice_set};
ghost use Rattle.std.specs.Prelude.{vec_len};
ghost use Rattle.search_heap.specs.Rising.{AreEnds, IsInBucket, IsSpread, end_at};

use base_types::OutOfMemory;
use std::alloc::Global;

/// How many buckets there are: one for the moment that was given last, and one for each bit in
/// which a later one can differ from it first.
const BUCKETS: u32 = 65;

/// The ends of buckets, the first of which ends at 0.
pub(crate) fn first_ends(alloc: Global) -> Result<Vec<i64>, OutOfMemory>
    ensures { IfOk result (λ ends. AreEnds ends.items) }
{
    let mut ends = vec![in alloc; i64::MAX; BUCKETS as usize]?;
    spread(&mut ends, 0, BUCKETS - 1);
    Ok(ends)
}

/// Whether a moment comes after the end of the bucket before this one, and not after its own.
fn is_in_bucket(ends: &[i64], bucket: u32, moment: i64) -> bool
    requires ends { AreEnds ends.now }
    requires low { end_at ends.now 0 ≤ℤ moment }
    ensures { result ≡ true → IsInBucket ends.now bucket moment }
{
    if bucket == 0 || bucket >= BUCKETS {
        return false;
    }
    ends[bucket as usize - 1] < moment && moment <= ends[bucket as usize]
}

/// The bucket of a moment, by plain search.
fn find_bucket(ends: &[i64], moment: i64) -> u32
    requires ends { AreEnds ends.now }
    requires low { (end_at ends.now 0 +ℤ pos 1) ≤ℤ moment }
    ensures { IsInBucket ends.now result moment }
{
    for bucket in 1..BUCKETS - 1 {
        if moment <= ends[bucket as usize] {
            return bucket;
        }
    }
    BUCKETS - 1
}

/// The bucket of a moment: 0 where it is the end of that. Where the ends are as `spread` leaves
/// them, it is the number of the highest bit in which the moment differs from the first end, in
/// constant time.
pub(crate) fn bucket_of(ends: &[i64], moment: i64) -> u32
    requires ends { AreEnds ends.now }
    requires low { end_at ends.now 0 ≤ℤ moment }
    ensures { IsInBucket ends.now result moment }
{
    if moment == ends[0] {
        return 0;
    }
    let guess = i64::BITS - (moment ^ ends[0]).leading_zeros();
    if is_in_bucket(ends, guess, moment) {
        return guess;
    }
    find_bucket(ends, moment)
}

/// The number from one up to another that is next to this one.
fn nearest(low: i64, number: i64, high: i64) -> i64
    requires { low ≤ℤ high }
    ensures low { low ≤ℤ result }
    ensures high { result ≤ℤ high }
{
    if number < low {
        return low;
    }
    if high < number {
        return high;
    }
    number
}

/// Lets a bucket end at this moment.
pub(crate) fn set_end(ends: &mut Vec<i64>, bucket: u32, moment: i64)
    requires { bucket < vec_len ends.old }
    ensures { ends.new.items ≡ slice_set ends.old.items bucket moment }
{
    ends[bucket as usize] = moment;
}

/// Where a bucket ends.
fn end_of(ends: &[i64], bucket: u32) -> i64
    requires { bucket < length ends.now }
    ensures { result ≡ end_at ends.now bucket }
{
    ends[bucket as usize]
}

/// Lets the first bucket end at this moment, and each one after it, before bucket `last`, at the
/// last number that differs from the moment in as many low bits at most as the bucket's number
/// says.
pub(crate) fn spread(ends: &mut Vec<i64>, moment: i64, last: u32)
    requires ends { AreEnds ends.old.items }
    requires last { last < 65 }
    requires after { 0 < last }
    requires high { moment ≤ℤ end_at ends.old.items last }
    ensures { IsSpread ends.old.items ends.new.items moment last }
{
    set_end(ends, 0, moment);
    for bucket in 1..last {
        let reach = moment | (i64::MAX >> (i64::BITS - 1 - bucket));
        let end = nearest(end_of(ends, bucket - 1), reach, end_of(ends, last));
        set_end(ends, bucket, end);
    }
}
