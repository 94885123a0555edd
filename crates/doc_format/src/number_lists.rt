ghost use Rattle.std.specs.Prelude.{◌≡◌, ◌∷◌, [], pos, length, IfOk, if◌then◌else◌, int_lt, min};
ghost use Rattle.std.specs.Prelude.{nat_abs};
ghost use Rattle.std.specs.Ordering.{int_eq};
ghost use Rattle.doc_format.specs.Numbers.{◌>>=◌ as when_some, only_if};
ghost use Rattle.doc_format.specs.Numbers.{kept, two_numbers, numbers, counted, led};

use graph_theory::NUMBER_LIMIT;
use mb_base::{Fields, OutOfMemory, Sequence, number};
use std::alloc::Global;

/// The number of a field, within the limit and one more.
pub fn kept_number(field: &[u8]) -> Option<i64>
    ensures { result ≡ kept field.now }
{
    number(field, NUMBER_LIMIT)
}

/// The numbers of two fields, if they are that.
fn both(first: &[u8], second: &[u8]) -> Option<(i64, i64)>
    ensures { result ≡ two_numbers (first.now ∷ second.now ∷ []) }
{
    let first = kept_number(first)?;
    let second = kept_number(second)?;
    Some((first, second))
}

/// Two numbers, where the fields are that.
pub fn pair(fields: Fields<'_>) -> Option<(i64, i64)>
    ensures { result ≡ two_numbers fields.entry }
{
    let mut fields = fields;
    let first = fields.next()?;
    let second = fields.next()?;
    if fields.next().is_some() {
        return None;
    }
    both(first, second)
}

/// Room for so many numbers, but not for more than can follow: a count may say anything.
pub fn room_for(count: i64, most: usize) -> usize
    ensures { result ≡ (if int_lt count (pos 0) then 0 else min (nat_abs count) most) }
{
    (count.max(0) as usize).min(most)
}

/// Puts all fields into a list without numbers, if they are numbers, or answers false.
fn push_numbers(fields: Fields<'_>, values: &mut Sequence<i64>) -> Result<bool, OutOfMemory>
    requires { values.old ≡ [] }
    ensures { IfOk result (λ all. numbers fields.entry ≡ only_if all values.new) }
{
    for field in fields {
        let Some(value) = kept_number(field) else {
            return Ok(false);
        };
        values.push(value)?;
    }
    Ok(true)
}

/// So many numbers, where the fields are that.
fn so_many_numbers(
    alloc: Global,
    count: i64,
    most: usize,
    fields: Fields<'_>,
) -> Result<Option<Sequence<i64>>, OutOfMemory>
    ensures { IfOk result (λ o. o ≡ when_some (numbers fields.entry)
        (λ zs. only_if (int_eq count (pos (length zs))) zs)) }
{
    let mut values = Sequence::from_vec(Vec::with_capacity(alloc, room_for(count, most))?);
    if !push_numbers(fields, &mut values)? {
        return Ok(None);
    }
    if count != values.len() as i64 {
        return Ok(None);
    }
    Ok(Some(values))
}

/// So many numbers as the first field says, where the fields are that. They have their room at
/// once, unless that is more than `most`, as many as the line can hold.
pub fn counted_numbers(
    alloc: Global,
    most: usize,
    fields: Fields<'_>,
) -> Result<Option<Sequence<i64>>, OutOfMemory>
    ensures { IfOk result (λ o. o ≡ counted fields.entry) }
{
    let mut fields = fields;
    let Some(field) = fields.next() else {
        return Ok(None);
    };
    let Some(count) = kept_number(field) else {
        return Ok(None);
    };
    so_many_numbers(alloc, count, most, fields)
}

/// A number, and so many more as the field after it says, where the fields are that. The line can
/// hold at most `most`.
pub fn led_numbers(
    alloc: Global,
    most: usize,
    fields: Fields<'_>,
) -> Result<Option<(i64, Sequence<i64>)>, OutOfMemory>
    ensures { IfOk result (λ o. o ≡ led fields.entry) }
{
    let mut fields = fields;
    let Some(field) = fields.next() else {
        return Ok(None);
    };
    let Some(first) = kept_number(field) else {
        return Ok(None);
    };
    let Some(values) = counted_numbers(alloc, most, fields)? else {
        return Ok(None);
    };
    Ok(Some((first, values)))
}
