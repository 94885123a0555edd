ghost use Rattle.std.specs.Prelude.{◌≡◌, [], true, pos, length, All, IfOk, IfSome, OnOk};
ghost use Rattle.std.specs.Ordering.{int_eq};
ghost use Rattle.doc_format.specs.Numbers.{◌>>=◌ as when_some, only_if};
ghost use Rattle.doc_format.specs.Items.{reference_in, item_in, items, counted_items, led_items};
ghost use Rattle.doc_format.specs.Items.{is_item};

use crate::number_lists::{kept_number, room_for};
use crate::part::SetItem;
use mb_base::{Fields, OutOfMemory, Sequence};
use std::alloc::Global;

/// The reference whose number follows an `@`, if it is one.
fn read_reference(number: &[u8]) -> Option<SetItem>
    ensures { result ≡ reference_in number.now }
{
    let [first, ..] = number else {
        return None;
    };
    if *first == b'-' {
        return None;
    }
    let number = kept_number(number)?;
    Some(SetItem::Reference(number))
}

/// The item of a field, if it is one.
fn read_item(field: &[u8]) -> Option<SetItem>
    ensures value { result ≡ item_in field.now }
    ensures form { IfSome result (λ x. is_item x ≡ true) }
{
    let [first, more @ ..] = field else {
        return None;
    };
    if *first == b'@' {
        return read_reference(more);
    }
    let number = kept_number(field)?;
    Some(SetItem::Vertex(number))
}

/// Puts all fields into a list without items, if they are items, or answers false.
fn push_items(fields: Fields<'_>, values: &mut Sequence<SetItem>) -> Result<bool, OutOfMemory>
    requires { values.old ≡ [] }
    ensures value { IfOk result (λ all. items fields.entry ≡ only_if all values.new) }
    ensures form { OnOk result (All (λ x. is_item x ≡ true) values.new) }
{
    for field in fields {
        let Some(value) = read_item(field) else {
            return Ok(false);
        };
        values.push(value)?;
    }
    Ok(true)
}

/// So many items, where the fields are that.
fn so_many_items(
    alloc: Global,
    count: i64,
    most: usize,
    fields: Fields<'_>,
) -> Result<Option<Sequence<SetItem>>, OutOfMemory>
    ensures value { IfOk result (λ o. o ≡ when_some (items fields.entry)
        (λ xs. only_if (int_eq count (pos (length xs))) xs)) }
    ensures form { IfOk result (λ o. IfSome o (All (λ x. is_item x ≡ true))) }
{
    let mut values = Sequence::from_vec(Vec::with_capacity(alloc, room_for(count, most))?);
    if !push_items(fields, &mut values)? {
        return Ok(None);
    }
    if count != values.len() as i64 {
        return Ok(None);
    }
    Ok(Some(values))
}

/// So many items as the first field says, where the fields are that. They have their room at once,
/// unless that is more than `most`, as many as the line can hold.
fn counted_items(
    alloc: Global,
    most: usize,
    fields: Fields<'_>,
) -> Result<Option<Sequence<SetItem>>, OutOfMemory>
    ensures value { IfOk result (λ o. o ≡ counted_items fields.entry) }
    ensures form { IfOk result (λ o. IfSome o (All (λ x. is_item x ≡ true))) }
{
    let mut fields = fields;
    let Some(field) = fields.next() else {
        return Ok(None);
    };
    let Some(count) = kept_number(field) else {
        return Ok(None);
    };
    so_many_items(alloc, count, most, fields)
}

/// A number, and so many items as the field after it says, where the fields are that. The line can
/// hold at most `most`.
pub fn led_items(
    alloc: Global,
    most: usize,
    fields: Fields<'_>,
) -> Result<Option<(i64, Sequence<SetItem>)>, OutOfMemory>
    ensures value { IfOk result (λ o. o ≡ led_items fields.entry) }
    ensures form { IfOk result (λ o. IfSome o (λ p. All (λ x. is_item x ≡ true) p.1)) }
{
    let mut fields = fields;
    let Some(field) = fields.next() else {
        return Ok(None);
    };
    let Some(first) = kept_number(field) else {
        return Ok(None);
    };
    let Some(values) = counted_items(alloc, most, fields)? else {
        return Ok(None);
    };
    Ok(Some((first, values)))
}
