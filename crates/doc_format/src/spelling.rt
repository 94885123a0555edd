ghost use Rattle.std.specs.Prelude.{◌≡◌, ◌++◌, ◌∷◌, [], pos, length, map, flat_map, OnOk};
ghost use Rattle.std.specs.Fmt.{signed_decimal};
ghost use Rattle.doc_format.specs.Items.{item_text};
ghost use Rattle.doc_format.specs.Spelling.{after_space, row_text, spaced, with_count, head_row};
ghost use Rattle.doc_format.specs.Spelling.{weight_fields};

use crate::part::SetItem;
use crate::status::DocStatus;
use itoa::Buffer;
use mb_base::OutOfMemory;
use mb_problem::Kind;

fn put_byte(out: &mut Vec<u8>, byte: u8) -> Result<(), OutOfMemory>
    ensures { OnOk result (out.new.items ≡ out.old.items ++ byte ∷ []) }
{
    out.push(byte)?;
    Ok(())
}

fn put_digits(out: &mut Vec<u8>, number: i64) -> Result<(), OutOfMemory>
    ensures { OnOk result (out.new.items ≡ out.old.items ++ signed_decimal number) }
{
    let mut buffer = Buffer::new();
    out.extend_from_slice(buffer.format(number).as_bytes())
}

fn put_number(out: &mut Vec<u8>, number: i64) -> Result<(), OutOfMemory>
    ensures { OnOk result (out.new.items ≡ out.old.items ++ 32 ∷ signed_decimal number) }
{
    put_byte(out, b' ')?;
    put_digits(out, number)
}

fn put_numbers(out: &mut Vec<u8>, numbers: &[i64]) -> Result<(), OutOfMemory>
    ensures { OnOk result (out.new.items ≡ out.old.items ++ spaced numbers.now) }
{
    for number in numbers {
        put_number(out, *number)?;
    }
    Ok(())
}

fn put_reference(out: &mut Vec<u8>, number: i64) -> Result<(), OutOfMemory>
    ensures { OnOk result (out.new.items ≡ out.old.items ++ 32 ∷ 64 ∷ signed_decimal number) }
{
    put_byte(out, b' ')?;
    put_byte(out, b'@')?;
    put_digits(out, number)
}

fn put_item(out: &mut Vec<u8>, item: SetItem) -> Result<(), OutOfMemory>
    ensures { OnOk result (out.new.items ≡ out.old.items ++ 32 ∷ item_text item) }
{
    match item {
        SetItem::Vertex(vertex) => put_number(out, vertex),
        SetItem::Reference(number) => put_reference(out, number),
    }
}

fn put_items(out: &mut Vec<u8>, items: &[SetItem]) -> Result<(), OutOfMemory>
    ensures { OnOk result (out.new.items ≡ out.old.items
        ++ flat_map after_space (map item_text items.now)) }
{
    for item in items {
        put_item(out, *item)?;
    }
    Ok(())
}

/// A line of a letter and two numbers.
pub fn put_pair(out: &mut Vec<u8>, letter: u8, first: i64, second: i64) -> Result<(), OutOfMemory>
    ensures { OnOk result (out.new.items ≡ out.old.items
        ++ row_text ((letter ∷ []) ∷ map signed_decimal (first ∷ second ∷ []))) }
{
    put_byte(out, letter)?;
    put_number(out, first)?;
    put_number(out, second)?;
    put_byte(out, b'\n')
}

/// The end of a line: how many members there are, and the members.
fn put_counted(out: &mut Vec<u8>, members: &[i64]) -> Result<(), OutOfMemory>
    ensures { OnOk result (out.new.items ≡ out.old.items
        ++ (spaced (with_count members.now) ++ 10 ∷ [])) }
{
    put_number(out, members.len() as i64)?;
    put_numbers(out, members)?;
    put_byte(out, b'\n')
}

/// A line of a letter, how many members there are, and the members.
pub fn put_members(out: &mut Vec<u8>, letter: u8, members: &[i64]) -> Result<(), OutOfMemory>
    ensures { OnOk result (out.new.items ≡ out.old.items
        ++ row_text ((letter ∷ []) ∷ map signed_decimal (with_count members.now))) }
{
    put_byte(out, letter)?;
    put_counted(out, members)
}

/// A line of a letter, a number, how many members there are, and the members.
pub fn put_number_and_members(
    out: &mut Vec<u8>,
    letter: u8,
    number: i64,
    members: &[i64],
) -> Result<(), OutOfMemory>
    ensures { OnOk result (out.new.items ≡ out.old.items
        ++ row_text ((letter ∷ []) ∷ map signed_decimal (number ∷ with_count members.now))) }
{
    put_byte(out, letter)?;
    put_number(out, number)?;
    put_counted(out, members)
}

/// A line of a letter, a number, how many items there are, and the items.
pub fn put_number_and_items(
    out: &mut Vec<u8>,
    letter: u8,
    number: i64,
    items: &[SetItem],
) -> Result<(), OutOfMemory>
    ensures { OnOk result (out.new.items ≡ out.old.items
        ++ row_text ((letter ∷ [])
        ∷ signed_decimal number
        ∷ signed_decimal (pos (length items.now))
        ∷ map item_text items.now)) }
{
    put_byte(out, letter)?;
    put_number(out, number)?;
    put_number(out, items.len() as i64)?;
    put_items(out, items)?;
    put_byte(out, b'\n')
}

/// The weight in the first line of a document, if it is that of a best answer.
fn put_weight(out: &mut Vec<u8>, status: DocStatus, weight: i64) -> Result<(), OutOfMemory>
    ensures { OnOk result (out.new.items ≡ out.old.items
        ++ flat_map after_space (weight_fields status weight)) }
{
    match status {
        DocStatus::Optimal => put_number(out, weight),
        DocStatus::Infeasible | DocStatus::NonConservative => Ok(()),
    }
}

/// The first line of a document.
pub fn put_head(
    out: &mut Vec<u8>,
    status: DocStatus,
    kind: Kind,
    weight: i64,
) -> Result<(), OutOfMemory>
    ensures { OnOk result (out.new.items ≡ out.old.items
        ++ row_text (head_row status kind weight)) }
{
    out.extend_from_slice(b"s ")?;
    out.extend_from_slice(status.name())?;
    put_byte(out, b' ')?;
    out.extend_from_slice(kind.name())?;
    put_weight(out, status, weight)?;
    put_byte(out, b'\n')
}
