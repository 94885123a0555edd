ghost use Rattle.std.specs.Prelude.{◌≡◌, ◌++◌, codes, decimal, IfOk, OnOk};
ghost use Rattle.check_text.specs.Lines.{fault_line, size_line};

use crate::status::Status;
use itoa::Buffer;
use mb_base::OutOfMemory;
use std::alloc::Global;

/// What is to be written, and the status then.
#[derive(Drop)]
pub struct Output {
    pub text: Vec<u8>,
    pub status: Status,
}

/// Puts two texts behind what is written.
pub fn put_both(text: &mut Vec<u8>, first: &[u8], second: &[u8]) -> Result<(), OutOfMemory>
    ensures { OnOk result (text.new.items ≡ text.old.items ++ first.now ++ second.now) }
{
    text.extend_from_slice(first)?;
    text.extend_from_slice(second)
}

/// A line of words, a name and a number.
pub fn line(alloc: Global, words: &[u8], name: &[u8], number: u64) -> Result<Vec<u8>, OutOfMemory>
    ensures { IfOk result (λ v. v.items ≡ fault_line words.now name.now number) }
{
    let mut buffer = Buffer::new();
    let mut text = Vec::new(alloc);
    put_both(&mut text, words, name)?;
    put_both(&mut text, b" ", buffer.format(number).as_bytes())?;
    text.extend_from_slice(b"\n")?;
    Ok(text)
}

/// A line of words and the two numbers of a size.
pub fn line_of_size(
    alloc: Global,
    words: &[u8],
    vertices: u64,
    edges: u64,
) -> Result<Vec<u8>, OutOfMemory>
    ensures { IfOk result (λ v. v.items ≡ size_line words.now
        (record { vertices = vertices; edges = edges })) }
{
    let mut buffer = Buffer::new();
    line(alloc, words, buffer.format(vertices).as_bytes(), edges)
}
