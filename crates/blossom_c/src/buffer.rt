ghost use Rattle.blossom_c.specs.Buffers.{StandsOrNot};

/// Copies a text to the front of a buffer where it fits, and answers whether it does.
pub fn put(text: &[u8], buffer: &mut [u8]) -> bool
    ensures { StandsOrNot text.now buffer.old buffer.new result }
{
    if text.len() > buffer.len() {
        return false;
    }
    buffer[..text.len()].copy_from_slice(text);
    true
}

/// Copies numbers to the front of a buffer where they fit, and answers whether they do.
pub fn put_numbers(numbers: &[i64], buffer: &mut [i64]) -> bool
    ensures { StandsOrNot numbers.now buffer.old buffer.new result }
{
    if numbers.len() > buffer.len() {
        return false;
    }
    buffer[..numbers.len()].copy_from_slice(numbers);
    true
}
