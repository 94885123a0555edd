use mb_base::Sequence;

/// What follows an instance: the bytes from the first line on that begins with the field `s`, none
/// if there is no such line, and the number of that line, or of the line after the last.
#[derive(Drop)]
pub struct Rest {
    pub bytes: Sequence<u8>,
    pub line: u64,
}
