use doc_format::{read, write};
use std::alloc::Global;

/// The one full text of the document that the bytes hold; nothing if it is read alone.
pub fn run(alloc: Global, bytes: &[u8], written: bool) -> Option<Vec<u8>> {
    let document = read(alloc, bytes, 1).ok()?;
    if !written {
        return Some(Vec::new(alloc));
    }
    write(alloc, &document, false).ok()
}
