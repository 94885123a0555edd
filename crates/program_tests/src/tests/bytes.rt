use mb_base::{Fields, next_line, number};
use std::test::Fail;

/// A field, and the number that it is.
const NUMBERS: [(&[u8], Option<i64>); 12] = [
    (b"7", Some(7)),
    (b"007", Some(7)),
    (b"-0", Some(0)),
    (b"-12", Some(-12)),
    (b"1000000000000", Some(1_000_000_000_000)),
    (b"99999999999999999999999999", Some(1_000_000_000_001)),
    (b"-99999999999999999999999999", Some(-1_000_000_000_001)),
    (b"+1", None),
    (b"1.0", None),
    (b"-", None),
    (b"--1", None),
    (b"", None),
];

#[test]
fn numbers_are_signed_digits(rt: HostRuntime) -> Result<(), Fail> {
    for (field, wanted) in &NUMBERS {
        assert!(rt; number(*field, 1_000_000_000_000) == *wanted);
    }
    Ok(())
}

/// Bytes, and their first line with what follows it.
const LINES: [(&[u8], Option<(&[u8], &[u8])>); 5] = [
    (b"", None),
    (b"a\nb", Some((b"a", b"b"))),
    (b"a\r\n\n", Some((b"a", b"\n"))),
    (b"a\r\r", Some((b"a\r", b""))),
    (b"\n", Some((b"", b""))),
];

/// Whether bytes are split so.
fn splits(bytes: &[u8], wanted: Option<(&[u8], &[u8])>) -> bool {
    next_line(bytes) == wanted
}

#[test]
fn lines_end_at_line_feeds(rt: HostRuntime) -> Result<(), Fail> {
    for (bytes, wanted) in &LINES {
        assert!(rt; splits(*bytes, *wanted));
    }
    Ok(())
}

const FIELDS: [&[u8]; 3] = [b"e", b"1", b"\r2"];

#[test]
fn fields_are_runs_between_blanks(rt: HostRuntime) -> Result<(), Fail> {
    let mut fields = Fields::new(b"  e\t1 \r2 ");
    for field in &FIELDS {
        assert!(rt; fields.next() == Some(*field));
    }
    assert!(rt; fields.next() == None);
    Ok(())
}
