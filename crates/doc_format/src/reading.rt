ghost use Rattle.std.specs.Prelude.{◌≡◌, ◌≤◌, ◌^◌, ℕ, ◌<◌, ◌+◌, length, map, MatchResult, IfOk};
ghost use Rattle.mb_base.specs.Rows.{rows};
ghost use Rattle.doc_format.specs.Rows.{IsTabled};
ghost use Rattle.doc_format.specs.Reading.{Reads};
ghost use Rattle.doc_format.specs.Steps.{IsOpening, IsFault};

use crate::document::Document;
use crate::draft::Draft;
use crate::error::DocError;
use crate::first_field::first_field;
use crate::head::Head;
use crate::opening::read_head;
use mb_base::next_line;
use std::alloc::Global;

/// What the first line that isn't skipped says, with the bytes after it, or the number of the line
/// that should be a first line and is none.
fn open(bytes: &[u8], line: u64) -> Result<(Head, &[u8]), u64>
    requires { line ≤ 2 ^ 62 }
    ensures opening { MatchResult result
        (λ r. IsOpening line (rows bytes.now) (rows r.1.now) r.0)
        (IsFault line (rows bytes.now)) }
    ensures table { IfOk result (λ r. IsTabled r.0) }
    ensures size_limit { IfOk result (λ r. r.0.line + length r.1.now < line + length bytes.now) }
{
    let mut rest = bytes;
    let mut number = line;
    'lines: while let Some((text, after)) = next_line(rest) {
        if let Some((letter, others)) = first_field(text) {
            return match read_head(number, letter, others) {
                Some(head) => Ok((head, after)),
                None => Err(number),
            };
        }
        number += 1;
        rest = after;
    }
    Err(number)
}

/// The document of a text whose first line has the number `line`, or the number of the first line
/// that makes the text none: the line after the last one where the text has no line but blank ones
/// and comments. Numbers beyond `NUMBER_LIMIT` are kept as that and one more, with their sign.
pub fn read(alloc: Global, bytes: &[u8], line: u64) -> Result<Document, DocError>
    requires low { 1 ≤ line }
    requires high { line ≤ 2 ^ 62 }

    // The document of a text, or its first line that isn't of the form.
    ensures { Reads line bytes.now result }
{
    let (head, rest) = match open(bytes, line) {
        Ok(opening) => opening,
        Err(line) => return Err(DocError::DocForm { line }),
    };
    let mut draft = Draft::new(alloc, head);
    let mut rest = rest;
    let mut number = head.line + 1;
    'lines: while let Some((text, after)) = next_line(rest) {
        if let Err(error) = draft.take(alloc, number, text) {
            drop(draft);
            return Err(error);
        }
        number += 1;
        rest = after;
    }
    let Draft { document, last: _ } = draft;
    Ok(document)
}
