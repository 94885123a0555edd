ghost use Rattle.std.specs.Prelude.{◌≡◌, ◌&&◌, [], true, OnOk, IfOk};
ghost use Rattle.mb_base.specs.Text.{fields};
ghost use Rattle.doc_format.specs.Form.{admits, parts_of, is_formed};
ghost use Rattle.doc_format.specs.Rows.{IsTabled};
ghost use Rattle.doc_format.specs.Reading.{body_of, head_of};
ghost use Rattle.doc_format.specs.Order.{IsLast, follows};
ghost use Rattle.doc_format.specs.Steps.{Pushes, Takes};

use crate::document::Document;
use crate::error::DocError;
use crate::first_field::first_field;
use crate::head::Head;
use crate::order::{Place, may_follow, may_have, place_of};
use crate::part::{Part, read_part};
use std::alloc::Global;

/// What has been read of a document, and the place of its last part.
#[derive(Drop)]
pub struct Draft {
    pub document: Document,
    pub last: Option<Place>,
}

impl Draft {
    /// A document of its first line alone.
    pub fn new(alloc: Global, head: Head) -> Draft
        requires { IsTabled head }
        ensures head { head_of result.document ≡ head }
        ensures parts { parts_of (body_of result.document) ≡ [] }
        ensures last { IsLast result.last (parts_of (body_of result.document)) }
    {
        Draft {
            document: Document::new(alloc, head),
            last: None,
        }
    }

    /// Whether a part may stand at the end of the document.
    fn may_take(&self, part: &Part) -> bool
        ensures { result ≡ (admits self.now.document.status self.now.document.kind part.now
            && follows self.now.last part.now) }
    {
        may_have(self.document.status, self.document.kind, part) && may_follow(self.last, part)
    }

    /// Puts a part of this line at the end, where it may stand there.
    fn push(&mut self, line: u64, part: Part) -> Result<(), DocError>
        requires last { IsLast self.old.last (parts_of (body_of self.old.document)) }
        requires form { is_formed part ≡ true }
        ensures pushed { Pushes self.old.document self.new.document line part result }
        ensures last { OnOk result (IsLast self.new.last (parts_of (body_of self.new.document))) }
    {
        if !self.may_take(&part) {
            drop(part);
            return Err(DocError::DocForm { line });
        }
        let place = place_of(&part);
        self.document.add(part)?;
        self.last = Some(place);
        Ok(())
    }

    /// Takes a line after the first, of this number.
    pub fn take(&mut self, alloc: Global, line: u64, text: &[u8]) -> Result<(), DocError>
        requires { IsLast self.old.last (parts_of (body_of self.old.document)) }
        ensures taken { Takes self.old.document self.new.document line (fields text.now) result }
        ensures last { OnOk result (IsLast self.new.last (parts_of (body_of self.new.document))) }
    {
        let Some((letter, others)) = first_field(text) else {
            return Ok(());
        };
        // A field takes two bytes at least, its blank and one more.
        let most = text.len() / 2;
        let Some(part) = read_part(alloc, line, letter, most, others)? else {
            return Err(DocError::DocForm { line });
        };
        self.push(line, part)
    }
}
