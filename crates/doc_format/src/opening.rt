ghost use Rattle.std.specs.Prelude.{◌≡◌, ◌∷◌, pos, false, IfSome};
ghost use Rattle.doc_format.specs.Form.{is_best};
ghost use Rattle.doc_format.specs.Rows.{weight_in, headed, head_at, IsTabled};

use crate::head::{Head, fits};
use crate::number_lists::kept_number;
use crate::status::DocStatus;
use mb_base::Fields;
use mb_problem::Kind;

/// The weight after the status and the kind: a number for a best answer, else nothing.
fn weight(status: DocStatus, fields: Fields<'_>) -> Option<i64>
    ensures value { result ≡ weight_in status fields.entry }
    ensures none { IfSome result (λ w. is_best status ≡ false → w ≡ pos 0) }
{
    let mut fields = fields;
    if status != DocStatus::Optimal {
        if fields.next().is_some() {
            return None;
        }
        return Some(0);
    }
    let field = fields.next()?;
    if fields.next().is_some() {
        return None;
    }
    kept_number(field)
}

/// What the first line of a document says, by the words for its status and its kind and the fields
/// after them.
fn read_named(line: u64, status: &[u8], kind: &[u8], fields: Fields<'_>) -> Option<Head>
    ensures value { result ≡ headed line (status.now ∷ kind.now ∷ fields.entry) }
    ensures table { IfSome result IsTabled }
    ensures line { IfSome result (λ head. head.line ≡ line) }
{
    let status = DocStatus::named(status)?;
    let kind = Kind::named(kind)?;
    let weight = weight(status, fields)?;
    if !fits(status, kind) {
        return None;
    }
    Some(Head {
        line,
        status,
        kind,
        weight,
    })
}

/// What a line says after its first field, as the first line of a document.
fn read_claim(line: u64, fields: Fields<'_>) -> Option<Head>
    ensures value { result ≡ headed line fields.entry }
    ensures table { IfSome result IsTabled }
    ensures line { IfSome result (λ head. head.line ≡ line) }
{
    let mut fields = fields;
    let status = fields.next()?;
    let kind = fields.next()?;
    read_named(line, status, kind, fields)
}

/// What a line says as the first line of a document, by its first field and the others.
pub fn read_head(line: u64, letter: &[u8], fields: Fields<'_>) -> Option<Head>
    ensures value { result ≡ head_at line (letter.now ∷ fields.entry) }
    ensures table { IfSome result IsTabled }
    ensures line { IfSome result (λ head. head.line ≡ line) }
{
    if letter != b"s".as_slice() {
        return None;
    }
    read_claim(line, fields)
}
