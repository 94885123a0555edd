ghost use Rattle.std.specs.Prelude.{◌≡◌};
ghost use Rattle.doc_format.specs.Form.{letter_of, rank, key, takes, admits};
ghost use Rattle.doc_format.specs.Order.{follows};

use crate::letter::Letter;
use crate::part::{Part, key, letter_of};
use crate::status::DocStatus;
use mb_problem::Kind;

/// Where a part stands in the order of a document's lines.
#[derive(Clone, Copy)]
pub struct Place {
    rank: u8,
    key: i64,
}

/// The place of a part.
pub fn place_of(part: &Part) -> Place
    ensures rank { result.rank ≡ rank (letter_of part.now) }
    ensures key { result.key ≡ key part.now }
{
    Place {
        rank: letter_of(part).rank(),
        key: key(part),
    }
}

/// Whether a part may stand after the last one.
pub fn may_follow(last: Option<Place>, part: &Part) -> bool
    ensures { result ≡ follows last part.now }
{
    let Some(last) = last else {
        return true;
    };
    let letter = letter_of(part);
    let rank = letter.rank();
    if last.rank < rank {
        return true;
    }
    if last.rank != rank {
        return false;
    }
    if letter.repeats() {
        return true;
    }
    last.key < key(part)
}

/// Whether a document of this status and kind has lines of this letter.
fn takes(status: DocStatus, kind: Kind, letter: Letter) -> bool
    ensures { result ≡ takes status kind letter }
{
    match status {
        DocStatus::Optimal => letter.proves_best(kind.proof()) || letter.answers(kind.form()),
        DocStatus::Infeasible => letter.excludes(kind.obstruction()),
        DocStatus::NonConservative => letter.is_circuit(),
    }
}

/// Whether a document of this status and kind may have the part.
pub fn may_have(status: DocStatus, kind: Kind, part: &Part) -> bool
    ensures { result ≡ admits status kind part.now }
{
    takes(status, kind, letter_of(part))
}
