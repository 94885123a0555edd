ghost use Rattle.std.specs.Prelude.{◌≡◌};
ghost use Rattle.doc_format.specs.Form.{is_head};

use crate::status::DocStatus;
use mb_problem::{Kind, Obstruction};

/// What the first line of a document says, and its number.
#[derive(Clone, Copy)]
pub struct Head {
    pub line: u64,
    pub status: DocStatus,
    pub kind: Kind,
    pub weight: i64,
}

/// Whether a document of this kind can have this status.
pub fn fits(status: DocStatus, kind: Kind) -> bool
    ensures { result ≡ is_head status kind }
{
    match status {
        DocStatus::Optimal => true,
        DocStatus::Infeasible => kind.obstruction() != Obstruction::Never,
        DocStatus::NonConservative => kind.asks_conservative(),
    }
}
