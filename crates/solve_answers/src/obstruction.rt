ghost use Rattle.std.specs.Prelude.{◌≡◌, true, false, IfOk};
ghost use Rattle.std.specs.List.Sorted.{IsStrictlyIncreasing};
ghost use Rattle.mb_problem.specs.Kinds.{obstruction_of};
ghost use Rattle.doc_format.specs.Parts.{ascends};
ghost use Rattle.doc_format.specs.Form.{is_never};
ghost use Rattle.solve_answers.specs.Excluding.{set_body, StatesLine, StatesSet};

use doc_format::{DocStatus, Document, Head, MemberLine};
use document_lines::member_line;
use mb_base::{OutOfMemory, VertexId};
use mb_problem::{Kind, Obstruction};
use std::alloc::Global;

/// What a document has for a barrier, an odd part and a split part: this line is the one that
/// excludes answers so, and the others are none.
fn placed(
    obstruction: Obstruction,
    line: MemberLine,
) -> (Option<MemberLine>, Option<MemberLine>, Option<MemberLine>)
    ensures barrier { result.0 ≡ (set_body obstruction line).barrier }
    ensures odd { result.1 ≡ (set_body obstruction line).odd }
    ensures split { result.2 ≡ (set_body obstruction line).split }
{
    match obstruction {
        Obstruction::Barrier => (Some(line), None, None),
        Obstruction::OddPart => (None, Some(line), None),
        Obstruction::SplitPart => (None, None, Some(line)),
        Obstruction::Never => (None, None, None),
    }
}

/// The document of a line of vertices, ascending, that excludes all answers of a kind.
///
/// # Errors
///
/// `OutOfMemory` if an allocation fails.
pub fn infeasible_by(alloc: Global, kind: Kind, line: MemberLine) -> Result<Document, OutOfMemory>
    requires kind { is_never (obstruction_of kind) ≡ false }
    requires ascending { ascends line.members ≡ true }
    ensures { IfOk result (StatesLine kind line) }
{
    let (barrier, odd, split) = placed(kind.obstruction(), line);
    let head = Head {
        line: 1,
        status: DocStatus::Infeasible,
        kind,
        weight: 0,
    };
    let mut document = Document::new(alloc, head);
    document.barrier = barrier;
    document.odd = odd;
    document.split = split;
    Ok(document)
}

/// The document of a set of vertices, ascending, that excludes all answers of a kind.
///
/// # Errors
///
/// `OutOfMemory` if an allocation fails.
pub fn infeasible(alloc: Global, kind: Kind, set: &[VertexId]) -> Result<Document, OutOfMemory>
    requires kind { is_never (obstruction_of kind) ≡ false }
    requires ascending { IsStrictlyIncreasing set.now }
    ensures { IfOk result (StatesSet kind set.now) }
{
    let line = member_line(alloc, set)?;
    infeasible_by(alloc, kind, line)
}
