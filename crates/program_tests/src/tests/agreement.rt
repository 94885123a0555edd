ghost use Rattle.std.specs.Prelude.{◌≡◌, length, IfOk, IfSome};
ghost use Rattle.mb_problem.specs.Measured.{HasPlaces};

use doc_format::{CountLine, DocStatus, Document, MemberLine};
use mb_base::{OutOfMemory, Sequence};
use mb_problem::{Answer, Instance, Kind, Obstruction, feasible, weight};
use std::alloc::Global;

/// Writes the count of a line at the place of its edge, if both are in range.
fn write_count(counts: &mut Vec<u32>, line: &CountLine) -> bool
    ensures { length counts.new.items ≡ length counts.old.items }
{
    let Ok(edge) = usize::try_from(line.edge) else {
        return false;
    };
    let Ok(count) = u32::try_from(line.count) else {
        return false;
    };
    if edge < 1 || counts.len() < edge {
        return false;
    }
    counts[edge - 1] = count;
    true
}

/// The counts of a document, one for each edge of the instance, if all are in range.
fn stated_answer(
    alloc: Global,
    instance: &Instance,
    document: &Document,
) -> Result<Option<Answer>, OutOfMemory>
    ensures { IfOk result (λ found. IfSome found (HasPlaces instance.now)) }
{
    let mut counts = vec![in alloc; 0u32; instance.edges() as usize]?;
    for line in document.counts.as_slice() {
        if !write_count(&mut counts, line) {
            return Ok(None);
        }
    }
    Ok(Some(Answer::Counts(Sequence::from_vec(counts))))
}

/// Whether the counts of a document are a feasible answer of this weight, and it states this
/// weight.
fn states_weight(
    alloc: Global,
    instance: &Instance,
    kind: Kind,
    document: &Document,
    wanted: i128,
) -> Result<bool, OutOfMemory> {
    if i128::from(document.weight) != wanted {
        return Ok(false);
    }
    let Some(answer) = stated_answer(alloc, instance, document)? else {
        return Ok(false);
    };
    if weight(instance, kind, &answer) != wanted {
        return Ok(false);
    }
    feasible(alloc, instance, kind, &answer)
}

/// Whether a document has the line that excludes answers of the kind.
fn excludes(kind: Kind, document: &Document) -> bool {
    match kind.obstruction() {
        Obstruction::Barrier => document.barrier.is_some(),
        Obstruction::OddPart => document.odd.is_some(),
        Obstruction::SplitPart => document.split.is_some(),
        Obstruction::Never => false,
    }
}

/// Whether a document states a feasible answer of the best weight, or that there is none if there
/// is no such weight.
pub fn agrees(
    alloc: Global,
    instance: &Instance,
    kind: Kind,
    document: &Document,
    best: Option<i128>,
) -> Result<bool, OutOfMemory> {
    match best {
        Some(best) => {
            if document.status != DocStatus::Optimal {
                return Ok(false);
            }
            states_weight(alloc, instance, kind, document, best)
        }
        None => Ok(document.status == DocStatus::Infeasible && excludes(kind, document)),
    }
}

/// Whether a document states that a tour of this weight is best.
pub fn states_tour(document: &Document, least: i128) -> bool {
    document.status == DocStatus::Optimal && i128::from(document.weight) == least
}

/// Whether the line of a set has these members.
fn has_members(line: &Option<MemberLine>, members: &[i64]) -> bool {
    match line {
        Some(line) => line.members.as_slice() == members,
        None => false,
    }
}

/// Whether a document states these vertices that some greatest matching misses, these neighbours
/// and as many paths.
pub fn states_missed(document: &Document, missed: &[i64], border: &[i64]) -> bool {
    has_members(&document.outer, missed)
        && has_members(&document.barrier, border)
        && document.paths.as_slice().len() == missed.len()
}
