ghost use Rattle.std.specs.Prelude.{◌≡◌, ◌+◌, ◌<◌, ◌==◌, ◌||◌, if◌then◌else◌, [], ◌∷◌, ◌++◌};
ghost use Rattle.std.specs.Prelude.{length, slice_set, All, OnOk};
ghost use Rattle.document_lines.specs.LastLines.{entry};
ghost use Rattle.document_lines.specs.Gathering.{AreBelow, IsGathered};

use blossom_arena::Members;
use mb_base::{OutOfMemory, VertexId};

/// Puts a line at the end, where the line of this number hasn't seen it.
fn see(
    line: u32,
    number: u32,
    seen: &mut [u32],
    references: &mut Vec<u32>,
) -> Result<(), OutOfMemory>
    requires { line < length seen.old }
    ensures seen { OnOk result (seen.new ≡ slice_set seen.old line number) }
    ensures references { OnOk result (references.new.items ≡ (if entry seen.old line == number
        then references.old.items else references.old.items ++ line ∷ [])) }
{
    let place = line as usize;
    let before = seen[place];
    seen[place] = number;
    if before == number {
        return Ok(());
    }
    references.push(line)?;
    Ok(())
}

/// Takes a member into the line of this number: as a vertex where no line holds it, else with the
/// last line that does.
fn take_in(
    member: VertexId,
    number: u32,
    last: &mut [u32],
    seen: &mut [u32],
    vertices: &mut Vec<u32>,
    references: &mut Vec<u32>,
) -> Result<(), OutOfMemory>
    requires member { member < length last.old }
    requires line { entry last.old member < length seen.old }
    ensures last { OnOk result (last.new ≡ slice_set last.old member number) }
    ensures vertices { OnOk result (vertices.new.items ≡ (if entry last.old member == 0
        then vertices.old.items ++ member ∷ [] else vertices.old.items)) }
    ensures seen { OnOk result (seen.new ≡ (if entry last.old member == 0
        then seen.old else slice_set seen.old (entry last.old member) number)) }
    ensures references { OnOk result (references.new.items ≡ (if entry last.old member == 0
        || entry seen.old (entry last.old member) == number then references.old.items
        else references.old.items ++ entry last.old member ∷ [])) }
{
    let place = member.number() as usize;
    let before = last[place];
    last[place] = number;
    if before == 0 {
        vertices.push(member.number())?;
        return Ok(());
    }
    see(before, number, seen, references)
}

/// Gathers what the line of this number names: the members that no line holds, and for the others
/// the last lines that do, each once. It takes time linear in the members.
pub fn gather(
    members: Members<'_>,
    number: u32,
    last: &mut [u32],
    seen: &mut [u32],
    vertices: &mut Vec<u32>,
    references: &mut Vec<u32>,
) -> Result<(), OutOfMemory>
    requires in_range { All (λ m. m < length last.old) members }
    requires number { number < length seen.old }
    requires last { AreBelow number last.old }
    requires seen { AreBelow number seen.old }
    requires no_vertices { vertices.old.items ≡ [] }
    requires no_references { references.old.items ≡ [] }
    ensures last_size { OnOk result (length last.new ≡ length last.old) }
    ensures seen_size { OnOk result (length seen.new ≡ length seen.old) }
    ensures seen { OnOk result (AreBelow (number + 1) seen.new) }

    // The items of a set: vertices that no earlier line holds, and references to the earlier lines
    // that hold the others.
    ensures gathered { OnOk result (IsGathered number members.entry last.old last.new
        vertices.new.items references.new.items) }
{
    // A line names no line of its own number: a member that comes twice is taken in once.
    seen[number as usize] = number;
    for member in members {
        take_in(member, number, last, seen, vertices, references)?;
    }
    Ok(())
}
