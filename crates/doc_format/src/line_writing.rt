ghost use Rattle.std.specs.Prelude.{◌≡◌, ◌∷◌, [], ◌++◌, map, OnOk};
ghost use Rattle.std.specs.Fmt.{signed_decimal};
ghost use Rattle.doc_format.specs.Parts.{at_most_one};
ghost use Rattle.doc_format.specs.Spelling.{row_text, part_row, parts_text, with_count};

use crate::part::{CountLine, DualLine, MemberLine, Part, PathLine, SetLine};
use crate::spelling::{put_members, put_number_and_items, put_number_and_members, put_pair};
use mb_base::OutOfMemory;

fn put_count(out: &mut Vec<u8>, x: &CountLine) -> Result<(), OutOfMemory>
    ensures { OnOk result (out.new.items ≡ out.old.items
        ++ row_text (part_row (Part.Count x.now))) }
{
    put_pair(out, b'x', x.edge, x.count)
}

fn put_dual(out: &mut Vec<u8>, y: &DualLine) -> Result<(), OutOfMemory>
    ensures { OnOk result (out.new.items ≡ out.old.items ++ row_text (part_row (Part.Dual y.now))) }
{
    put_pair(out, b'y', y.vertex, y.dual)
}

fn put_set(out: &mut Vec<u8>, z: &SetLine) -> Result<(), OutOfMemory>
    ensures { OnOk result (out.new.items ≡ out.old.items ++ row_text (part_row (Part.Set z.now))) }
{
    put_number_and_items(out, b'z', z.dual, z.items.as_slice())
}

fn put_path(out: &mut Vec<u8>, r: &PathLine) -> Result<(), OutOfMemory>
    ensures { OnOk result (out.new.items ≡ out.old.items ++ row_text (part_row (Part.Even r.now))) }
{
    put_number_and_members(out, b'r', r.vertex, r.edges.as_slice())
}

/// The lines of how often edges are used.
pub fn put_counts(out: &mut Vec<u8>, counts: &[CountLine]) -> Result<(), OutOfMemory>
    ensures { OnOk result (out.new.items ≡ out.old.items
        ++ parts_text (map Part.Count counts.now)) }
{
    for x in counts {
        put_count(out, x)?;
    }
    Ok(())
}

/// The lines of duals of vertices.
pub fn put_duals(out: &mut Vec<u8>, duals: &[DualLine]) -> Result<(), OutOfMemory>
    ensures { OnOk result (out.new.items ≡ out.old.items ++ parts_text (map Part.Dual duals.now)) }
{
    for y in duals {
        put_dual(out, y)?;
    }
    Ok(())
}

/// The lines of duals of sets.
pub fn put_sets(out: &mut Vec<u8>, sets: &[SetLine]) -> Result<(), OutOfMemory>
    ensures { OnOk result (out.new.items ≡ out.old.items ++ parts_text (map Part.Set sets.now)) }
{
    for z in sets {
        put_set(out, z)?;
    }
    Ok(())
}

/// The lines of paths.
pub fn put_paths(out: &mut Vec<u8>, paths: &[PathLine]) -> Result<(), OutOfMemory>
    ensures { OnOk result (out.new.items ≡ out.old.items ++ parts_text (map Part.Even paths.now)) }
{
    for r in paths {
        put_path(out, r)?;
    }
    Ok(())
}

/// The line of a set of vertices, if there is one.
pub fn put_vertices(
    out: &mut Vec<u8>,
    letter: u8,
    vertices: &Option<MemberLine>,
) -> Result<(), OutOfMemory>
    ensures { (made : MemberLine → Part)
        → ((u : MemberLine) → part_row (made u)
        ≡ (letter ∷ []) ∷ map signed_decimal (with_count u.members))
        → OnOk result (out.new.items ≡ out.old.items
        ++ parts_text (at_most_one made vertices.now)) }
{
    match vertices {
        Some(line) => put_members(out, letter, line.members.as_slice()),
        None => Ok(()),
    }
}
