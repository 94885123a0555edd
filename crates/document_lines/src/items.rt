ghost use Rattle.std.specs.Prelude.{◌≡◌, ◌++◌, pos, map, IfOk, OnOk};
ghost use Rattle.doc_format.specs.declared.part.SetItem.TheVariants.{Vertex, Reference};
ghost use Rattle.document_lines.specs.LastLines.{items_of};

use doc_format::SetItem;
use mb_base::OutOfMemory;
use std::alloc::Global;

/// Puts vertices at the end.
fn push_vertices(items: &mut Vec<SetItem>, vertices: &[u32]) -> Result<(), OutOfMemory>
    ensures { OnOk result
        (items.new.items ≡ items.old.items ++ map (λ v. Vertex (pos v)) vertices.now) }
{
    for vertex in vertices {
        items.push(SetItem::Vertex(i64::from(*vertex)))?;
    }
    Ok(())
}

/// Puts references to lines at the end.
fn push_references(items: &mut Vec<SetItem>, lines: &[u32]) -> Result<(), OutOfMemory>
    ensures { OnOk result
        (items.new.items ≡ items.old.items ++ map (λ r. Reference (pos r)) lines.now) }
{
    for line in lines {
        items.push(SetItem::Reference(i64::from(*line)))?;
    }
    Ok(())
}

/// The items of a line: vertices, then references.
pub fn items_of(
    alloc: Global,
    vertices: &[u32],
    references: &[u32],
) -> Result<Vec<SetItem>, OutOfMemory>
    ensures { IfOk result (λ v. v.items ≡ items_of vertices.now references.now) }
{
    let count = vertices.len().saturating_add(references.len());
    let mut items = Vec::with_capacity(alloc, count)?;
    push_vertices(&mut items, vertices)?;
    push_references(&mut items, references)?;
    Ok(items)
}
