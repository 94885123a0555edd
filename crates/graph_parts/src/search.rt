ghost use Rattle.std.specs.Prelude.{◌≡◌, ℕ, ◌+◌, ◌<◌, ◌≤◌, false, length, OnOk};
ghost use Rattle.graph_theory.specs.Graph.{edges_around};
ghost use Rattle.weighted_graph.specs.Index.{IsIndex};
ghost use Rattle.graph_parts.specs.Marks.{is_marked};
ghost use Rattle.graph_parts.specs.Search.{ReachesOne, ReachesFrom, Finds};
ghost use Rattle.graph_parts.specs.Links.{AddsLink, LinksFrom, LinksAll};

use crate::links::Link;
use mb_base::{EdgeId, OutOfMemory, VertexId};
use weighted_graph::{Graph, Incidence};

/// Marks and reaches the vertex that the link leads to, unless it is removed or marked.
fn reach(
    removed: &[bool],
    link: Link,
    marks: &mut [bool],
    reached: &mut Vec<VertexId>,
    links: &mut Vec<Link>,
) -> Result<(), OutOfMemory>
    requires removed { link.to < length removed.now }
    requires marks { link.to < length marks.old }
    ensures reached { OnOk result
        (ReachesOne removed.now link.to marks.old reached.old.items marks.new reached.new.items) }
    ensures links { OnOk result
        (AddsLink link reached.old.items links.old.items reached.new.items links.new.items) }
{
    let place = link.to.number() as usize;
    if removed[place] {
        return Ok(());
    }
    if marks[place] {
        return Ok(());
    }
    marks[place] = true;
    reached.push(link.to)?;
    links.push(link)?;
    Ok(())
}

/// Reaches the other ends of the edges at a vertex.
fn reach_from(
    graph: &Graph,
    numbers: &[EdgeId],
    removed: &[bool],
    vertex: VertexId,
    marks: &mut [bool],
    reached: &mut Vec<VertexId>,
    links: &mut Vec<Link>,
) -> Result<(), OutOfMemory>
    requires numbers { numbers.now ≡ edges_around graph.now vertex }
    requires removed { length removed.now ≡ graph.now.vertices + 1 }
    requires marks { length marks.old ≡ graph.now.vertices + 1 }
    ensures reached { OnOk result
        (ReachesFrom graph.now removed.now vertex marks.old reached.old.items marks.new
        reached.new.items) }
    ensures links { OnOk result
        (LinksFrom graph.now vertex reached.old.items links.old.items reached.new.items
        links.new.items) }
{
    for number in numbers {
        let to = graph.other_end(*number, vertex);
        let link = Link { edge: *number, to };
        reach(removed, link, marks, reached, links)?;
    }
    Ok(())
}

/// Reaches and marks the component of the start, breadth first, in time linear in its vertices and
/// their edges. What was reached before is forgotten. To each vertex but the start a link is added,
/// in the order in which they are found: a tree that spans the component.
pub(crate) fn search(
    graph: &Graph,
    index: &Incidence,
    removed: &[bool],
    start: VertexId,
    marks: &mut [bool],
    reached: &mut Vec<VertexId>,
    links: &mut Vec<Link>,
) -> Result<(), OutOfMemory>
    requires index { IsIndex graph.now index.now }
    requires removed { length removed.now ≡ graph.now.vertices + 1 }
    requires marks { length marks.old ≡ graph.now.vertices + 1 }
    requires low { 1 ≤ start }
    requires high { start ≤ graph.now.vertices }
    requires free { is_marked removed.now start ≡ false }
    requires new { is_marked marks.old start ≡ false }
    ensures finds { OnOk result
        (Finds graph.now removed.now start marks.old marks.new reached.new.items) }
    ensures links { OnOk result
        (LinksAll graph.now start links.old.items reached.new.items links.new.items) }
{
    reached.clear();
    marks[start.number() as usize] = true;
    reached.push(start)?;
    let mut done = 0;
    while done < reached.len() {
        let vertex = reached[done];
        reach_from(
            graph,
            index.at(vertex),
            removed,
            vertex,
            marks,
            reached,
            links,
        )?;
        done += 1;
    }
    Ok(())
}
