ghost use Rattle.std.specs.Prelude.{◌≡◌, ◌+◌, ◌<◌, ◌≤◌, ℕ, pos, ◌≤ℤ◌};
ghost use Rattle.std.specs.Prelude.{All, [], length, get_or, Some, IfOk, OnOk};
ghost use Rattle.graph_theory.specs.Duals.{IsNumber};
ghost use Rattle.graph_theory.specs.Nested.{AreNested};
ghost use Rattle.mwpm_engine.specs.declared.outcome.Outcome.TheVariants.{Matched};
ghost use Rattle.document_lines.specs.Gathering.{AreReady, HaveNames};
ghost use Rattle.document_lines.specs.LastLines.{IsLineOf};
ghost use Rattle.document_lines.specs.Members.{AreWithin};
ghost use Rattle.document_lines.specs.Sets.{AreOdd, ListsSets, set_from_last};

use crate::gathering::gather;
use crate::items::items_of;
use crate::ordering::{arrange, sort};
use crate::tables::Tables;
use doc_format::SetLine;
use mb_base::{OutOfMemory, Sequence};
use mwpm_engine::Engine;
use std::alloc::Global;
use weighted_graph::Graph;

/// Finds what the line after `done` others names, and gives the dual of its set.
fn find_names(
    engine: &Engine,
    done: u32,
    tables: &mut Tables,
    vertices: u32,
) -> Result<i64, OutOfMemory>
    requires matched { engine.now.outcome ≡ Some Matched }
    requires done { done < length engine.now.sets }
    requires within { AreWithin vertices engine.now.sets }
    requires well_formed { AreReady vertices engine.now.sets done tables.old }
    ensures well_formed { OnOk result (AreReady vertices engine.now.sets (done + 1) tables.new) }
    ensures names { OnOk result (HaveNames engine.now.sets done tables.new) }
    ensures dual { IfOk result (λ d. d ≡ (set_from_last engine.now.sets done).dual) }
{
    let place = engine.set_count() - 1 - done;
    let (dual, members) = engine.set(place);
    tables.vertices.clear();
    tables.references.clear();
    gather(
        members,
        done + 1,
        &mut tables.last,
        &mut tables.seen,
        &mut tables.vertices,
        &mut tables.references,
    )?;
    arrange(&mut tables.vertices, &mut tables.marks, vertices)?;
    sort(&mut tables.references);
    Ok(dual)
}

/// The line after `done` others.
fn set_line(
    alloc: Global,
    engine: &Engine,
    done: u32,
    tables: &mut Tables,
    vertices: u32,
) -> Result<SetLine, OutOfMemory>
    requires matched { engine.now.outcome ≡ Some Matched }
    requires done { done < length engine.now.sets }
    requires within { AreWithin vertices engine.now.sets }
    requires well_formed { AreReady vertices engine.now.sets done tables.old }
    ensures well_formed { OnOk result (AreReady vertices engine.now.sets (done + 1) tables.new) }
    ensures line { IfOk result (λ z. IsLineOf engine.now.sets done z) }
{
    let dual = find_names(engine, done, tables, vertices)?;
    let items = items_of(alloc, &tables.vertices, &tables.references)?;
    Ok(SetLine {
        line: 1,
        dual,
        items: Sequence::from_vec(items),
    })
}

/// Puts the line of each set behind those before it, with tables for the first line.
fn put_lines(
    alloc: Global,
    engine: &Engine,
    tables: &mut Tables,
    lines: &mut Vec<SetLine>,
    vertices: u32,
) -> Result<(), OutOfMemory>
    requires matched { engine.now.outcome ≡ Some Matched }
    requires within { AreWithin vertices engine.now.sets }
    requires well_formed { AreReady vertices engine.now.sets 0 tables.old }
    requires none { lines.old.items ≡ [] }
    ensures count { OnOk result (length lines.new.items ≡ length engine.now.sets) }
    ensures lines { OnOk result ((k : ℕ) (z : SetLine) → k < length lines.new.items
        → z ≡ get_or lines.new.items k z → IsLineOf engine.now.sets k z) }
{
    for done in 0..engine.set_count() {
        lines.push(set_line(alloc, engine, done, tables, vertices)?)?;
    }
    Ok(())
}

/// The `z` lines: the sets with their duals, the last one first, so that each set comes after those
/// inside it. A set is given by the members that lie in no set before it, ascending, and by the
/// greatest of the sets before it that lie inside, ascending. It takes time linear in the vertices
/// and the members, but for few vertices or sets of one line, which are sorted.
pub fn set_lines(alloc: Global, engine: &Engine, graph: &Graph) -> Result<Vec<SetLine>, OutOfMemory>
    requires matched { engine.now.outcome ≡ Some Matched }
    requires within { AreWithin graph.now.vertices engine.now.sets }
    requires positive { All (λ s. pos 1 ≤ℤ s.dual) engine.now.sets }
    requires numbers { All (λ s. IsNumber s.dual) engine.now.sets }
    requires nested { AreNested engine.now.sets }
    requires odd { AreOdd engine.now.sets }

    // Its odd sets, innermost first, each vertex and each set named once; two sets are nested or
    // disjoint.
    ensures { IfOk result (λ v. ListsSets graph.now.vertices engine.now.sets v.items) }
{
    let vertices = graph.vertices();
    let count = engine.set_count();
    let mut lines = Vec::with_capacity(alloc, count as usize)?;
    let mut tables = Tables::new(alloc, vertices, count)?;
    let listed = put_lines(alloc, engine, &mut tables, &mut lines, vertices);
    drop(tables);
    listed?;
    Ok(lines)
}
