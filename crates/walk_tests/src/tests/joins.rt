//! A join that is guessed and one that is searched, for the same instance.
ghost use Rattle.std.specs.Prelude.{◌≡◌, ◌<◌, true, IsTrue, IfOk};
ghost use Rattle.graph_theory.specs.Limits.{IsWithinLimits};
ghost use Rattle.mb_problem.specs.declared.answer.Parity.TheVariants.{Values};
ghost use Rattle.mb_problem.specs.Joins.{HasJoin};
ghost use Rattle.mb_problem.specs.Size.{ports_size, odd_at};

use array_joins::{GuessTables, guessed_join};
use graph_parts::{JoinOrOdd, join_or_odd};
use graph_theory::{GRAPH_EDGE_LIMIT, GRAPH_VERTEX_LIMIT};
use least_joins::least_join;
use mb_base::{EdgeId, OutOfMemory, Steps};
use mb_problem::{Instance, Join, Kind, Parity, gadget_size};
use std::alloc::Global;
use std::process::Abort;
use std::sync::ledger::{Blank, Ledger};

/// Whether the graph of ports may be searched.
fn is_searchable(instance: &Instance) -> bool
    ensures { IsTrue result
        → IsWithinLimits (ports_size instance.now (odd_at Values instance.now)) }
{
    let (vertices, edges) = gadget_size(instance, Kind::TJoin);
    if vertices > u64::from(GRAPH_VERTEX_LIMIT) {
        return false;
    }
    edges <= u64::from(GRAPH_EDGE_LIMIT)
}

/// The join that is guessed and proved, if there is one.
pub fn guessed<L: Ledger>(
    rt: &impl Abort,
    alloc: Global,
    instance: &Instance,
    blank: Blank,
) -> Result<Option<Join>, OutOfMemory>
    requires name { blank.name ≡ L.name }
    requires parts { blank.parts ≡ L.parts }
    requires some { 0 < blank.parts }
{
    assert!(rt; is_searchable(instance));
    let parity = Parity::Values;
    let size = gadget_size(instance, Kind::TJoin);
    let mut tables = GuessTables::new(alloc, instance, &parity)?;
    let mut steps = Steps::<L>::new(blank);
    let join = guessed_join(alloc, &mut tables, instance, &parity, size, &mut steps);
    tables.release();
    join
}

/// Whether there is a join.
fn has_join(alloc: Global, instance: &Instance) -> Result<bool, OutOfMemory>
    ensures { IfOk result (λ b. b ≡ true → HasJoin Values instance.now) }
{
    match join_or_odd(alloc, instance, &Parity::Values)? {
        JoinOrOdd::Join(_) => Ok(true),
        JoinOrOdd::OddSet(_) => Ok(false),
    }
}

/// The join of minimum weight that a search of the graph of ports finds.
pub fn searched<L: Ledger>(
    rt: &impl Abort,
    alloc: Global,
    instance: &Instance,
    blank: Blank,
) -> Result<Join, OutOfMemory>
    requires name { blank.name ≡ L.name }
    requires parts { blank.parts ≡ L.parts }
    requires some { 0 < blank.parts }
{
    assert!(rt; is_searchable(instance));
    assert!(rt; has_join(alloc, instance)?);
    let mut steps = Steps::<L>::new(blank);
    least_join(alloc, instance, &Parity::Values, &mut steps)
}

/// The weights of edges, added up.
pub fn weight_of(instance: &Instance, edges: &[EdgeId]) -> i128 {
    let list = instance.edge_list();
    let mut total = 0i128;
    for edge in edges {
        let place = (edge.number() as usize).saturating_sub(1);
        if let Some(edge) = list.get(place) {
            total = total.saturating_add(i128::from(edge.w));
        }
    }
    total
}
