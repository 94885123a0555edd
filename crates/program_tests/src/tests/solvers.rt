ghost use Rattle.std.specs.Prelude.{◌≡◌, ◌<◌, true};
ghost use Rattle.brute_force.specs.Best.{is_counted};
ghost use Rattle.mb_problem.specs.Ready.{IsReady};

use brute_force::{best, is_small, least_tour_weight};
use doc_format::Document;
use mb_base::{OutOfMemory, Steps};
use mb_problem::{Instance, Kind, gadget_size, weight};
use solve_kinds::solve;
use std::alloc::Global;
use std::process::Abort;
use std::sync::ledger::{Blank, Ledger};

/// The weight of a best answer, found by trying all, if there is one.
pub fn best_weight(
    rt: &impl Abort,
    alloc: Global,
    instance: &Instance,
    kind: Kind,
) -> Result<Option<i128>, OutOfMemory>
    requires { is_counted kind ≡ true }
{
    assert!(rt; is_small(alloc, instance, kind)?);
    match best(alloc, instance, kind)? {
        Some(answer) => Ok(Some(weight(instance, kind, &answer))),
        None => Ok(None),
    }
}

/// The weight of a least tour, found by trying all sets of edges that it may use twice.
pub fn least_tour(
    rt: &impl Abort,
    alloc: Global,
    instance: &Instance,
) -> Result<i128, OutOfMemory> {
    assert!(rt; is_small(alloc, instance, Kind::Postman)?);
    least_tour_weight(alloc, instance)
}

/// The solver's document for an instance.
pub fn document_of<L: Ledger>(
    rt: &impl Abort,
    alloc: Global,
    instance: &Instance,
    kind: Kind,
    blank: Blank,
) -> Result<Document, OutOfMemory>
    requires well_formed { IsReady kind instance.now }
    requires name { blank.name ≡ L.name }
    requires parts { blank.parts ≡ L.parts }
    requires some { 0 < blank.parts }
{
    let (vertices, edges) = gadget_size(instance, kind);
    assert!(rt; vertices <= 16_384);
    assert!(rt; edges <= 1_048_576);
    let mut steps = Steps::<L>::new(blank);
    solve(alloc, instance, kind, &mut steps)
}
