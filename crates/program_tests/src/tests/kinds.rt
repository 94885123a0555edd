ghost use Rattle.std.specs.Prelude.{◌≡◌, true, IfSome};
ghost use Rattle.brute_force.specs.Best.{is_counted};
ghost use Rattle.mb_problem.specs.Ready.{IsReady};
ghost use Rattle.mb_problem.specs.declared.kind.Kind.TheVariants.{Gallai, Postman};

use super::agreement::{agrees, states_missed, states_tour};
use super::rows::{
    BMATCH, CAPMATCH, FFACTOR, GREATEST, INTERVAL, MATCH, MISSED, PERFECT, Row, TJOIN, TOURS,
};
use super::solvers::{best_weight, document_of, least_tour};
use dimacs_read::read;
use doc_format::{Document, write};
use mb_problem::{Instance, Kind};
use std::alloc::Global;
use std::marker::Brand;
use std::process::Abort;
use std::sync::ledger::Blank;
use std::test::Fail;

/// Asserts that a row holds, by its name.
fn holds(rt: &impl Abort, name: &str, row: bool) {
    assert!(rt; row, "{name}");
}

/// Asserts that the solver's document for an instance agrees with a best answer that was found by
/// trying all.
fn expect_agreement(
    rt: &impl Abort,
    alloc: Global,
    kind: Kind,
    name: &str,
    instance: &Instance,
) -> Result<(), Fail>
    requires well_formed { IsReady kind instance.now }
    requires counted { is_counted kind ≡ true }
{
    let best = best_weight(rt, alloc, instance, kind)?;
    let document = document_of::<Brand>(rt, alloc, instance, kind, Blank::new(1))?;
    let agreed = agrees(alloc, instance, kind, &document, best);
    drop(document);
    holds(rt, name, agreed?);
    Ok(())
}

/// Asserts that the solver's document for an instance states the weight of a least tour that was
/// found by trying all.
fn expect_tour(rt: &impl Abort, alloc: Global, name: &str, instance: &Instance) -> Result<(), Fail>
    requires { IsReady Postman instance.now }
{
    let least = least_tour(rt, alloc, instance)?;
    let document = document_of::<Brand>(rt, alloc, instance, Kind::Postman, Blank::new(1))?;
    holds(rt, name, states_tour(&document, least));
    drop(document);
    Ok(())
}

/// The solver's document of a greatest matching.
fn greatest_document(rt: &impl Abort, alloc: Global, instance: &Instance) -> Result<Document, Fail>
    requires { IsReady Gallai instance.now }
{
    Ok(document_of::<Brand>(rt, alloc, instance, Kind::Gallai, Blank::new(1))?)
}

/// The instance of a text, if it is one.
fn read_instance(alloc: Global, kind: Kind, text: &str) -> Option<Instance>
    ensures { IfSome result (IsReady kind) }
{
    match read(alloc, text.as_bytes(), kind) {
        Ok((instance, _rest)) => Some(instance),
        Err(_) => None,
    }
}

/// The same for the text of a row.
fn expect_row(
    rt: &impl Abort,
    alloc: Global,
    kind: Kind,
    name: &str,
    text: &str,
) -> Result<(), Fail>
    requires counted { is_counted kind ≡ true }
{
    match read_instance(alloc, kind, text) {
        Some(instance) => expect_agreement(rt, alloc, kind, name, &instance),
        None => panic!(rt; "{name}"),
    }
}

/// The same for each row.
fn expect_rows(rt: &impl Abort, alloc: Global, kind: Kind, rows: &[Row]) -> Result<(), Fail>
    requires counted { is_counted kind ≡ true }
{
    for (name, text) in rows {
        expect_row(rt, alloc, kind, *name, *text)?;
    }
    Ok(())
}

/// The same for the text of a row.
fn expect_tour_row(rt: &impl Abort, alloc: Global, name: &str, text: &str) -> Result<(), Fail> {
    match read_instance(alloc, Kind::Postman, text) {
        Some(instance) => expect_tour(rt, alloc, name, &instance),
        None => panic!(rt; "{name}"),
    }
}

/// The solver's document of a greatest matching for a text.
fn greatest_of(rt: &impl Abort, alloc: Global, text: &str) -> Result<Document, Fail> {
    match read_instance(alloc, Kind::Gallai, text) {
        Some(instance) => greatest_document(rt, alloc, &instance),
        None => panic!(rt; "{text}"),
    }
}

/// Asserts that the solver's document for the text of a row, a greatest matching, is this text.
fn expect_text(rt: &impl Abort, alloc: Global, text: &str, wanted: &str) -> Result<(), Fail> {
    let document = greatest_of(rt, alloc, text)?;
    let written = write(alloc, &document, false);
    drop(document);
    holds(rt, text, written?.as_slice() == wanted.as_bytes());
    Ok(())
}

/// Asserts that it states these vertices that some greatest matching misses, and these neighbours.
fn expect_missed(
    rt: &impl Abort,
    alloc: Global,
    name: &str,
    text: &str,
    missed: &[i64],
    border: &[i64],
) -> Result<(), Fail> {
    let document = greatest_of(rt, alloc, text)?;
    holds(rt, name, states_missed(&document, missed, border));
    drop(document);
    Ok(())
}

#[test]
fn perfect_matchings(rt: HostRuntime) -> Result<(), Fail> {
    expect_rows(&rt, rt.alloc(), Kind::Perfect, &PERFECT)
}

#[test]
fn bottlenecks(rt: HostRuntime) -> Result<(), Fail> {
    expect_rows(&rt, rt.alloc(), Kind::Bottleneck, &PERFECT)
}

#[test]
fn matchings(rt: HostRuntime) -> Result<(), Fail> {
    expect_rows(&rt, rt.alloc(), Kind::Match, &MATCH)
}

#[test]
fn greatest_matchings(rt: HostRuntime) -> Result<(), Fail> {
    expect_rows(&rt, rt.alloc(), Kind::Gallai, &MATCH)?;
    expect_rows(&rt, rt.alloc(), Kind::Gallai, &PERFECT)
}

#[test]
fn documents_of_greatest_matchings(rt: HostRuntime) -> Result<(), Fail> {
    for (text, wanted) in &GREATEST {
        expect_text(&rt, rt.alloc(), *text, *wanted)?;
    }
    Ok(())
}

#[test]
fn missed_vertices(rt: HostRuntime) -> Result<(), Fail> {
    for (name, text, missed, border) in &MISSED {
        expect_missed(&rt, rt.alloc(), *name, *text, *missed, *border)?;
    }
    Ok(())
}

#[test]
fn b_matchings(rt: HostRuntime) -> Result<(), Fail> {
    expect_rows(&rt, rt.alloc(), Kind::BMatch, &BMATCH)
}

#[test]
fn b_matchings_with_capacities(rt: HostRuntime) -> Result<(), Fail> {
    expect_rows(&rt, rt.alloc(), Kind::CapMatch, &CAPMATCH)
}

#[test]
fn degrees_between_bounds(rt: HostRuntime) -> Result<(), Fail> {
    expect_rows(&rt, rt.alloc(), Kind::Interval, &INTERVAL)
}

#[test]
fn factors(rt: HostRuntime) -> Result<(), Fail> {
    expect_rows(&rt, rt.alloc(), Kind::FFactor, &FFACTOR)
}

#[test]
fn joins(rt: HostRuntime) -> Result<(), Fail> {
    expect_rows(&rt, rt.alloc(), Kind::TJoin, &TJOIN)
}

#[test]
fn tours(rt: HostRuntime) -> Result<(), Fail> {
    for (name, text) in &TOURS {
        expect_tour_row(&rt, rt.alloc(), *name, *text)?;
    }
    Ok(())
}
