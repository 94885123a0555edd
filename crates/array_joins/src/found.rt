//! What a search over pairs of leaves has found.
ghost use Rattle.std.specs.Prelude.{◌≡◌, ◌≤◌, ◌<◌, length, Some};
ghost use Rattle.mwpm_engine.specs.declared.outcome.Outcome.TheVariants.{Matched};

use crate::table::{item_at, set_item};
use mb_base::{OutOfMemory, VertexId};
use mwpm_engine::{Engine, Members};
use std::alloc::Global;

/// A set of leaves with its dual: where its members are in the list of all members.
#[derive(Clone, Copy)]
pub(crate) struct FoundSet {
    pub dual: i64,
    pub start: usize,
    pub end: usize,
}

/// A perfect matching of leaves, and the duals of leaves and sets that prove it least.
#[derive(Drop)]
pub(crate) struct Found {
    /// By leaf, from 1.
    pub duals: Vec<i64>,
    /// By leaf, from 1: the leaf that it is matched with.
    pub partners: Vec<u32>,
    pub sets: Vec<FoundSet>,
    pub members: Vec<u32>,
}

/// The leaf that a leaf is matched with, or 0.
fn partner_of(engine: &Engine, vertex: VertexId) -> u32
    requires matched { engine.now.outcome ≡ Some Matched }
    requires low { 1 ≤ vertex }
    requires high { vertex ≤ engine.now.graph.vertices }
{
    let edge = engine.mate(vertex);
    if edge.number() < 1 {
        return 0;
    }
    if edge.number() > engine.graph().edges() {
        return 0;
    }
    engine.graph().other_end(edge, vertex).number()
}

/// Notes the dual and the partner of each leaf.
fn read_leaves(found: &mut Found, engine: &Engine)
    requires matched { engine.now.outcome ≡ Some Matched }
{
    for place in 0..engine.graph().vertices() {
        let vertex = VertexId::new(place + 1);
        set_item(&mut found.duals, vertex.number(), engine.dual(vertex));
        set_item(
            &mut found.partners,
            vertex.number(),
            partner_of(engine, vertex),
        );
    }
}

/// Adds the members of a set to the list of all members.
fn push_members(list: &mut Vec<u32>, members: Members<'_>) -> Result<(), OutOfMemory> {
    for member in members {
        list.push(member.number())?;
    }
    Ok(())
}

/// Notes a set.
fn read_set(found: &mut Found, engine: &Engine, place: u32) -> Result<(), OutOfMemory>
    requires matched { engine.now.outcome ≡ Some Matched }
    requires place { place < length engine.now.sets }
{
    let (dual, members) = engine.set(place);
    let start = found.members.len();
    push_members(&mut found.members, members)?;
    let end = found.members.len();
    found.sets.push(FoundSet { dual, start, end })?;
    Ok(())
}

/// Raises a negative dual to 0, and lowers that of the partner by as much, unless that would then
/// be negative. If the pairs at the partner have all their lengths, the duals stay feasible, since
/// no other leaf is nearer to the partner than by this one.
fn raise_dual(found: &mut Found, leaf: u32) {
    let partner = item_at(&found.partners, leaf, 0);
    let dual = item_at(&found.duals, leaf, 0);
    let rest = item_at(&found.duals, partner, 0).wrapping_add(dual);
    if dual < 0 && rest >= 0 {
        set_item(&mut found.duals, leaf, 0);
        set_item(&mut found.duals, partner, rest);
    }
}

/// Raises the negative duals of leaves.
fn raise_duals(found: &mut Found) {
    let places = u32::try_from(found.duals.len()).unwrap_or(0);
    for leaf in 1..places {
        raise_dual(found, leaf);
    }
}

/// Reads what an engine has found.
pub(crate) fn found_by(alloc: Global, engine: &Engine) -> Result<Found, OutOfMemory>
    requires matched { engine.now.outcome ≡ Some Matched }
{
    let places = engine.graph().vertices() as usize + 1;
    let mut found = Found {
        duals: vec![in alloc; 0i64; places]?,
        partners: vec![in alloc; 0u32; places]?,
        sets: Vec::new(alloc),
        members: Vec::new(alloc),
    };
    read_leaves(&mut found, engine);
    for place in 0..engine.set_count() {
        read_set(&mut found, engine, place)?;
    }
    raise_duals(&mut found);
    Ok(found)
}
