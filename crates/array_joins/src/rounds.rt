//! Rounds of a search over pairs of leaves, until its duals prove the join least.
ghost use Rattle.std.specs.Prelude.{◌*◌, ◌≤◌, ◌+◌};

use crate::arcs::Arcs;
use crate::forest::{Forest, forest_of};
use crate::found::Found;
use crate::leaves::{Leaves, odd_by_edges};
use crate::levels::levels_of;
use crate::neighbours::add_neighbours;
use crate::pairs::{Pair, add_near_pairs, distinct};
use crate::paths::{Paths, use_paths};
use crate::places::{Places, find_places};
use crate::pricing::add_short_pairs;
use crate::searching::search;
use crate::shown::{is_balanced, meet_all, total_of};
use crate::spread::Spread;
use crate::trees::Trees;
use join_check::Levels;
use mb_base::{EdgeId, OutOfMemory, Steps};
use mb_problem::{Instance, Parity};
use std::alloc::Global;
use std::sync::ledger::Ledger;

/// A join and a forest of lengths that may prove it least.
#[derive(Drop)]
pub struct Guess {
    /// The edges of the join, ascending.
    pub join: Vec<EdgeId>,
    pub levels: Levels,
}

/// How a round ends: with a guess, with more pairs for another round, or with nothing to try.
#[derive(Drop)]
enum End {
    Shown(Guess),
    Again,
    Stuck,
}

/// With how many of the nearest other leaves a leaf is paired when no other pair is found; with
/// twice as many the next time.
const NEAR: u32 = 4;

/// How many rounds there are at most.
const ROUNDS: u32 = 6;

/// What guesses on one graph use: tables of the graph, made once, and those of a set of leaves.
#[derive(Drop)]
pub struct GuessTables {
    alloc: Global,
    arcs: Arcs,
    trees: Trees,
    /// By vertex: whether the edges alone make a join have odd degree there.
    odd: Vec<bool>,
    /// Whether the graph without its loops is a forest.
    is_forest: bool,
    has_negative: bool,
    leaves: Leaves,
    spread: Spread,
    paths: Paths,
    places: Places,
    pairs: Vec<Pair>,
    near: u32,
    /// How many arcs may be followed before a round.
    most_looks: u64,
}

/// Whether an edge has a negative weight.
fn has_negative(instance: &Instance) -> bool {
    for edge in instance.edge_list() {
        if edge.w < 0 {
            return true;
        }
    }
    false
}

/// Whether arcs and trees over so many vertices are those of a forest.
fn is_forest(arcs: &Arcs, trees: &Trees, vertices: u32) -> bool {
    let links = arcs.len() as u64 / 2;
    links.wrapping_add(u64::from(trees.count)) == u64::from(vertices)
}

impl GuessTables {
    /// The tables of a graph, for joins of this parity, in time and memory linear in its vertices
    /// and edges. The values of the vertices may change between guesses.
    ///
    /// # Errors
    ///
    /// `OutOfMemory` if an allocation fails.
    pub fn new(
        alloc: Global,
        instance: &Instance,
        parity: &Parity,
    ) -> Result<GuessTables, OutOfMemory> {
        let vertices = instance.vertices();
        let arcs = Arcs::of(alloc, instance)?;
        let trees = Trees::of(alloc, &arcs, vertices)?;
        let is_forest = is_forest(&arcs, &trees, vertices);
        Ok(GuessTables {
            alloc,
            arcs,
            trees,
            odd: odd_by_edges(alloc, instance, *parity)?,
            is_forest,
            has_negative: has_negative(instance),
            leaves: Leaves::new(alloc, vertices)?,
            spread: Spread::new(alloc, vertices)?,
            paths: Paths::new(alloc, instance.edges())?,
            places: Places::new(alloc, vertices)?,
            pairs: Vec::new(alloc),
            near: NEAR,
            most_looks: 0,
        })
    }

    /// Gives their memory back, as `drop` does. What their parts give back is proved here, once.
    pub fn release(self) {}

    /// Begins with the leaves of an instance and no pairs, if so many arcs may be followed. Answers
    /// whether rounds may find a guess: each component has an even number of leaves, and the graph
    /// isn't a forest with leaves, whose one join another way finds sooner.
    pub(crate) fn begin(
        &mut self,
        instance: &Instance,
        parity: Parity,
        most_looks: u64,
    ) -> Result<bool, OutOfMemory> {
        self.spread.clear();
        self.spread.looks = 0;
        self.pairs.clear();
        self.near = NEAR;
        self.most_looks = most_looks;
        if !self.leaves.find(instance, parity, &self.odd, &self.trees)? {
            return Ok(false);
        }
        Ok(!self.is_forest || self.leaves.count == 0)
    }

    /// Adds the pairs of each leaf and the nearest others. Answers whether all were added.
    fn add_near(&mut self) -> Result<bool, OutOfMemory> {
        add_near_pairs(
            &mut self.pairs,
            &self.arcs,
            &self.leaves,
            &mut self.spread,
            self.near,
            self.most_looks,
        )
    }

    /// Adds pairs for another round: those that the forest is too long for, or else of each leaf
    /// and the nearest others. Answers whether there were any.
    fn add_more(
        &mut self,
        instance: &Instance,
        forest: &Forest,
        found: &Found,
        is_shorter: bool,
    ) -> Result<bool, OutOfMemory> {
        let added = add_short_pairs(
            self.alloc,
            &mut self.pairs,
            instance,
            &self.arcs,
            &self.leaves,
            forest,
            &self.spread,
            found,
        )?;
        self.spread.clear();
        if added || is_shorter {
            return Ok(true);
        }
        if self.near >= self.leaves.count {
            return Ok(false);
        }
        let added = self.add_near()?;
        self.near = self.near.wrapping_mul(2);
        Ok(added)
    }

    /// The guess of a forest with places that proves its join least.
    fn guess(
        &self,
        instance: &Instance,
        forest: &Forest,
        meets: Vec<u32>,
    ) -> Result<Guess, OutOfMemory> {
        let vertices = instance.vertices();
        Ok(Guess {
            join: self.paths.join(self.alloc, instance, self.has_negative)?,
            levels: levels_of(self.alloc, forest, &self.places, vertices, meets)?,
        })
    }

    /// The guess of a forest whose nodes are as long as the paths, if each edge is at least as long
    /// as the way between the places of its ends.
    fn guess_if_wide(
        &self,
        instance: &Instance,
        forest: &Forest,
    ) -> Result<Option<Guess>, OutOfMemory> {
        let length = self.paths.length(instance);
        if !is_balanced(forest, &self.leaves, &self.spread, length) {
            return Ok(None);
        }
        let mut meets = vec![in self.alloc; 0u32; instance.edges() as usize]?;
        if !meet_all(&mut meets, &self.arcs, forest, &self.places) {
            return Ok(None);
        }
        let guess = self.guess(instance, forest, meets)?;
        Ok(Some(guess))
    }

    /// How a round ends that has found this.
    fn end_of(&mut self, instance: &Instance, found: &Found) -> Result<End, OutOfMemory> {
        let forest = forest_of(self.alloc, found)?;
        let length = use_paths(
            &mut self.paths,
            &self.arcs,
            &self.leaves,
            &forest,
            &mut self.spread,
            found,
            &mut self.pairs,
        )?;
        find_places(
            &mut self.places,
            &self.arcs,
            &self.leaves,
            &forest,
            &mut self.spread,
        )?;
        if let Some(guess) = self.guess_if_wide(instance, &forest)? {
            return Ok(End::Shown(guess));
        }
        let is_shorter = length < total_of(&forest);
        if self.add_more(instance, &forest, found, is_shorter)? {
            return Ok(End::Again);
        }
        Ok(End::Stuck)
    }

    /// One round. Its search is paid from the budget.
    fn round<L: Ledger>(
        &mut self,
        instance: &Instance,
        budget: &mut u64,
        steps: &mut Steps<L>,
    ) -> Result<End, OutOfMemory>
        ensures { 2 * steps.new + budget.new ≤ 2 * steps.old + budget.old }
    {
        if self.spread.looks > self.most_looks {
            return Ok(End::Stuck);
        }
        let pairs = distinct(self.alloc, &mut self.pairs)?;
        self.pairs = pairs;
        let distances = self.leaves.distances.as_slice();
        let Some(found) = search(self.alloc, distances, &self.pairs, budget, steps)? else {
            return Ok(End::Stuck);
        };
        self.end_of(instance, &found)
    }

    /// Rounds until one has a guess, or nothing if none has.
    pub(crate) fn run<L: Ledger>(
        &mut self,
        instance: &Instance,
        budget: &mut u64,
        steps: &mut Steps<L>,
    ) -> Result<Option<Guess>, OutOfMemory>
        ensures { 2 * steps.new + budget.new ≤ 2 * steps.old + budget.old }
    {
        add_neighbours(
            self.alloc,
            &mut self.pairs,
            &self.arcs,
            &self.leaves,
            &mut self.spread,
        )?;
        for _ in 0..ROUNDS {
            match self.round(instance, budget, steps)? {
                End::Shown(guess) => return Ok(Some(guess)),
                End::Again => {}
                End::Stuck => return Ok(None),
            }
        }
        Ok(None)
    }
}
