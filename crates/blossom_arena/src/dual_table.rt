ghost use Rattle.std.specs.Prelude.{◌≡◌, ◌<◌, ◌≤◌, ◌+ℤ◌, ◌-ℤ◌, length};
ghost use Rattle.std.specs.List.{AllByRecursion};
ghost use Rattle.graph_theory.specs.declared.limits.TheConstants.{GRAPH_VERTEX_LIMIT};
ghost use Rattle.graph_theory.specs.Duals.{IsNumber};
ghost use Rattle.blossom_arena.specs.Family.{dual_at};
ghost use Rattle.blossom_arena.specs.Slack.{IsDualSum, IsNearSum, total_of};

use crate::chain::Chain;
use crate::label::Label;
use crate::links::Link;
use crate::shares::Shares;
use base_types::OutOfMemory;
use graph_theory::NUMBER_LIMIT;
use std::alloc::Global;
use std::marker::Model;

/// The duals by node number, each of which moves as a label says: a change moves all of them at
/// once, by the clock alone. Contracts see the duals as they are now, and the labels.
#[derive(Drop)]
pub(crate) struct Duals {
    // By node number: the dual without its share of the clock, and how it moves.
    bases: Vec<i64>,
    motions: Vec<Label>,
    // The shares of the clock, which is the sum of the changes.
    shares: Shares,
}

impl Model for Duals {
    ghost use Rattle.blossom_arena.specs.Moving.{DualTable, table_of, IsTable};

    ghost Value = { DualTable };

    ghost view = { table_of };

    ghost invariant = { IsTable };
}

/// What has to be added to the share of a dual, so that it is y.
fn base_of(y: i64, share: i64) -> i64
    requires number { IsNumber y }
    requires share { IsNumber share }
    ensures { result ≡ y -ℤ share }
{
    y - share
}

/// A base with its share.
fn sum_of(base: i64, share: i64) -> i64
    requires { IsNumber (base +ℤ share) }
    ensures { result ≡ base +ℤ share }
{
    base + share
}

/// What is added to a dual, in 64 bits: the difference of two duals.
pub(crate) fn narrowed(d: i128) -> i64
    requires { IsNearSum d }
    ensures { result ≡ d }
{
    d as i64
}

/// The duals of the nodes of a chain, added up.
pub(crate) fn total(duals: &Duals, chain: Chain<'_>) -> i128
    requires places { AllByRecursion (λ a. a < length duals.now.values) chain }
    requires size_limit { length chain ≤ GRAPH_VERTEX_LIMIT }
    ensures total { result ≡ total_of (dual_at duals.now.values) chain.entry }
    ensures in_range { IsDualSum result }
{
    let mut sum = 0i128;
    for node in chain {
        sum += i128::from(duals.get(node.number() as usize));
    }
    sum
}

/// A dual and what is added to it, where the sum is in range.
fn raised_by(y: i64, d: i128) -> i64
    requires number { IsNumber y }
    requires sum { IsNumber (y +ℤ d) }
    ensures { result ≡ y +ℤ d }
{
    (i128::from(y) + d) as i64
}

impl Duals {
    ghost use Rattle.std.specs.Prelude.{ℕ, ◌≡◌, ◌<◌, ◌≤ℤ◌, ◌+ℤ◌, pos, IfOk, length, slice_set};
    ghost use Rattle.std.specs.List.{AllByRecursion};
    ghost use Rattle.graph_theory.specs.Duals.{IsNumber};
    ghost use Rattle.blossom_arena.specs.declared.label.Label.TheVariants.{Out};
    ghost use Rattle.blossom_arena.specs.declared.links.Link.{Link};
    ghost use Rattle.blossom_arena.specs.Family.{dual_at, nodes_of, rested};
    ghost use Rattle.blossom_arena.specs.Changes.{label_at, share};
    ghost use Rattle.blossom_arena.specs.Moving.{empty_table};

    /// So many duals, all 0, which rest.
    pub(crate) fn new(alloc: Global, places: usize) -> Result<Duals, OutOfMemory>
        ensures { IfOk result (λ t. t ≡ empty_table places) }
    {
        Ok(Duals {
            bases: vec![in alloc; 0i64; places]?,
            motions: vec![in alloc; Label::Out; places]?,
            shares: Shares::of(0),
        })
    }

    /// How many there are.
    fn len(&self) -> usize
        ensures values { result ≡ length self.now.values }
        ensures motions { result ≡ length self.now.motions }
    {
        self.bases.len()
    }

    /// The dual at a place.
    pub(crate) fn get(&self, place: usize) -> i64
        requires { place < length self.now.values }
        ensures dual { result ≡ dual_at self.now.values place }
        ensures number { IsNumber result }
    {
        let share = self.shares.share(self.motions[place]);
        sum_of(self.bases[place], share)
    }

    /// How the dual at a place moves.
    fn motion(&self, place: usize) -> Label
        requires { place < length self.now.values }
        ensures { result ≡ label_at self.now.motions place }
    {
        self.motions[place]
    }

    /// Puts a dual and its motion at a place.
    pub(crate) fn put(&mut self, place: usize, y: i64, motion: Label)
        requires place { place < length self.old.values }
        requires number { IsNumber y }
        ensures values { self.new.values ≡ slice_set self.old.values place y }
        ensures motions { self.new.motions ≡ slice_set self.old.motions place motion }
    {
        self.bases[place] = base_of(y, self.shares.share(motion));
        self.motions[place] = motion;
    }

    /// Lets the dual at a place move as this label says, from now on.
    pub(crate) fn move_as(&mut self, place: usize, motion: Label)
        requires { place < length self.old.values }
        ensures values { self.new.values ≡ self.old.values }
        ensures motions { self.new.motions ≡ slice_set self.old.motions place motion }
    {
        let y = self.get(place);
        self.put(place, y, motion);
    }

    /// Lets no node of a circuit move any more.
    pub(crate) fn rest_each(&mut self, circuit: &[Link])
        requires { AllByRecursion (λ (l : Link). l.node < length self.old.values) circuit.now }
        ensures values { self.new.values ≡ self.old.values }
        ensures motions { self.new.motions ≡ rested self.old.motions (nodes_of circuit.now) }
    {
        for link in circuit {
            self.move_as(link.node.number() as usize, Label::Out);
        }
    }

    /// Puts a dual at a place, and leaves its motion.
    fn change(&mut self, place: usize, y: i64)
        requires place { place < length self.old.values }
        requires number { IsNumber y }
        ensures values { self.new.values ≡ slice_set self.old.values place y }
        ensures motions { self.new.motions ≡ self.old.motions }
    {
        self.put(place, y, self.motion(place));
    }

    /// Adds to the dual at a place.
    pub(crate) fn raise(&mut self, place: usize, d: i128)
        requires place { place < length self.old.values }
        requires in_range { IsNumber (dual_at self.old.values place +ℤ d) }
        ensures values { self.new.values
            ≡ slice_set self.old.values place (dual_at self.old.values place +ℤ d) }
        ensures motions { self.new.motions ≡ self.old.motions }
    {
        let y = raised_by(self.get(place), d);
        self.change(place, y);
    }

    /// Adds a share to the dual at a place.
    fn add_share(&mut self, place: usize, more: i64)
        requires place { place < length self.old.values }
        requires in_range { IsNumber (dual_at self.old.values place +ℤ more) }
        ensures values { self.new.values
            ≡ slice_set self.old.values place (dual_at self.old.values place +ℤ more) }
        ensures motions { self.new.motions ≡ self.old.motions }
    {
        self.raise(place, i128::from(more));
    }

    /// Adds to each dual its share of a change of d, as it moves.
    fn raise_each(&mut self, d: i64)
        requires low { pos 0 ≤ℤ d }
        requires in_range { (a : ℕ) → IsNumber
            (dual_at self.old.values a +ℤ share d (label_at self.old.motions a)) }
        ensures values { (a : ℕ) → dual_at self.new.values a ≡ dual_at self.old.values a
            +ℤ share d (label_at self.old.motions a) }
        ensures len { length self.new.values ≡ length self.old.values }
        ensures motions { self.new.motions ≡ self.old.motions }
    {
        let shares = Shares::of(d);
        for place in 0..self.len() {
            let more = shares.share(self.motion(place));
            self.add_share(place, more);
        }
    }

    /// Adds to each dual its share of a change of d, as it moves: by the clock, in constant time.
    /// Once the clock has come to the limit of numbers, it takes time linear in the nodes.
    pub(crate) fn advance(&mut self, d: i64)
        requires low { pos 0 ≤ℤ d }
        requires in_range { (a : ℕ) → IsNumber
            (dual_at self.old.values a +ℤ share d (label_at self.old.motions a)) }
        ensures values { (a : ℕ) → dual_at self.new.values a ≡ dual_at self.old.values a
            +ℤ share d (label_at self.old.motions a) }
        ensures len { length self.new.values ≡ length self.old.values }
        ensures motions { self.new.motions ≡ self.old.motions }
    {
        let clock = self.shares.clock();
        if d > NUMBER_LIMIT - clock {
            self.raise_each(d);
            return;
        }
        self.shares = Shares::of(clock + d);
    }

    /// Lets no dual move any more.
    pub(crate) fn rest(&mut self)
        ensures values { self.new.values ≡ self.old.values }
        ensures motions { (a : ℕ) → label_at self.new.motions a ≡ Out }
        ensures len { length self.new.motions ≡ length self.old.motions }
    {
        for place in 0..self.len() {
            self.move_as(place, Label::Out);
        }
    }

    /// Makes all duals 0, which rest.
    pub(crate) fn wipe(&mut self)
        ensures { self.new ≡ empty_table (length self.old.values) }
    {
        self.bases.fill(0);
        self.motions.fill(Label::Out);
        self.shares = Shares::of(0);
    }
}
