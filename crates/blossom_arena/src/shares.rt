ghost use Rattle.std.specs.Prelude.{◌≡◌, ◌≤ℤ◌, pos};
ghost use Rattle.blossom_arena.specs.Changes.{share};
ghost use Rattle.blossom_arena.specs.Shares.{class_of};

use crate::label::Label;
use std::marker::Model;

/// The place of a label among the shares of a change.
fn class(label: Label) -> usize
    ensures { result ≡ class_of label }
{
    match label {
        Label::Outer => 0,
        Label::Inner => 1,
        Label::Out => 2,
    }
}

/// The shares of a change in the order of the labels: they are read from a table, since a machine
/// can't foresee a branch on a label. Contracts see the change.
#[derive(Drop)]
pub(crate) struct Shares {
    table: [i64; 3],
}

impl Model for Shares {
    ghost use Rattle.std.specs.Prelude.{◌≡◌, ℤ, pos, slice_index_or};
    ghost use Rattle.blossom_arena.specs.Shares.{shares_of};

    ghost Value = { ℤ };

    ghost view = { λ s. slice_index_or s.table 0 (pos 0) };

    ghost invariant = { λ s. s.table ≡ shares_of (slice_index_or s.table 0 (pos 0)) };
}

impl Shares {
    /// The shares of a change of d.
    pub(crate) fn of(d: i64) -> Shares
        requires low { pos 0 ≤ℤ d }
        ensures { result ≡ d }
    {
        Shares { table: [d, -d, 0] }
    }

    /// The change.
    pub(crate) fn clock(&self) -> i64
        ensures { result ≡ self.now }
    {
        self.table[0]
    }

    /// What the change adds to a dual that moves as this label says.
    pub(crate) fn share(&self, label: Label) -> i64
        ensures { result ≡ share self.now label }
    {
        self.table[class(label)]
    }
}
