//! What holds of all states of a search, for those who cite this crate's contracts alone.
ghost use Rattle.alt_forest.specs.Laws.{WaysLeadToRoots, TreesHaveParity, ForestsHaveParity};
ghost use Rattle.alt_forest.specs.Laws.{TreesBalance, RootsCounted, ExposedCounted};

/// The way from each node in a tree leads to a root. The duals of the nodes that hold a vertex,
/// added up, have one parity in one tree, and over all trees and exposed nodes, so that the slack
/// of an edge within these is even. A tree has one outer node more than inner ones. If there is a
/// tree by count there is a root, and if no node is exposed by count each outermost node has a mate
/// (chapters 24 and 26).
pub fn laws()
    // Each node of a tree reaches a root.
    ensures roots { WaysLeadToRoots }

    // One parity of dual sums holds over all trees and exposed nodes, so that slacks between them
    // are even.
    ensures parity { TreesHaveParity }
    ensures forest_parity { ForestsHaveParity }

    // A tree has one outer node more than inner ones.
    ensures balance { TreesBalance }
    ensures roots_counted { RootsCounted }
    ensures exposed_counted { ExposedCounted }
{}
