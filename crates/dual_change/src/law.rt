//! What holds of all changes, for those who cite this crate's contracts alone.
ghost use Rattle.dual_change.specs.Laws.{StuckInnerAreVertices, StuckHasBarrier, OuterSlackIsEven};
ghost use Rattle.dual_change.specs.Laws.{ChangeRaisesTotal};

/// Where a search is stuck, no blossom is inner, and if every exposed node is the root of a tree
/// the vertices of all inner nodes are then a barrier (chapter 24). The slack of an edge between
/// two outer nodes is even. A change of d raises the sum of all duals by d for each tree (chapter
/// 26).
pub fn laws()
    ensures inner { StuckInnerAreVertices }

    // The inner vertices of a stuck forest are a barrier if every exposed node is a root.
    ensures barrier { StuckHasBarrier }
    ensures parity { OuterSlackIsEven }
    ensures total { ChangeRaisesTotal }
{}
