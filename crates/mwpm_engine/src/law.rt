//! What holds of the events of every search, for those who cite this crate's contracts alone.
ghost use Rattle.mwpm_engine.specs.Laws.{FewExpands};

/// Between two augments of a search that begins with s blossoms at most s blossoms are expanded,
/// whatever the order of its events (chapter 26).
pub fn laws()
    // Whatever the order of events, at most s blossoms are expanded before the next augment.
    ensures expands { FewExpands }
{}
