//! What holds of the moments of every queue, for those who cite this crate's contracts alone.
ghost use Rattle.search_heap.specs.Laws.{NewHasNone, HasWhatIsSet, OthersStay, PlacesStay};
ghost use Rattle.search_heap.specs.Laws.{OnlyItemsHave};

/// The moments are a finite map from the items that a queue has a place for: of a new queue none
/// has one, an item has the moment that it was given last, the others keep theirs, and no other
/// item ever has one.
pub fn laws()
    // What holds of such maps after each call.
    ensures new { NewHasNone }
    ensures set { HasWhatIsSet }
    ensures others { OthersStay }
    ensures places { PlacesStay }
    ensures items { OnlyItemsHave }
{}
