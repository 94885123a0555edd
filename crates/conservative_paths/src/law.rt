//! What holds of all instances, for those who cite this crate's contracts alone.
ghost use Rattle.conservative_paths.specs.Within.{EvenSetsDecide};

/// If no even set of edges weighs less than 0, the weights are conservative: the edges of a circuit
/// are an even set (Schrijver, Combinatorial Optimization, volume A, chapter 29).
pub fn laws()
    // If no even set of edges has negative weight, no cycle has.
    ensures conservative { EvenSetsDecide }
{}
