//! What holds of greatest matchings of all graphs, for those who cite this crate's contracts alone.
ghost use Rattle.gallai_theory.specs.Laws.{OddCountIsBounded, MissedLieInOdd, PathsDecompose};
ghost use Rattle.gallai_theory.specs.Laws.{LoopsMatterNot};

/// It does nothing. Its contract holds Berge's bound, and what even paths and a count of odd
/// components prove of a matching and of the vertices that greatest ones miss (Schrijver,
/// Combinatorial Optimization, volume A, chapter 24).
pub fn laws()
    // The odd components that are left without a set, less the members of that set, bound the
    // vertices that a matching misses from below.
    ensures berge { OddCountIsBounded }

    // The same bound is one better if some missed vertex lies in none of those components.
    ensures missed { MissedLieInOdd }

    // Alternating even paths from all members of a set, each inside the set, prove a matching
    // maximum and the set that of all vertices that maximum matchings miss, if the set's neighbours
    // leave as many odd components as that.
    ensures paths { PathsDecompose }

    // Neither loops nor weights matter to any of that.
    ensures loops { LoopsMatterNot }
{}
