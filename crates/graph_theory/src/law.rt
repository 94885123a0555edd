//! What holds of all graphs, for those who cite this crate's contracts alone.
ghost use Rattle.graph_theory.specs.Laws.{Handshake, WeakDuality, BarrierExcludes, OddPartExcludes};
ghost use Rattle.graph_theory.specs.Laws.{SplitPartExcludes};

/// The handshake lemma, weak duality with odd sets, and what excludes perfect matchings (a
/// barrier), T-joins (an odd part) and walks that use all edges (a split part).
pub fn laws()
    // The degrees add up to twice the number of edges.
    ensures handshake { Handshake }

    // Weak duality with odd sets: duals that leave no edge a negative slack bound the weight of
    // every perfect matching from below.
    ensures duality { WeakDuality }

    // A barrier, a set whose removal leaves more odd components than it has members, excludes every
    // perfect matching.
    ensures barrier { BarrierExcludes }

    // A component with an odd number of terminals excludes every T-join.
    ensures odd_part { OddPartExcludes }

    // A closed vertex set that has edges inside and outside excludes every closed walk that uses
    // all edges.
    ensures split_part { SplitPartExcludes }
{}
