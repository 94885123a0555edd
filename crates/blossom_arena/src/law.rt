//! What holds of the nodes of every arena, for those who cite this crate's contracts alone.
ghost use Rattle.blossom_arena.specs.Laws.{SetsAreOdd, SetsHaveForm, SetsAreLaminar, SetsDiffer};
ghost use Rattle.blossom_arena.specs.Laws.{SlackByNodes, ListedSlackByNodes};

/// The sets of the blossoms are odd and laminar (chapters 24 and 26): each has an odd number of at
/// least three vertices, of any two nodes one holds the other or they have no vertex in common, and
/// no two nodes have the same vertices. The slack of an edge is twice its weight without the duals
/// of the nodes that hold exactly one of its ends (chapter 25), also if sets of dual 0 are left
/// out.
pub fn laws()
    // The sets of blossoms are odd and, once ascending, have the form of a certificate's sets.
    ensures odd { SetsAreOdd }
    ensures form { SetsHaveForm }

    // They are laminar and all different.
    ensures laminar { SetsAreLaminar }
    ensures different { SetsDiffer }

    // The slack of an edge by duals and sets is what the search computes from the nodes that hold
    // exactly one end.
    ensures slack { SlackByNodes }
    ensures listed { ListedSlackByNodes }
{}
