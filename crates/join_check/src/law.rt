ghost use Rattle.join_check.specs.Laws.{ForestsProveJoins};

/// What a forest of lengths proves, for those who check one on an instance.
pub fn laws()
    // A join that weighs half of a forest's lengths, after the turn of negative weights, is a
    // T-join of minimum weight.
    ensures least { ForestsProveJoins }
{}
